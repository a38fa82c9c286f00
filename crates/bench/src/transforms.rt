//! Calls of domains.

use crate::batches::{Benchmark, Counted, mixed};
use ark_base::{FftField, PolyError};
use ark_poly::EvaluationDomain;
use std::alloc::Global;

/// What is called.
#[derive(Clone, Copy)]
pub enum Call {
    /// A transform in place, over and over on one list.
    Forward,
    /// An inverse one.
    Inverse,
    /// The transform of a list much shorter than the domain, whose first item the last call's values give.
    Short,
    /// The weights of the values at the domain's elements.
    Weights,
}

/// A call over a domain.
#[derive(Drop)]
pub struct OverDomain<F: FftField, D: EvaluationDomain<F>> {
    pub domain: D,
    pub call: Call,
    /// Where the weights are taken.
    pub point: F,
    /// The short list.
    pub items: Vec<F>,
    /// What is transformed in place, or the answers.
    pub values: Vec<F>,
}

impl<F: Counted, D: EvaluationDomain<F>> Benchmark for OverDomain<F, D> {
    fn call(&mut self, alloc: Global) -> Result<(), PolyError> {
        match self.call {
            Call::Forward => self.domain.fft_in_place(alloc, &mut self.values)?,
            Call::Inverse => self.domain.ifft_in_place(alloc, &mut self.values)?,
            Call::Short => {
                self.values = self.domain.fft(alloc, &self.items)?;
                if let (Some(first), Some(value)) = (self.items.first_mut(), self.values.last()) {
                    *first = *value;
                }
            }
            Call::Weights => {
                self.values = self
                    .domain
                    .evaluate_all_lagrange_coefficients(alloc, self.point)?;
            }
        }
        Ok(())
    }

    fn checksum(&self) -> u64 {
        mixed(self.values.as_slice())
    }
}
