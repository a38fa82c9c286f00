//! Sums, differences, products and inverses of elements, one after another.

use crate::batches::{Benchmark, Number, Reporter, mixed};
use ark_base::{Field, PolyError};
use std::alloc::Global;
use std::io::Print;
use std::time::Clock;

/// What is made of two elements at the same place.
#[derive(Clone, Copy)]
pub enum Operation {
    Sum,
    Difference,
    Product,
    Inverse,
}

impl Operation {
    fn of<F: Field>(self, left: F, right: F) -> F {
        match self {
            Operation::Sum => left + right,
            Operation::Difference => left - right,
            Operation::Product => left * right,
            Operation::Inverse => (left + right).inverse().unwrap_or(right),
        }
    }
}

// The elements of the first list are replaced by what is made of both.
#[derive(Drop)]
struct OfElements<F: Field> {
    operation: Operation,
    left: Vec<F>,
    right: Vec<F>,
}

impl<F: Field + Number> Benchmark for OfElements<F> {
    fn call(&mut self, _alloc: Global) -> Result<(), PolyError> {
        match self.operation {
            Operation::Sum => each(Operation::Sum, &mut self.left, &self.right),
            Operation::Difference => each(Operation::Difference, &mut self.left, &self.right),
            Operation::Product => each(Operation::Product, &mut self.left, &self.right),
            Operation::Inverse => each(Operation::Inverse, &mut self.left, &self.right),
        }
        Ok(())
    }

    fn checksum(&self) -> u64 {
        mixed(self.left.as_slice())
    }
}

// With an operation that is known, the loop has no choice in it.
#[inline(always)]
fn each<F: Field>(operation: Operation, left: &mut [F], right: &[F]) {
    for (to, from) in left.iter_mut().zip(right) {
        *to = operation.of(*to, *from);
    }
}

/// An operation on two lists of as many elements of a field, under this name: the size is how many there are.
pub fn report_elements<F: Field + Number, R: Print + Clock>(
    reporter: &Reporter<'_, R>,
    (name, operation): (&'static str, Operation),
    left: Vec<F>,
    right: Vec<F>,
) -> anyhow::Result<()> {
    let count = left.len();
    let mut benchmark = OfElements {
        operation,
        left,
        right,
    };
    reporter.report(name, count, &mut benchmark)
}
