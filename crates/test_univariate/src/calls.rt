//! Domains by their offsets, and their elements.

use ark_base::{FftField, PolyError};
use ark_univariate::EvaluationDomain;
use std::alloc::{AllocError, Global};

/// The domain for so many coefficients with this offset.
pub fn coset<F: FftField, D: EvaluationDomain<F>>(
    num_coeffs: usize,
    offset: u64,
) -> Result<D, PolyError> {
    D::new_coset(num_coeffs, F::from(offset)).ok_or(PolyError::NoDomain)
}

/// The elements of the domain as its iterator gives them.
pub fn listed<F: FftField, D: EvaluationDomain<F>>(
    alloc: Global,
    domain: &D,
) -> Result<Vec<F>, AllocError> {
    let mut elements = Vec::with_capacity(alloc, domain.size())?;
    for element in domain.elements() {
        elements.push(element)?;
    }
    Ok(elements)
}
