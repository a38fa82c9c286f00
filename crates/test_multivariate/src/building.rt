//! Terms and polynomials from numbers, for the tests beside.

use ark_base::{Field, PolyError, Polynomial};
use ark_multi::DenseMVPolynomial;
use ark_multi::multivariate::{SparsePolynomial, Term};
use std::alloc::Global;

/// A term by its powers, as pairs of variable and power.
pub type Powers<'a> = &'a [(usize, usize)];

/// Terms with their coefficients.
pub type Terms<'a> = &'a [(u64, Powers<'a>)];

pub fn term<T: Term>(alloc: Global, powers: Powers<'_>) -> Result<T, PolyError> {
    T::new(alloc, Vec::from_slice(alloc, powers)?)
}

/// The polynomial with these terms, whose variables are below the number; zero where one isn't.
pub fn from_terms<F: Field, T: Term>(
    alloc: Global,
    num_vars: usize,
    terms: Vec<(F, T)>,
) -> Result<SparsePolynomial<F, T>, PolyError> {
    if !terms.iter().all(|term| term.1.is_within(num_vars)) {
        return SparsePolynomial::zero(alloc);
    }
    SparsePolynomial::from_coefficients_vec(alloc, num_vars, terms)
}

/// The polynomial with these terms.
pub fn polynomial<F: Field, T: Term>(
    alloc: Global,
    num_vars: usize,
    terms: Terms<'_>,
) -> Result<SparsePolynomial<F, T>, PolyError> {
    let mut list: Vec<(F, T)> = Vec::new(alloc);
    for (coefficient, powers) in terms {
        list.push((F::from(*coefficient), term(alloc, *powers)?))?;
    }
    from_terms(alloc, num_vars, list)
}

/// Whether these are the terms, in this order.
pub fn has_terms<F: Field, T: Term>(p: &SparsePolynomial<F, T>, terms: Terms<'_>) -> bool {
    let mut same = p.terms().len() == terms.len();
    for ((coefficient, term), (number, powers)) in p.terms().iter().zip(terms) {
        same = same && *coefficient == F::from(*number) && term.pairs() == *powers;
    }
    same
}
