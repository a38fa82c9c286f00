//! Products of drawn polynomials: through domains and by all pairs of coefficients, and of terms.

use crate::forms::{Form, gave, some};
use ark_base::{FftField, Field};
use ark_poly::laws::{both_products, degree_of_product};
use ark_univariate::univariate::{DensePolynomial, SparsePolynomial};
use ark_univariate::{DenseUVPolynomial, Polynomial};
use rand_pcg::Pcg64;
use std::alloc::Global;

// Whether both products are the same, and have this degree where neither factor is zero.
fn is_naive<F: FftField>(alloc: Global, p: &DensePolynomial<F>, q: &DensePolynomial<F>) -> bool {
    let degree = p.degree().saturating_add(q.degree());
    match both_products(alloc, p, q) {
        Ok((product, plain)) => {
            product == plain && (p.is_zero() || q.is_zero() || product.degree() == degree)
        }
        Err(_) => false,
    }
}

// Whether that is so of a drawn one of at most so many coefficients and others up to 70, and the law on degrees gives
// the sum of the degrees.
fn are_naive<F: FftField>(alloc: Global, rng: &mut Pcg64, len: usize) -> bool {
    let Some(p) = some::<F>(alloc, rng, len) else {
        return false;
    };
    let double = p.degree().saturating_mul(2);
    let mut right = p.is_zero() || gave(degree_of_product(alloc, &p, &p), &double);
    for other in 0..70 {
        match some(alloc, rng, other) {
            Some(q) => right = right && is_naive(alloc, &p, &q),
            None => right = false,
        }
    }
    right
}

/// Products of at most so many coefficients.
pub fn draws<F: FftField>(alloc: Global, most: usize) -> bool {
    let mut rng = Pcg64::new(7, 11);
    let mut right = true;
    for len in 0..most {
        right = right && are_naive::<F>(alloc, &mut rng, len);
    }
    right
}

// Whether the product of terms is that of the dense forms.
fn is_dense_product<F: Field>(
    alloc: Global,
    p: &SparsePolynomial<F>,
    q: &SparsePolynomial<F>,
) -> bool {
    let (Ok(left), Ok(right), Ok(product)) = (
        DensePolynomial::from_sparse(alloc, p),
        DensePolynomial::from_sparse(alloc, q),
        p.mul(alloc, q),
    ) else {
        return false;
    };
    match left.naive_mul(alloc, &right) {
        Ok(known) => gave(DensePolynomial::from_sparse(alloc, &product), &known),
        Err(_) => false,
    }
}

// Whether the multiple, in both forms, is the product with the constant.
fn has_multiples<F: Field>(alloc: Global, p: &SparsePolynomial<F>, factor: F) -> bool {
    let (Ok(dense), Ok(constant)) = (
        DensePolynomial::from_sparse(alloc, p),
        vec![in alloc; factor; 1],
    ) else {
        return false;
    };
    let constant = DensePolynomial::from_coefficients_vec(constant);
    let (Ok(known), Ok(multiple)) = (
        dense.naive_mul(alloc, &constant),
        p.mul_scalar(alloc, factor),
    ) else {
        return false;
    };
    gave(dense.mul_scalar(alloc, factor), &known)
        && gave(DensePolynomial::from_sparse(alloc, &multiple), &known)
}

/// Products of terms of degrees up to 20, and multiples of those of degrees up to 70.
pub fn of_terms<F: Field>(alloc: Global) -> bool {
    let mut rng = Pcg64::new(5, 3);
    let mut right = true;
    for degree in 0..70 {
        let Some(p) = SparsePolynomial::<F>::drawn(alloc, &mut rng, degree) else {
            return false;
        };
        right = right && has_multiples(alloc, &p, F::rand(&mut rng));
        for other in 0..20 {
            match SparsePolynomial::drawn(alloc, &mut rng, other) {
                Some(q) => right = right && is_dense_product(alloc, &p, &q),
                None => right = false,
            }
        }
    }
    right
}

// The polynomial with another coefficient in place of the last one.
fn with_last<F: Field>(
    alloc: Global,
    p: &DensePolynomial<F>,
    last: F,
) -> Option<DensePolynomial<F>> {
    let mut coeffs = Vec::from_slice(alloc, p.coeffs()).ok()?;
    coeffs.pop();
    coeffs.push(last).ok()?;
    Some(DensePolynomial::from_coefficients_vec(coeffs))
}

/// Whether the last coefficient is dropped from the sum with one that has its opposite there, and is none from the
/// product with one that has its inverse there.
pub fn last_coefficients<F: FftField>(alloc: Global) -> bool {
    let Some(p) = DensePolynomial::<F>::drawn(alloc, &mut Pcg64::new(63, 1), 10) else {
        return false;
    };
    let last = p.coeffs().last().copied().unwrap_or(F::zero());
    let (Some(opposite), Some(inverse)) = (
        with_last(alloc, &p, -last),
        with_last(alloc, &p, last.inverse().unwrap_or(F::zero())),
    ) else {
        return false;
    };
    match (p.add(alloc, &opposite), p.mul(alloc, &inverse)) {
        (Ok(sum), Ok(product)) => sum.degree() == 9 && product.degree() == 20,
        _ => false,
    }
}
