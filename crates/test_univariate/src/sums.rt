//! Sums, differences, opposites and multiples of drawn polynomials, and their values, in both forms.

use crate::forms::Form;
use ark_base::{Field, Polynomial};
use ark_univariate::univariate::{DensePolynomial, SparsePolynomial};
use rand_pcg::Pcg64;
use std::alloc::Global;
use test_types::sums::{Way, add_up, combined, is_kept_by_zero, same, value};

// Whether the polynomial less itself is zero.
fn cancels<F: Field, P: Polynomial<F>>(alloc: Global, p: &P) -> bool {
    match combined(alloc, p, Way::Sub, p) {
        Some(zero) => zero.is_zero() && zero.degree() == 0,
        None => false,
    }
}

// Whether four times the polynomial is the double of its double.
fn doubles<F: Field, P: Polynomial<F>>(alloc: Global, p: &P) -> bool {
    let Some(double) = combined(alloc, p, Way::Add, p) else {
        return false;
    };
    match combined(alloc, &double, Way::AddInPlace, p) {
        Some(triple) => same(
            combined(alloc, &triple, Way::Add, p),
            combined(alloc, &double, Way::Add, &double),
        ),
        None => false,
    }
}

// Whether all this holds of a polynomial of this degree, its value at a point is the sum of its terms, and it adds up
// with those of all degrees up to 70.
fn holds_with_all<F: Field, P: Form<F>>(alloc: Global, rng: &mut Pcg64, degree: usize) -> bool {
    let Some(p) = P::drawn(alloc, rng, degree) else {
        return false;
    };
    let point = F::rand(rng);
    let mut right = p.degree() == degree
        && value(alloc, &p, &point) == Some(p.term_by_term(point))
        && cancels(alloc, &p)
        && doubles(alloc, &p)
        && is_kept_by_zero(alloc, &p);
    for other in 0..70 {
        match P::drawn(alloc, rng, other) {
            Some(q) => right = right && add_up(alloc, &p, &q, F::rand(rng), &point),
            None => right = false,
        }
    }
    right
}

// Whether two long draws differ.
fn differ<F: Field>(alloc: Global, rng: &mut Pcg64) -> bool {
    match (
        DensePolynomial::<F>::drawn(alloc, rng, 40),
        DensePolynomial::drawn(alloc, rng, 40),
    ) {
        (Some(p), Some(q)) => p != q,
        _ => false,
    }
}

/// Draws of all degrees up to 70 in both forms.
pub fn draws<F: Field>(alloc: Global) -> bool {
    let mut rng = Pcg64::new(61, 1);
    let mut right = differ::<F>(alloc, &mut rng);
    for degree in 0..70 {
        right = right
            && holds_with_all::<F, DensePolynomial<F>>(alloc, &mut rng, degree)
            && holds_with_all::<F, SparsePolynomial<F>>(alloc, &mut rng, degree);
    }
    right
}
