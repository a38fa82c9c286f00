//! Sums of dense with sparse polynomials, and sparse ones against their dense forms.

use crate::forms::{Form, gave};
use ark_base::Field;
use ark_poly::laws::{dense_and_back, sparse_and_back, values_of_both_forms};
use ark_univariate::Polynomial;
use ark_univariate::univariate::{DensePolynomial, SparsePolynomial};
use rand_pcg::Pcg64;
use std::alloc::Global;
use test_types::sums::{Way, combined, same};

// The dense polynomial put together with terms.
fn with_terms<F: Field>(
    alloc: Global,
    p: &DensePolynomial<F>,
    way: Way,
    q: &SparsePolynomial<F>,
) -> Option<DensePolynomial<F>> {
    match way {
        Way::Add => p.add_sparse(alloc, q).ok(),
        Way::Sub => p.sub_sparse(alloc, q).ok(),
        _ => in_place(alloc, p, way, q),
    }
}

fn in_place<F: Field>(
    alloc: Global,
    p: &DensePolynomial<F>,
    way: Way,
    q: &SparsePolynomial<F>,
) -> Option<DensePolynomial<F>> {
    let mut changed = p.clone().ok()?;
    let done = match way {
        Way::SubInPlace => changed.sub_assign_sparse(alloc, q),
        _ => changed.add_assign_sparse(alloc, q),
    };
    if done.is_ok() { Some(changed) } else { None }
}

// Whether sum and difference with terms, new and in place, are those with the dense form.
fn are_like_dense<F: Field>(
    alloc: Global,
    p: &DensePolynomial<F>,
    q: &SparsePolynomial<F>,
    dense: &DensePolynomial<F>,
) -> bool {
    let mut right = true;
    for way in [Way::Add, Way::Sub, Way::AddInPlace, Way::SubInPlace] {
        right = right && same(with_terms(alloc, p, way, q), combined(alloc, p, way, dense));
    }
    right
}

// Whether both forms have one value, and come back from the other one.
fn are_one<F: Field>(alloc: Global, q: &SparsePolynomial<F>, point: F) -> bool {
    let Ok(dense) = DensePolynomial::from_sparse(alloc, q) else {
        return false;
    };
    let known = q.term_by_term(point);
    gave(
        values_of_both_forms(alloc, &dense, q, point),
        &(known, known),
    ) && gave(sparse_and_back(alloc, &dense), &dense)
        && gave(dense_and_back(alloc, q), q)
}

// Whether the sum of two by terms is that of their dense forms.
fn has_dense_sum<F: Field>(
    alloc: Global,
    q: &SparsePolynomial<F>,
    other: &SparsePolynomial<F>,
    dense: &DensePolynomial<F>,
) -> bool {
    let (Some(sum), Ok(other)) = (
        combined(alloc, q, Way::Add, other),
        DensePolynomial::from_sparse(alloc, other),
    ) else {
        return false;
    };
    same(
        DensePolynomial::from_sparse(alloc, &sum).ok(),
        combined(alloc, dense, Way::Add, &other),
    )
}

// Whether all this holds of terms of this degree and dense ones of all degrees up to 70.
fn holds_with_all<F: Field>(alloc: Global, rng: &mut Pcg64, degree: usize) -> bool {
    let Some(q) = SparsePolynomial::<F>::drawn(alloc, rng, degree) else {
        return false;
    };
    let Ok(dense) = DensePolynomial::from_sparse(alloc, &q) else {
        return false;
    };
    let mut right = are_one(alloc, &q, F::rand(rng));
    for other in 0..70 {
        let (Some(p), Some(terms)) = (
            DensePolynomial::drawn(alloc, rng, other),
            SparsePolynomial::drawn(alloc, rng, other),
        ) else {
            return false;
        };
        right = right
            && are_like_dense(alloc, &p, &q, &dense)
            && has_dense_sum(alloc, &q, &terms, &dense);
    }
    right
}

/// Draws of all degrees up to 70 in both forms.
pub fn draws<F: Field>(alloc: Global) -> bool {
    let mut rng = Pcg64::new(17, 2);
    let mut right = true;
    for degree in 0..70 {
        right = right && holds_with_all::<F>(alloc, &mut rng, degree);
    }
    right
}
