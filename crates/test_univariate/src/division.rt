//! Quotients and remainders of drawn polynomials, in either form and through transforms.

use crate::forms::{gave, some};
use ark_base::{FftField, Field, PolyError};
use ark_poly::laws::divisions_of_all_forms;
use ark_univariate::Polynomial;
use ark_univariate::univariate::{DenseOrSparsePolynomial, DensePolynomial, SparsePolynomial};
use rand_pcg::Pcg64;
use std::alloc::Global;

// The quotient and the remainder, where there are any.
type Pair<F> = Option<(DensePolynomial<F>, DensePolynomial<F>)>;

// The answer, where both are the same.
fn agreed<F: Field>(answers: Result<(Pair<F>, Pair<F>), PolyError>) -> Option<Pair<F>> {
    match answers {
        Ok((left, right)) => if left == right { Some(left) } else { None },
        Err(_) => None,
    }
}

// What dense by dense and sparse by sparse give, where they give the same.
fn divided<F: Field>(
    alloc: Global,
    p: &DensePolynomial<F>,
    d: &DensePolynomial<F>,
) -> Option<Pair<F>> {
    let sparse_p = SparsePolynomial::from_dense(alloc, p).ok()?;
    let sparse_d = SparsePolynomial::from_dense(alloc, d).ok()?;
    agreed(divisions_of_all_forms(
        alloc,
        &DenseOrSparsePolynomial::from(p),
        &DenseOrSparsePolynomial::from(d),
        &DenseOrSparsePolynomial::from(&sparse_p),
        &DenseOrSparsePolynomial::from(&sparse_d),
    ))
}

// What dense by sparse and sparse by dense give, where they give the same.
fn divided_by_the_other<F: Field>(
    alloc: Global,
    p: &DensePolynomial<F>,
    d: &DensePolynomial<F>,
) -> Option<Pair<F>> {
    let sparse_p = SparsePolynomial::from_dense(alloc, p).ok()?;
    let sparse_d = SparsePolynomial::from_dense(alloc, d).ok()?;
    agreed(divisions_of_all_forms(
        alloc,
        &DenseOrSparsePolynomial::from(p),
        &DenseOrSparsePolynomial::from(&sparse_d),
        &DenseOrSparsePolynomial::from(&sparse_p),
        &DenseOrSparsePolynomial::from(d),
    ))
}

// Whether there is an answer, and the product of quotient and divisor with the remainder added is the dividend, and the
// remainder below the divisor; there are none exactly where zero divides something else.
fn multiplies_back<F: Field>(
    alloc: Global,
    p: &DensePolynomial<F>,
    d: &DensePolynomial<F>,
    answer: Option<Pair<F>>,
) -> bool {
    match answer {
        Some(Some((quotient, remainder))) => match quotient.naive_mul(alloc, d) {
            Ok(product) => {
                (remainder.is_zero() || remainder.degree() < d.degree())
                    && gave(product.add(alloc, &remainder), p)
            }
            Err(_) => false,
        },
        Some(None) => d.is_zero() && !p.is_zero(),
        None => false,
    }
}

// Whether that is so of drawn ones of at most so many coefficients, in all forms and through transforms.
fn divide<F: FftField>(alloc: Global, rng: &mut Pcg64, lens: (usize, usize)) -> bool {
    let (Some(p), Some(d)) = (some::<F>(alloc, rng, lens.0), some::<F>(alloc, rng, lens.1)) else {
        return false;
    };
    multiplies_back(alloc, &p, &d, divided(alloc, &p, &d))
        && multiplies_back(alloc, &p, &d, divided_by_the_other(alloc, &p, &d))
        && multiplies_back(alloc, &p, &d, p.divide_by_transforms(alloc, &d).ok())
}

/// Dividends of some lengths by divisors of all lengths up to 50.
pub fn short_ones<F: FftField>(alloc: Global) -> bool {
    let mut rng = Pcg64::new(41, 43);
    let mut right = true;
    for len in [0, 1, 2, 3, 5, 8, 13, 18, 24, 30, 36, 43, 49, 50] {
        for other in 0..51 {
            right = right && divide::<F>(alloc, &mut rng, (len, other));
        }
    }
    right
}

// Whether a drawn quotient and a drawn remainder come back through transforms from the dividend that is made of them.
fn gives_back<F: FftField>(alloc: Global, rng: &mut Pcg64, lens: (usize, usize)) -> bool {
    let (Some(q), Some(d), Some(remainder)) = (
        some::<F>(alloc, rng, lens.0),
        some::<F>(alloc, rng, lens.1),
        some(alloc, rng, lens.1.saturating_sub(1)),
    ) else {
        return false;
    };
    let Ok(product) = q.naive_mul(alloc, &d) else {
        return false;
    };
    match product.add(alloc, &remainder) {
        Ok(p) => gave(p.divide_by_transforms(alloc, &d), &Some((q, remainder))),
        Err(_) => false,
    }
}

// On both sides of the bounds from which transforms pay.
const LONG: [(usize, usize); 12] = [
    (128, 512),
    (129, 511),
    (129, 512),
    (130, 513),
    (255, 600),
    (256, 600),
    (257, 600),
    (600, 512),
    (1, 1024),
    (1024, 1),
    (2049, 2048),
    (700, 3000),
];

/// Long ones, by their products in a large field. No product of these has a domain over the small field, and over
/// that of 433 elements the last products alone have none.
pub fn long_ones<F: FftField>(alloc: Global) -> bool {
    let mut rng = Pcg64::new(19, 23);
    let mut right = true;
    for lens in LONG {
        right = right && gives_back::<F>(alloc, &mut rng, lens);
    }
    right
}
