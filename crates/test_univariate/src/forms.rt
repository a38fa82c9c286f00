//! Both forms of polynomials behind one trait, drawn by their degree, and what calls answer.

use ark_base::Field;
use ark_univariate::univariate::{DensePolynomial, SparsePolynomial};
use ark_univariate::{DenseUVPolynomial, Polynomial};
use rand_core::Rng;
use rand_pcg::Pcg64;
use std::alloc::{AllocError, Global};
use test_types::trials::drawn_elements;

// How often the last coefficient may be drawn.
const TRIES: usize = 1000;

/// A form of polynomials.
pub trait Form<F: Field>: Polynomial<F, Point = F> {
    /// One of this degree.
    fn drawn(alloc: Global, rng: &mut Pcg64, degree: usize) -> Option<Self>;

    /// The sum of its terms at the point, power by power.
    fn term_by_term(&self, point: F) -> F;
}

impl<F: Field> Form<F> for DensePolynomial<F> {
    fn drawn(alloc: Global, rng: &mut Pcg64, degree: usize) -> Option<Self> {
        DensePolynomial::rand(alloc, degree, rng, TRIES).ok()?
    }

    fn term_by_term(&self, point: F) -> F {
        let mut sum = F::zero();
        for (degree, coefficient) in self.coeffs().iter().enumerate() {
            sum = sum + *coefficient * point.pow(degree as u64);
        }
        sum
    }
}

/// Of the coefficients below the last one about one in five isn't zero.
impl<F: Field> Form<F> for SparsePolynomial<F> {
    fn drawn(alloc: Global, rng: &mut Pcg64, degree: usize) -> Option<Self> {
        let terms = drawn_terms(alloc, rng, degree).ok()?;
        SparsePolynomial::from_coefficients_vec(alloc, terms).ok()
    }

    fn term_by_term(&self, point: F) -> F {
        let mut sum = F::zero();
        for (degree, coefficient) in self.coeffs() {
            sum = sum + *coefficient * point.pow(*degree as u64);
        }
        sum
    }
}

fn drawn_terms<F: Field>(
    alloc: Global,
    rng: &mut Pcg64,
    degree: usize,
) -> Result<Vec<(usize, F)>, AllocError> {
    let mut terms = Vec::new(alloc);
    let last = F::rand(rng);
    terms.push((degree, if last.is_zero() { F::one() } else { last }))?;
    for power in 0..degree {
        let coefficient = F::rand(rng);
        if rng.next_u64() % 5 == 0 {
            terms.push((power, coefficient))?;
        }
    }
    Ok(terms)
}

/// Whether the call gave this value.
pub fn gave<T: PartialEq + Drop, E: Drop>(answer: Result<T, E>, value: &T) -> bool {
    match answer {
        Ok(given) => given == *value,
        Err(_) => false,
    }
}

/// A dense polynomial with at most so many coefficients.
pub fn some<F: Field>(alloc: Global, rng: &mut Pcg64, len: usize) -> Option<DensePolynomial<F>> {
    let coeffs = drawn_elements(alloc, rng, len).ok()?;
    Some(DensePolynomial::from_coefficients_vec(coeffs))
}
