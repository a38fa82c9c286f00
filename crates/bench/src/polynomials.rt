//! Dense and sparse polynomials, and values over a domain.

use crate::batches::{Benchmark, Counted, Number, mixed};
use ark_base::{FftField, Field, PolyError};
use ark_poly::univariate::{DenseOrSparsePolynomial, DensePolynomial, SparsePolynomial};
use ark_poly::{DenseUVPolynomial, EvaluationDomain, Evaluations, Polynomial};
use std::alloc::Global;

/// The value at a point, which is the next point.
#[derive(Drop)]
pub struct Value<F: FftField> {
    pub polynomial: DensePolynomial<F>,
    pub point: F,
}

impl<F: Counted> Benchmark for Value<F> {
    fn call(&mut self, alloc: Global) -> Result<(), PolyError> {
        self.point = self.polynomial.evaluate(alloc, &self.point)?;
        Ok(())
    }

    fn checksum(&self) -> u64 {
        self.point.number()
    }
}

/// What is made of two polynomials.
#[derive(Clone, Copy)]
pub enum Way {
    /// The product, through a domain.
    Transforms,
    /// The remainder, through transforms.
    Remainder,
}

/// What is made of two dense polynomials.
#[derive(Drop)]
pub struct OfTwo<F: FftField> {
    pub way: Way,
    pub left: DensePolynomial<F>,
    pub right: DensePolynomial<F>,
    pub answer: DensePolynomial<F>,
}

impl<F: Counted> Benchmark for OfTwo<F> {
    fn call(&mut self, alloc: Global) -> Result<(), PolyError> {
        match self.way {
            Way::Transforms => self.answer = self.left.mul(alloc, &self.right)?,
            Way::Remainder => {
                if let Some((_, remainder)) = self.left.divide_by_transforms(alloc, &self.right)? {
                    self.answer = remainder;
                }
            }
        }
        Ok(())
    }

    fn checksum(&self) -> u64 {
        mixed(self.answer.coeffs())
    }
}

/// The product of two dense polynomials by all products of two coefficients.
#[derive(Drop)]
pub struct NaiveProduct<F: Field> {
    pub left: DensePolynomial<F>,
    pub right: DensePolynomial<F>,
    pub product: DensePolynomial<F>,
}

impl<F: Field + Number> Benchmark for NaiveProduct<F> {
    fn call(&mut self, alloc: Global) -> Result<(), PolyError> {
        self.product = self.left.naive_mul(alloc, &self.right)?;
        Ok(())
    }

    fn checksum(&self) -> u64 {
        mixed(self.product.coeffs())
    }
}

/// The product of two sparse polynomials.
#[derive(Drop)]
pub struct SparseProduct<F: Field> {
    pub left: SparsePolynomial<F>,
    pub right: SparsePolynomial<F>,
    pub product: SparsePolynomial<F>,
}

impl<F: Field + Number> Benchmark for SparseProduct<F> {
    fn call(&mut self, alloc: Global) -> Result<(), PolyError> {
        self.product = self.left.mul(alloc, &self.right)?;
        Ok(())
    }

    fn checksum(&self) -> u64 {
        let mut sum: u64 = 0;
        for (degree, coefficient) in self.product.coeffs() {
            sum = sum.wrapping_mul(31).wrapping_add(*degree as u64);
            sum = sum.wrapping_mul(31).wrapping_add(coefficient.number());
        }
        sum
    }
}

/// Quotient and remainder by passes over the divisor, in either form.
#[derive(Drop)]
pub struct LongDivision<'a, F: Field> {
    pub dividend: DenseOrSparsePolynomial<'a, F>,
    pub divisor: DenseOrSparsePolynomial<'a, F>,
    pub remainder: DensePolynomial<F>,
}

impl<'a, F: Field + Number> Benchmark for LongDivision<'a, F> {
    fn call(&mut self, alloc: Global) -> Result<(), PolyError> {
        if let Some((_, remainder)) = self.dividend.divide_with_q_and_r(alloc, &self.divisor)? {
            self.remainder = remainder;
        }
        Ok(())
    }

    fn checksum(&self) -> u64 {
        mixed(self.remainder.coeffs())
    }
}

/// The polynomial with given values over a domain.
#[derive(Drop)]
pub struct Interpolation<F: FftField, D: EvaluationDomain<F>> {
    pub values: Evaluations<F, D>,
    pub polynomial: DensePolynomial<F>,
}

impl<F: Counted, D: EvaluationDomain<F>> Benchmark for Interpolation<F, D> {
    fn call(&mut self, alloc: Global) -> Result<(), PolyError> {
        self.polynomial = self.values.interpolate_by_ref(alloc)?;
        Ok(())
    }

    fn checksum(&self) -> u64 {
        mixed(self.polynomial.coeffs())
    }
}

/// The quotients of the last ones by the divisors, place by place.
#[derive(Drop)]
pub struct Quotients<F: FftField, D: EvaluationDomain<F>> {
    pub quotients: Evaluations<F, D>,
    pub divisors: Evaluations<F, D>,
}

impl<F: Counted, D: EvaluationDomain<F>> Benchmark for Quotients<F, D> {
    fn call(&mut self, alloc: Global) -> Result<(), PolyError> {
        // Never so, and quick to see: values over two domains have no quotients.
        if self.quotients.domain() != self.divisors.domain() {
            return Err(PolyError::NoDomain);
        }
        self.quotients = self.quotients.div(alloc, &self.divisors)?;
        Ok(())
    }

    fn checksum(&self) -> u64 {
        mixed(self.quotients.evals())
    }
}
