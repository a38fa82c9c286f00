//! Polynomials in several variables, and multilinear extensions.

use crate::batches::{Benchmark, Number};
use crate::draws::Draws;
use ark_base::{Field, PolyError, Polynomial};
use ark_extensions::ExtensionOf;
use ark_extensions::embedded::{evaluate_multilinear, is_table_len};
use ark_poly::multivariate::{SparsePolynomial, SparseTerm, Term};
use ark_poly::{DenseMVPolynomial, DenseMultilinearExtension, MultilinearExtension};
use std::alloc::{AllocError, Global};

/// The number of variables of the polynomial of terms.
pub const VARIABLES: usize = 5;

/// The value at a point of several items, of which it is the first one of the next point.
#[derive(Drop)]
pub struct ValueAtPoint<F: Field, P: Polynomial<F, Point = Vec<F>>> {
    pub polynomial: P,
    pub point: Vec<F>,
}

impl<F: Field + Number, P: Polynomial<F, Point = Vec<F>>> Benchmark for ValueAtPoint<F, P> {
    fn call(&mut self, alloc: Global) -> Result<(), PolyError> {
        if self.polynomial.point_fits(&self.point) {
            let value = self.polynomial.evaluate(alloc, &self.point)?;
            if let Some(first) = self.point.first_mut() {
                *first = value;
            }
        }
        Ok(())
    }

    fn checksum(&self) -> u64 {
        match self.point.first() {
            Some(first) => first.number(),
            None => 0,
        }
    }
}

/// The value at a point of a table over a field below that of the point, of which it is the first item of the next one.
#[derive(Drop)]
pub struct ValueOfBaseTable<F: Field, E: Field> {
    pub table: Vec<F>,
    pub point: Vec<E>,
}

impl<F: Field, E: ExtensionOf<F> + Number> Benchmark for ValueOfBaseTable<F, E> {
    fn call(&mut self, alloc: Global) -> Result<(), PolyError> {
        if is_table_len(self.table.len(), self.point.len()) {
            let value = evaluate_multilinear(alloc, &self.table, &self.point)?;
            if let Some(first) = self.point.first_mut() {
                *first = value;
            }
        }
        Ok(())
    }

    fn checksum(&self) -> u64 {
        match self.point.first() {
            Some(first) => first.number(),
            None => 0,
        }
    }
}

/// What is left of a table when its first variables are bound, of which the first value is the first item of the next
/// point.
#[derive(Drop)]
pub struct BoundTable<F: Field> {
    pub extension: DenseMultilinearExtension<F>,
    pub point: Vec<F>,
}

impl<F: Field + Number> Benchmark for BoundTable<F> {
    fn call(&mut self, alloc: Global) -> Result<(), PolyError> {
        if self.point.len() <= self.extension.num_vars() {
            let left = self.extension.fix_variables(alloc, &self.point)?;
            if let (Some(first), Some(value)) = (self.point.first_mut(), left.iter().next()) {
                *first = *value;
            }
        }
        Ok(())
    }

    fn checksum(&self) -> u64 {
        match self.point.first() {
            Some(first) => first.number(),
            None => 0,
        }
    }
}

// The digits of the number.
fn powers(alloc: Global, number: usize) -> Result<Vec<(usize, usize)>, AllocError> {
    let mut powers = Vec::new(alloc);
    let mut left = number;
    for variable in 0..VARIABLES {
        powers.push((variable, left % 10))?;
        left /= 10;
    }
    Ok(powers)
}

// Different ones, by multiples of a unit modulo 10 ^ 5.
fn terms<F: Field>(
    alloc: Global,
    draws: &mut Draws,
    count: usize,
) -> Result<Vec<(F, SparseTerm)>, PolyError> {
    let mut list = Vec::new(alloc);
    let mut number: usize = 0;
    for _ in 0..count {
        number = number.wrapping_add(92413) % 100000;
        let term = SparseTerm::new(alloc, powers(alloc, number)?)?;
        list.push((draws.element(), term))?;
    }
    Ok(list)
}

/// A polynomial of so many terms, with powers from 0 to 9; zero if a variable isn't below their number.
pub fn polynomial_of_terms<F: Field>(
    alloc: Global,
    draws: &mut Draws,
    count: usize,
) -> Result<SparsePolynomial<F, SparseTerm>, PolyError> {
    let terms = terms(alloc, draws, count)?;
    if !terms.iter().all(|term| term.1.is_within(VARIABLES)) {
        return SparsePolynomial::zero(alloc);
    }
    SparsePolynomial::from_coefficients_vec(alloc, VARIABLES, terms)
}
