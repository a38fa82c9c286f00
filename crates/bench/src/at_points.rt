//! Polynomials at many points of a caller's own, and shares of secrets.

use crate::batches::{Benchmark, Counted, Number, Reporter, mixed};
use crate::draws::Draws;
use ark_base::{Field, PolyError, Polynomial};
use ark_points::{evaluate_at, from_points};
use ark_poly::univariate::DensePolynomial;
use ark_sharing::share;
use rand::SeedableRng;
use rand::rngs::StdRng;
use std::alloc::Global;
use std::io::Print;
use std::time::Clock;

/// The values of a polynomial at points, of which the last one is the next first point.
#[derive(Drop)]
pub struct ValuesAtPoints<F: Field> {
    pub polynomial: DensePolynomial<F>,
    pub points: Vec<F>,
}

impl<F: Counted> Benchmark for ValuesAtPoints<F> {
    fn call(&mut self, alloc: Global) -> Result<(), PolyError> {
        let values = evaluate_at(alloc, &self.polynomial, &self.points)?;
        if let (Some(first), Some(value)) = (self.points.first_mut(), values.last()) {
            *first = *value;
        }
        Ok(())
    }

    fn checksum(&self) -> u64 {
        mixed(self.points.as_slice())
    }
}

/// The polynomial through points, whose degree is the next value at the first of them.
#[derive(Drop)]
pub struct ThroughPoints<F: Field> {
    pub points: Vec<(F, F)>,
}

impl<F: Counted> Benchmark for ThroughPoints<F> {
    fn call(&mut self, alloc: Global) -> Result<(), PolyError> {
        // No two of the points are one.
        let polynomial = from_points(alloc, &self.points).map_err(|_| PolyError::Memory)?;
        if let Some(first) = self.points.first_mut() {
            first.1 = F::from(polynomial.degree() as u64);
        }
        Ok(())
    }

    fn checksum(&self) -> u64 {
        match self.points.first() {
            Some(first) => first.1.number(),
            None => 0,
        }
    }
}

// How many secrets are shared in a call.
const SECRETS: u64 = 10_000;

// How many shares give a secret back.
const THRESHOLD: usize = 3;

/// Secrets, each in a share for each point, and the sum of the last shares.
#[derive(Drop)]
pub struct Shares<F: Field> {
    pub points: Vec<F>,
    pub rng: StdRng,
    pub sum: F,
}

impl<F: Field + Number> Benchmark for Shares<F> {
    fn call(&mut self, alloc: Global) -> Result<(), PolyError> {
        for secret in 0..SECRETS {
            // There are enough points, all different and none of them zero.
            let shares = share(
                alloc,
                F::from(secret),
                THRESHOLD,
                &self.points,
                &mut self.rng,
            )
            .map_err(|_| PolyError::Memory)?;
            if let Some(last) = shares.last() {
                self.sum += last.1;
            }
        }
        Ok(())
    }

    fn checksum(&self) -> u64 {
        self.sum.number()
    }
}

/// Values at as many points as a polynomial has coefficients, and the polynomial through as many, under these names.
pub fn report_at_points<F: Counted, R: Print + Clock>(
    reporter: &Reporter<'_, R>,
    names: [&'static str; 2],
) -> anyhow::Result<()> {
    let alloc = reporter.alloc;
    let [at, through] = names;
    let mut draws = Draws::new();
    let len = 1 << 12;
    let mut values = ValuesAtPoints::<F> {
        polynomial: draws.dense(alloc, len)?,
        points: draws.list(alloc, len)?,
    };
    reporter.report(at, len, &mut values)?;
    let mut points = Vec::with_capacity(alloc, len)?;
    for i in 0..len {
        points.push((F::from(i as u64), draws.element()))?;
    }
    let mut polynomial = ThroughPoints::<F> { points };
    reporter.report(through, len, &mut polynomial)
}

/// Shares of secrets at five points.
pub fn report_shares<F: Counted, R: Print + Clock>(
    reporter: &Reporter<'_, R>,
) -> anyhow::Result<()> {
    let mut points = Vec::new(reporter.alloc);
    for i in 1..=5 {
        points.push(F::from(i))?;
    }
    let mut shares = Shares::<F> {
        points,
        rng: StdRng::seed_from_u64(2),
        sum: F::zero(),
    };
    let name = "share_3_of_5";
    reporter.report(name, SECRETS as usize, &mut shares)
}
