//! Sum-checks.

use crate::batches::{Benchmark, Number};
use ark_base::{Field, PolyError};
use ark_extensions::ExtensionOf;
use ark_sum_check::{Addend, Challenger, Prover, SumCheckError, prove, prove_within};
use std::alloc::Global;

/// The number of variables of the tables.
pub const TABLE_VARIABLES: usize = 16;

/// All rounds of the product of two tables, copied before, of which the last challenge is the next left table's first
/// value.
#[derive(Drop)]
pub struct TwoFactors<F: Field> {
    pub left: Vec<F>,
    pub right: Vec<F>,
}

// Challenges that are the sums of the rounds' values.
#[derive(Drop)]
struct Sums;

impl<F: Field> Challenger<F> for Sums {
    fn challenge(&mut self, values: &[F]) -> F {
        let mut sum = F::zero();
        for value in values {
            sum += *value;
        }
        sum
    }
}

impl<F: Field + Number> Benchmark for TwoFactors<F> {
    fn call(&mut self, alloc: Global) -> Result<(), PolyError> {
        if self.left.len() != 1 << TABLE_VARIABLES || self.right.len() != 1 << TABLE_VARIABLES {
            return Ok(());
        }
        let mut tables = Vec::with_capacity(alloc, 2)?;
        tables.push(Vec::from_slice(alloc, &self.left)?)?;
        tables.push(Vec::from_slice(alloc, &self.right)?)?;
        let prover = Prover::new(TABLE_VARIABLES, tables);
        let proof = prove(alloc, prover, &mut Sums).map_err(|_| PolyError::Memory)?;
        if let (Some(first), Some(challenge)) = (self.left.first_mut(), proof.point.last()) {
            *first = *challenge;
        }
        Ok(())
    }

    fn checksum(&self) -> u64 {
        match self.left.first() {
            Some(first) => first.number(),
            None => 0,
        }
    }
}

/// All rounds of the product of two tables, copied before, over a field below that of the challenges, of which the last
/// one is kept.
#[derive(Drop)]
pub struct TwoFactorsBelow<F: Field, E: Field> {
    pub left: Vec<F>,
    pub right: Vec<F>,
    pub last: E,
}

impl<F: Field, E: ExtensionOf<F> + Number> Benchmark for TwoFactorsBelow<F, E> {
    fn call(&mut self, alloc: Global) -> Result<(), PolyError> {
        if self.left.len() != 1 << TABLE_VARIABLES || self.right.len() != 1 << TABLE_VARIABLES {
            return Ok(());
        }
        let mut tables = Vec::with_capacity(alloc, 2)?;
        tables.push(Vec::from_slice(alloc, &self.left)?)?;
        tables.push(Vec::from_slice(alloc, &self.right)?)?;
        let prover = Prover::new(TABLE_VARIABLES, tables);
        let proof = prove_within::<F, E, Sums>(alloc, &prover, &mut Sums).map_err(
            |_| PolyError::Memory,
        )?;
        if let Some(challenge) = proof.point.last() {
            self.last = *challenge;
        }
        Ok(())
    }

    fn checksum(&self) -> u64 {
        self.last.number()
    }
}

/// All rounds of eq * (a * b - c) for four tables, copied before, over a field below that of the challenges, of which
/// the last one is kept.
#[derive(Drop)]
pub struct RowsBelow<F: Field, E: Field> {
    pub tables: Vec<Vec<F>>,
    pub last: E,
}

impl<F: Field, E: ExtensionOf<F> + Number> Benchmark for RowsBelow<F, E> {
    fn call(&mut self, alloc: Global) -> Result<(), PolyError> {
        let mut tables = Vec::with_capacity(alloc, self.tables.len())?;
        for table in &self.tables {
            tables.push(Vec::from_slice(alloc, table)?)?;
        }
        if !tables
            .iter()
            .all(|table| table.len() == 1 << TABLE_VARIABLES)
        {
            return Ok(());
        }
        let addends = row_addends(alloc).map_err(|_| PolyError::Memory)?;
        let Some(prover) = Prover::of_sum(TABLE_VARIABLES, tables, addends) else {
            return Ok(());
        };
        let proof = prove_within::<F, E, Sums>(alloc, &prover, &mut Sums).map_err(
            |_| PolyError::Memory,
        )?;
        if let Some(challenge) = proof.point.last() {
            self.last = *challenge;
        }
        Ok(())
    }

    fn checksum(&self) -> u64 {
        self.last.number()
    }
}

// eq * a * b, and eq * c with a minus, by the indices of their tables.
fn row_addends<F: Field>(alloc: Global) -> Result<Vec<Addend<F>>, SumCheckError> {
    let mut addends = Vec::with_capacity(alloc, 2)?;
    addends.push(Addend {
        coefficient: F::one(),
        factors: vec![in alloc; 0, 1, 2]?,
    })?;
    addends.push(Addend {
        coefficient: -F::one(),
        factors: vec![in alloc; 0, 3]?,
    })?;
    Ok(addends)
}
