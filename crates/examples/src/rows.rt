//! Rows of constraints, a * b = c, as tables, and what the program prints of them: the point at which a
//! commitment is opened, the same for prover and verifier; and a proof in bytes that four rows hold, with one
//! byte changed too.

use crate::row_bytes::{is_shown, proof_bytes};
use crate::row_sum_check::row_sum_check;
use crate::transcript::opening_points;
use ark_base::{Field, PolyError};
use ark_fields::Goldilocks;
use ark_poly::{DenseMultilinearExtension, Polynomial};
use ark_sum_check::{Addend, Prover, SumCheckError, Verdict, eq_table};
use std::alloc::{AllocError, Global};
use std::fmt::Display;
use std::io::Print;

/// Rows of constraints, by three tables of 2^num_vars values each.
#[derive(Drop)]
pub struct Rows<F> {
    /// The number of variables.
    pub num_vars: usize,
    /// The left factors.
    pub a: Vec<F>,
    /// The right ones.
    pub b: Vec<F>,
    /// What the products are to be.
    pub c: Vec<F>,
}

/// Prints what each gives.
pub fn print_rows(rt: &impl Print, alloc: Global) -> anyhow::Result<()> {
    print_point(rt, alloc, Goldilocks::from(7))?;
    let rows = four_rows::<Goldilocks>(alloc)?;
    print_whole(rt, alloc, &rows)?;
    print_bytes(rt, alloc, &rows)
}

fn print_point<F: Field + Display>(rt: &impl Print, alloc: Global, value: F) -> anyhow::Result<()> {
    let (sent, own) = opening_points(alloc, b"a commitment", value)?;
    println!(rt; "the point for prover and verifier: {sent}, {own}")?;
    Ok(())
}

// 1 * 5 = 5, 2 * 6 = 12, 3 * 7 = 21 and 4 * 8 = 32.
fn four_rows<F: Field>(alloc: Global) -> Result<Rows<F>, AllocError> {
    Ok(Rows {
        num_vars: 2,
        a: elements(alloc, &[1, 2, 3, 4])?,
        b: elements(alloc, &[5, 6, 7, 8])?,
        c: elements(alloc, &[5, 12, 21, 32])?,
    })
}

fn elements<F: Field>(alloc: Global, numbers: &[u64]) -> Result<Vec<F>, AllocError> {
    let mut elements = Vec::with_capacity(alloc, numbers.len())?;
    for number in numbers {
        elements.push(F::from(*number))?;
    }
    Ok(elements)
}

fn print_whole<F: Field + Display>(
    rt: &impl Print,
    alloc: Global,
    rows: &Rows<F>,
) -> anyhow::Result<()> {
    let point = elements::<F>(alloc, &[3, 5])?;
    let Some(prover) = prover_of_rows(alloc, rows, &point)? else {
        return Ok(());
    };
    let verdict = row_sum_check(alloc, prover, b"a commitment")?;
    print_verdict(rt, "four rows", &verdict)
}

fn print_verdict<F: Display>(
    rt: &impl Print,
    what: &str,
    verdict: &Verdict<F>,
) -> anyhow::Result<()> {
    match verdict {
        Verdict::Reduced(value, _) => println!(rt; "{what}: reduced to {value}")?,
        Verdict::Refused(round) => println!(rt; "{what}: round {round} is refused")?,
        Verdict::WrongCount => println!(rt; "{what}: another number of rounds")?,
    }
    Ok(())
}

fn print_bytes<F: Field>(rt: &impl Print, alloc: Global, rows: &Rows<F>) -> anyhow::Result<()> {
    let Some(mut bytes) = proof_bytes(alloc, rows)? else {
        return Ok(());
    };
    let shown = is_shown(alloc, rows, &bytes)?;
    println!(rt; "four rows by bytes: {shown}")?;
    if let Some(byte) = bytes.get_mut(16) {
        *byte ^= 1;
    }
    let shown = is_shown(alloc, rows, &bytes)?;
    println!(rt; "with one byte changed: {shown}")?;
    Ok(())
}

/// The prover of the sum of eq * (a * b - c), with eq at a point.
pub fn prover_of_rows<F: Field>(
    alloc: Global,
    rows: &Rows<F>,
    point: &[F],
) -> Result<Option<Prover<F>>, SumCheckError> {
    if point.len() >= 64 {
        return Ok(None);
    }
    let mut tables = Vec::with_capacity(alloc, 4)?;
    tables.push(eq_table(alloc, point)?)?;
    tables.push(Vec::from_slice(alloc, &rows.a)?)?;
    tables.push(Vec::from_slice(alloc, &rows.b)?)?;
    tables.push(Vec::from_slice(alloc, &rows.c)?)?;
    Ok(prover_of(rows.num_vars, tables, row_addends(alloc)?))
}

// The prover, where each table has a value at each corner.
fn prover_of<F: Field>(
    num_vars: usize,
    tables: Vec<Vec<F>>,
    addends: Vec<Addend<F>>,
) -> Option<Prover<F>> {
    if num_vars >= 64 {
        return None;
    }
    let len = 1 << num_vars;
    if !tables.iter().all(|table| table.len() == len) {
        return None;
    }
    Prover::of_sum(num_vars, tables, addends)
}

// eq * a * b, and eq * c with a minus, by the indices of their tables.
fn row_addends<F: Field>(alloc: Global) -> Result<Vec<Addend<F>>, SumCheckError> {
    let mut addends = Vec::with_capacity(alloc, 2)?;
    addends.push(Addend {
        coefficient: F::one(),
        factors: vec![in alloc; 0, 1, 2]?,
    })?;
    addends.push(Addend {
        coefficient: -F::one(),
        factors: vec![in alloc; 0, 3]?,
    })?;
    Ok(addends)
}

/// The value of eq * (a * b - c) at a point, from the tables, with eq at another.
pub fn value_of_rows<F: Field>(
    alloc: Global,
    rows: &Rows<F>,
    eq_point: &[F],
    point: &Vec<F>,
) -> anyhow::Result<Option<F>> {
    if eq_point.len() >= 64 {
        return Ok(None);
    }
    let eq = eq_table(alloc, eq_point)?;
    let values = (
        value_at(alloc, &eq, point)?,
        value_at(alloc, &rows.a, point)?,
        value_at(alloc, &rows.b, point)?,
        value_at(alloc, &rows.c, point)?,
    );
    match values {
        (Some(eq), Some(a), Some(b), Some(c)) => Ok(Some(eq * (a * b - c))),
        _ => Ok(None),
    }
}

// The value at a point of a table's multilinear extension, where the table has a value at each corner.
fn value_at<F: Field>(alloc: Global, table: &[F], point: &Vec<F>) -> Result<Option<F>, PolyError> {
    let num_vars = point.len();
    if num_vars >= 64 || table.len() != 1 << num_vars {
        return Ok(None);
    }
    let extension = DenseMultilinearExtension::from_evaluations_slice(alloc, num_vars, table)?;
    Ok(Some(extension.evaluate(alloc, point)?))
}
