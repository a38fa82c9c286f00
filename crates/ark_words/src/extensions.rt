//! Multilinear extensions of tables.

ghost use Rattle.std.specs.Prelude.{◌≡◌, ◌↔◌, ◌<◌, ◌^◌, All, IfOk, OnOk, OnErr, IfErr, IsTrue, length, zip};
ghost use Rattle.ark_math_variables.specs.Multilinear.{extension, written};
ghost use Rattle.ark_words.specs.Extensions.{FitExtended, IsExtended, AreLeft, FitFixed, AreFixed};
ghost use Rattle.ark_words.specs.Extensions.{FitSparse, IsExtendedByEntries};
ghost use Rattle.ark_words.specs.Faults.{IsPlain};
ghost use Rattle.ark_words.specs.Numbers.{BothReduced};

use crate::element::WordElement;
use crate::error::WordsError;
use crate::lists::{both, put};
use ark_tables::tables::{fixed_table, value_of_table};
use ark_tables::windows::{bind_variables, value_at, written_entries};
use ark_traits::{Field, PolyError, log2};
use std::alloc::{AllocError, Global};

/// Writes the value at a point of `m` numbers of the only multilinear polynomial in `m` variables with these
/// `2^m` values at the corners: place `i` of the table has the value at the corner whose variable `j` is bit
/// `j` of `i`. The value is one number. It takes memory for the elements, and for half the table.
///
/// The errors are judged in this order: `Length` where table or point aren't whole elements, the table hasn't
/// `2^m` of them, or the value's words aren't one; `NotReduced` where a number isn't below the modulus;
/// `Memory` where none of these holds.
pub fn multilinear_evaluate<F: WordElement>(
    alloc: Global,
    table: &[u64],
    point: &[u64],
    value: &mut [u64],
) -> Result<(), WordsError>
    ensures value { OnOk result (IsExtended F.spelled table.now point.now value.new) }
    ensures kept { OnErr result (value.new ≡ value.old) }
    ensures taken { OnOk result (FitExtended F.spelled table.now point.now value.old
        × BothReduced F.spelled table.now point.now) }
    ensures length { (result ≡ Err WordsError.Length)
        ↔ (¬ FitExtended F.spelled table.now point.now value.old) }
    ensures not_reduced { (result ≡ Err WordsError.NotReduced)
        ↔ (FitExtended F.spelled table.now point.now value.old
        × (¬ BothReduced F.spelled table.now point.now)) }
    ensures no_other { IfErr result IsPlain }
{
    let width = F::WIDTH;
    if table.len() % width != 0
        || point.len() % width != 0
        || value.len() != width
        || !are_corners(table.len() / width, point.len() / width)
    {
        return Err(WordsError::Length);
    }
    let (table, point) = both::<F>(alloc, table, point)?;
    let Ok(found) = value_of_table(alloc, &table, &point) else {
        return Err(WordsError::Memory);
    };
    found.write_words(value);
    Ok(())
}

/// Writes the value at a point of `m` numbers, `m` at most 63, of the multilinear polynomial of which some
/// values at the corners are given, and all others are zero: value `i` is the one at the corner whose place
/// in the table is index `i`. The indices stand in any order; where one comes again, the last value counts.
/// The value that is written is one number. It takes memory for the elements, and what `written_entries` and
/// `bind_variables` of `ark_tables` take.
///
/// The errors are judged in this order: `Length` where values or point aren't whole elements, the written
/// value's words aren't one, there aren't as many indices as values, `m` is above 63, or an index isn't below
/// `2^m`; `NotReduced` where a number of values or point isn't below the modulus; `Memory` where none of
/// these holds.
pub fn multilinear_evaluate_sparse<F: WordElement>(
    alloc: Global,
    indices: &[u64],
    values: &[u64],
    point: &[u64],
    value: &mut [u64],
) -> Result<(), WordsError>
    ensures value { OnOk result (IsExtendedByEntries F.spelled indices.now values.now point.now value.new) }
    ensures kept { OnErr result (value.new ≡ value.old) }
    ensures taken { OnOk result (FitSparse F.spelled indices.now values.now point.now value.old
        × BothReduced F.spelled values.now point.now) }
    ensures length { (result ≡ Err WordsError.Length)
        ↔ (¬ FitSparse F.spelled indices.now values.now point.now value.old) }
    ensures not_reduced { (result ≡ Err WordsError.NotReduced)
        ↔ (FitSparse F.spelled indices.now values.now point.now value.old
        × (¬ BothReduced F.spelled values.now point.now)) }
    ensures no_other { IfErr result IsPlain }
{
    let width = F::WIDTH;
    if values.len() % width != 0
        || point.len() % width != 0
        || value.len() != width
        || indices.len() != values.len() / width
        || !are_indices(indices, point.len() / width)
    {
        return Err(WordsError::Length);
    }
    let (values, point) = both::<F>(alloc, values, point)?;
    let Ok(found) = value_of_entries(alloc, indices, &values, &point) else {
        return Err(WordsError::Memory);
    };
    found.write_words(value);
    Ok(())
}

/// Binds the first variables to the `k` numbers of the point, and writes the table of the polynomial in the
/// other variables, of which the first is then variable 0: of a table of `2^m` numbers, as `multilinear_evaluate`
/// takes it, one of `2^(m - k)`. It takes memory for the elements of all three, and for half the table.
///
/// The errors are judged in this order: `Length` where a list isn't whole elements, the table hasn't `2^m` of
/// them for an `m` at or above `k`, or the result hasn't `2^(m - k)`; `NotReduced` where a number of table or
/// point isn't below the modulus; `Memory` where none of these holds.
pub fn multilinear_fix<F: WordElement>(
    alloc: Global,
    table: &[u64],
    point: &[u64],
    fixed: &mut [u64],
) -> Result<(), WordsError>
    ensures table { OnOk result (AreFixed F.spelled table.now point.now fixed.new) }
    ensures kept { OnErr result (fixed.new ≡ fixed.old) }
    ensures taken { OnOk result (FitFixed F.spelled table.now point.now fixed.old
        × BothReduced F.spelled table.now point.now) }
    ensures length { (result ≡ Err WordsError.Length)
        ↔ (¬ FitFixed F.spelled table.now point.now fixed.old) }
    ensures not_reduced { (result ≡ Err WordsError.NotReduced)
        ↔ (FitFixed F.spelled table.now point.now fixed.old
        × (¬ BothReduced F.spelled table.now point.now)) }
    ensures no_other { IfErr result IsPlain }
{
    let width = F::WIDTH;
    if table.len() % width != 0
        || point.len() % width != 0
        || fixed.len() % width != 0
        || !are_left(
            table.len() / width,
            point.len() / width,
            fixed.len() / width,
        )
    {
        return Err(WordsError::Length);
    }
    let (table, point) = both::<F>(alloc, table, point)?;
    let Ok(left) = fixed_table(alloc, &table, &point) else {
        return Err(WordsError::Memory);
    };
    put(fixed, &left);
    Ok(())
}

// The value at a point of the extension of a table with these values at these indices, and zeros elsewhere.
fn value_of_entries<F: Field>(
    alloc: Global,
    indices: &[u64],
    values: &[F],
    point: &[F],
) -> Result<F, PolyError>
    requires many { length values.now ≡ length indices.now }
    requires few { length point.now < 64 }
    ensures { IfOk result (λ found. found
        ≡ extension F.field (written F.field.zero (zip indices.now values.now)) point.now) }
{
    let entries = written_entries(alloc, &entries_of(alloc, indices, values)?)?;
    let left = bind_variables(alloc, &entries, point)?;
    Ok(*value_at(&left, 0, &F::zero()))
}

// Each index with its value.
fn entries_of<F: Copy>(
    alloc: Global,
    indices: &[u64],
    values: &[F],
) -> Result<Vec<(usize, F)>, AllocError>
    requires { length values.now ≡ length indices.now }
    ensures { IfOk result (λ entries. entries.items ≡ zip indices.now values.now) }
{
    let mut entries = Vec::with_capacity(alloc, indices.len())?;
    for i in 0..indices.len() {
        entries.push((indices[i] as usize, values[i]))?;
    }
    Ok(entries)
}

// Whether these are indices of a table with so many variables, which are at most 63.
fn are_indices(indices: &[u64], variables: usize) -> bool
    ensures { IsTrue result ↔ ((variables < 64) × All (λ i. i < 2 ^ variables) indices.now) }
{
    variables < 64 && indices.iter().all(|index| *index < 1 << variables)
}

// Whether so many are the corners of a cube with so many variables.
fn are_corners(count: usize, variables: usize) -> bool
    ensures { IsTrue result ↔ (count ≡ 2 ^ variables) }
{
    if variables >= 64 {
        return false;
    }
    count == 1 << variables
}

// Whether so many corners are left of those of a cube, where so many variables are bound.
fn are_left(corners: usize, bound: usize, left: usize) -> bool
    ensures { IsTrue result ↔ AreLeft corners bound left }
{
    let variables = log2(corners) as usize;
    if variables < bound {
        return false;
    }
    if !are_corners(corners, variables) {
        return false;
    }
    are_corners(left, variables - bound)
}
