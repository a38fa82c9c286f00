//! A round of any sum of products: one pass over the corners, along the line on which each table's value
//! lies.

ghost use Rattle.std.specs.Prelude.{◌≡◌, ℕ, ◌+◌, ◌*◌, ◌^◌, ◌<◌, ◌≤◌, [], All, length};
ghost use Rattle.std.specs.Prelude.{IfOk, IsOkUnless};
ghost use Rattle.ark_math.specs.Field.{minus, natural};
ghost use Rattle.ark_math.specs.Univariate.{of_list};
ghost use Rattle.ark_sum_check.specs.Cube.{combined, longest, sum_with};
ghost use Rattle.ark_sum_check.specs.Lists.{FitTables, as_sum, as_tables};
ghost use Rattle.ark_sum_check.specs.Provers.{addends_of};
ghost use Rattle.ark_sum_check.specs.Rounds.{IsTrueRound};

use crate::addend::{Addend, most_factors, product_of_all, sum_of_addends};
use crate::error::SumCheckError;
use ark_coeffs::dense::{add_each, zeros};
use ark_traits::Field;
use std::alloc::Global;

// The round of a sum of products of tables, with 2^m corners left after it.
pub(crate) fn round_of_sum<F: Field>(
    alloc: Global,
    tables: &[Vec<F>],
    addends: &Option<Vec<Addend<F>>>,
    degree: usize,
    half: usize,
) -> Result<Vec<F>, SumCheckError>
    requires few { half ≤ 2 ^ 62 }
    requires degree { degree < 2 ^ 63 }
    requires whole { All (λ t. length t.items ≡ 2 * half) tables.now }
    requires within { FitTables (length tables.now) addends.now }
    ensures truth { (m : ℕ) → half ≡ 2 ^ m → IfOk result (λ values. IsTrueRound F.field degree m
        (sum_with F.field (as_tables F.field tables.now)
        (addends_of F.field (length tables.now) (as_sum addends.now))) values.items) }
    ensures memory { IsOkUnless result SumCheckError.Memory }
{
    let mut values = zeros(alloc, tables.len())?;
    let mut steps = zeros(alloc, tables.len())?;
    let mut sums = zeros(alloc, degree + 1)?;
    for corner in 0..half {
        take_corner(tables, corner, values.as_mut_slice(), steps.as_mut_slice());
        add_along(addends, values.as_mut_slice(), &steps, sums.as_mut_slice());
    }
    Ok(sums)
}

// How many factors the longest addend of so many tables has.
pub(crate) fn degree_of_sum<F: Field>(addends: &Option<Vec<Addend<F>>>, count: usize) -> usize
    requires { count < 2 ^ 63 }
    ensures degree { result ≡ longest (addends_of F.field count (as_sum addends.now)) }
    ensures few { result < 2 ^ 63 }
{
    match addends {
        Some(addends) => most_factors(addends),
        None => count,
    }
}

// The sum of products, where the values stand for the tables.
pub(crate) fn sum_of_products<F: Field>(addends: &Option<Vec<Addend<F>>>, values: &[F]) -> F
    requires { FitTables (length values.now) addends.now }
    ensures { result ≡ combined F.field (addends_of F.field (length values.now) (as_sum addends.now))
        (of_list F.field values.now) }
{
    match addends {
        Some(addends) => sum_of_addends(addends, values),
        None => product_of_all(values),
    }
}

// The tables' values at a corner where the first variable is zero, and how much more they are where it is
// one.
fn take_corner<F: Field>(tables: &[Vec<F>], corner: usize, values: &mut [F], steps: &mut [F])
    requires few { corner < 2 ^ 62 }
    requires within { All (λ t. 2 * corner + 1 < length t.items) tables.now }
    requires values { length values.old ≡ length tables.now }
    requires steps { length steps.old ≡ length tables.now }
    ensures values { (i : ℕ) → of_list F.field values.new i
        ≡ (sum_with F.field (as_tables F.field tables.now) []).tables i (2 * corner) }
    ensures steps { (i : ℕ) → of_list F.field steps.new i
        ≡ minus F.field ((sum_with F.field (as_tables F.field tables.now) []).tables i (2 * corner + 1))
        ((sum_with F.field (as_tables F.field tables.now) []).tables i (2 * corner)) }
{
    for i in 0..tables.len() {
        let (low, step) = line_at(&tables[i], corner);
        values[i] = low;
        steps[i] = step;
    }
}

// A table's value at a corner where the first variable is zero, and how much more it is where it is one.
fn line_at<F: Field>(table: &[F], corner: usize) -> (F, F)
    requires few { corner < 2 ^ 62 }
    requires within { 2 * corner + 1 < length table.now }
    ensures low { result.0 ≡ of_list F.field table.now (2 * corner) }
    ensures step { result.1 ≡ minus F.field (of_list F.field table.now (2 * corner + 1))
        (of_list F.field table.now (2 * corner)) }
{
    let low = table[2 * corner];
    (low, table[2 * corner + 1] - low)
}

// Adds to item i of the sums, for each i, the sum of products after i steps.
fn add_along<F: Field>(
    addends: &Option<Vec<Addend<F>>>,
    values: &mut [F],
    steps: &[F],
    sums: &mut [F],
)
    requires within { FitTables (length values.old) addends.now }
    requires steps { length steps.now ≡ length values.old }
    ensures sums { (i : ℕ) → i < length sums.old → of_list F.field sums.new i
        ≡ F.field.plus (of_list F.field sums.old i)
        (combined F.field (addends_of F.field (length values.old) (as_sum addends.now))
        (λ k. F.field.plus (of_list F.field values.old k)
        (F.field.times (natural F.field i) (of_list F.field steps.now k)))) }
{
    for i in 0..sums.len() {
        let value = sum_of_products(addends, values);
        sums[i] += value;
        add_each(values, steps);
    }
}
