//! Tables by their entries, which are pairs of index and value: what is left when the first variables are
//! bound, a few at a time.

ghost use Rattle.std.specs.Prelude.{◌≡◌, ◌⊎◌, ◌↔◌, ℕ, ◌+◌, ◌*◌, ◌<◌, ◌≤◌, ◌^◌, List, length, map};
ghost use Rattle.std.specs.Prelude.{All, IfOk, OnOk, IsOkUnless, IsTrue};
ghost use Rattle.ark_math.specs.Field.{minus};
ghost use Rattle.ark_math_variables.specs.Multilinear.{AreWindows, exchanged, extension, fixed, weight, written};
ghost use Rattle.ark_math.specs.Univariate.{IsSparse, of_list, of_pairs, added, monomial};
ghost use Rattle.ark_tables.specs.Exchanged.{exchanged_index};
ghost use Rattle.ark_tables.specs.Entries.{AreEntries};
ghost use Rattle.ark_tables.specs.Held.{held};

use crate::tables::{Exchange, exchanged_bits};
use ark_coeffs::dense::zeros;
use ark_coeffs::sparse::{gathered_terms, is_sparse};
use ark_traits::{Field, PolyError, log2};
use std::alloc::Global;
use std::collections::HashMap;

// Doubles weights for one item more: each less its product with the item, then these products.
fn double_weights<F: Field>(weights: &mut Vec<F>, item: F) -> Result<(), PolyError>
    ensures length { OnOk result (length weights.new.items ≡ 2 * length weights.old.items) }
    ensures low { OnOk result ((b : ℕ) → b < length weights.old.items → of_list F.field weights.new.items b
        ≡ minus F.field (of_list F.field weights.old.items b)
        (F.field.times (of_list F.field weights.old.items b) item)) }
    ensures high { OnOk result ((b : ℕ) → b < length weights.old.items
        → of_list F.field weights.new.items (length weights.old.items + b)
        ≡ F.field.times (of_list F.field weights.old.items b) item) }
    ensures memory { IsOkUnless result PolyError.Memory }
{
    for i in 0..weights.len() {
        let high = weights[i] * item;
        weights[i] -= high;
        weights.push(high)?;
    }
    Ok(())
}

/// How much the value at each corner counts at a point, which is the Kronecker product of `1 - x` and `x` for
/// each item `x`: one product for each corner but the first.
pub fn weights<F: Field>(alloc: Global, point: &[F]) -> Result<Vec<F>, PolyError>
    requires { length point.now < 64 }
    ensures length { IfOk result (λ w. length w.items ≡ 2 ^ length point.now) }
    ensures values { IfOk result (λ w. (b : ℕ) → b < 2 ^ length point.now
        → of_list F.field w.items b ≡ weight F.field point.now b) }
    ensures memory { IsOkUnless result PolyError.Memory }
{
    let mut weights = Vec::with_capacity(alloc, 1 << point.len())?;
    weights.push(F::one())?;
    for i in 0..point.len() {
        double_weights(&mut weights, point[i])?;
    }
    Ok(weights)
}

// Adds to the value at an index.
fn add_at<F: Field>(table: &mut HashMap<usize, F>, index: usize, value: F) -> Result<(), PolyError>
    ensures sum { OnOk result (held F.field table.new
        ≡ added F.field (held F.field table.old) (monomial F.field index value)) }
    ensures memory { IsOkUnless result PolyError.Memory }
{
    *table.entry(index)?.or_insert(F::zero()) += value;
    Ok(())
}

// The entries of a map that aren't zero, by rising indices.
fn sorted_entries<F: Field>(
    alloc: Global,
    table: HashMap<usize, F>,
) -> Result<Vec<(usize, F)>, PolyError>
    ensures sparse { IfOk result (λ e. IsSparse F.field e.items) }
    ensures values { IfOk result (λ e. of_pairs F.field e.items ≡ held F.field table) }
    ensures memory { IsOkUnless result PolyError.Memory }
{
    let mut entries = Vec::with_capacity(alloc, table.len())?;
    for entry in table {
        entries.push(entry)?;
    }
    gathered_terms(alloc, entries)
}

/// What is left when as many variables as the point has items are bound at once: by rising indices, without
/// zeros.
pub fn bind_window<F: Field>(
    alloc: Global,
    entries: &[(usize, F)],
    point: &[F],
) -> Result<Vec<(usize, F)>, PolyError>
    requires { length point.now < 64 }
    ensures sparse { IfOk result (λ e. IsSparse F.field e.items) }
    ensures values { IfOk result (λ e. of_pairs F.field e.items
        ≡ fixed F.field (of_pairs F.field entries.now) point.now) }
    ensures memory { IsOkUnless result PolyError.Memory }
{
    let weights = weights(alloc, point)?;
    let corners = 1 << point.len();
    let mut table = HashMap::with_capacity(alloc, entries.len())?;
    let mut index = 0;
    let mut sum = F::zero();
    for i in 0..entries.len() {
        let entry = entries[i];
        // Neighbours often share an index: their sum is looked up once.
        if entry.0 / corners != index {
            add_at(&mut table, index, sum)?;
            index = entry.0 / corners;
            sum = F::zero();
        }
        sum += entry.1 * weights[entry.0 % corners];
    }
    add_at(&mut table, index, sum)?;
    sorted_entries(alloc, table)
}

/// What is left when the first variables are bound to the point, in windows of w variables, of which the last
/// may have fewer: w is the binary logarithm of the number of entries, rounded up, and at least 1. So a
/// window has fewer than twice as many weights as there are entries, or two.
pub fn bind_variables<F: Field>(
    alloc: Global,
    entries: &[(usize, F)],
    point: &[F],
) -> Result<Vec<(usize, F)>, PolyError>
    requires sparse { IsSparse F.field entries.now }
    requires few { length point.now < 64 }
    ensures sparse { IfOk result (λ e. IsSparse F.field e.items) }
    ensures values { IfOk result (λ e. of_pairs F.field e.items
        ≡ fixed F.field (of_pairs F.field entries.now) point.now) }
    ensures memory { IsOkUnless result PolyError.Memory }
{
    let window = (log2(entries.len()) as usize).max(1);
    let mut bound = Vec::from_slice(alloc, entries)?;
    let mut left = point;
    'bind: while !left.is_empty() {
        let (first, others) = left.split_at(window.min(left.len()));
        bound = bind_window(alloc, &bound, first)?;
        left = others;
    }
    Ok(bound)
}

// The entries with the bits of each index exchanged, in the order in which they come.
fn exchanged_entries<F: Field>(
    alloc: Global,
    entries: &[(usize, F)],
    by: Exchange,
) -> Result<Vec<(usize, F)>, PolyError>
    requires windows { ((by.first + by.count ≤ by.second) × (by.second + by.count ≤ 63))
        ⊎ ((by.second + by.count ≤ by.first) × (by.first + by.count ≤ 63)) }
    requires below { All (λ e. e.0 < 2 ^ 63) entries.now }
    ensures moved { IfOk result (λ m. m.items
        ≡ map (λ e. (exchanged_index e.0 by.first by.second by.count, e.1)) entries.now) }
    ensures memory { IsOkUnless result PolyError.Memory }
{
    let mut moved = Vec::with_capacity(alloc, entries.len())?;
    for i in 0..entries.len() {
        let entry = entries[i];
        moved.push((exchanged_bits(entry.0, by), entry.1))?;
    }
    Ok(moved)
}

/// The entries of the table with variables exchanged, by rising indices.
pub fn relabel_entries<F: Field>(
    alloc: Global,
    num_vars: usize,
    entries: &[(usize, F)],
    by: Exchange,
) -> Result<Vec<(usize, F)>, PolyError>
    requires few { num_vars < 64 }
    requires windows { AreWindows num_vars by.first by.second by.count }
    requires sparse { IsSparse F.field entries.now }
    requires within { All (λ e. e.0 < 2 ^ num_vars) entries.now }
    ensures sparse { IfOk result (λ e. IsSparse F.field e.items) }
    ensures within { IfOk result (λ e. All (λ p. p.0 < 2 ^ num_vars) e.items) }
    ensures values { IfOk result (λ e. (x : List F) → length x ≡ num_vars
        → extension F.field (of_pairs F.field e.items) x
        ≡ extension F.field (of_pairs F.field entries.now) (exchanged F.field x by.first by.second by.count)) }
    ensures memory { IsOkUnless result PolyError.Memory }
{
    if by.count == 0 || by.first == by.second {
        return Ok(Vec::from_slice(alloc, entries)?);
    }
    gathered_terms(alloc, exchanged_entries(alloc, entries, by)?)
}

/// What stands in a table of zeros after these pairs of index and value are written in order, so that the
/// last pair of an index wins: by rising indices, without zeros.
pub fn written_entries<F: Field>(
    alloc: Global,
    pairs: &[(usize, F)],
) -> Result<Vec<(usize, F)>, PolyError>
    ensures sparse { IfOk result (λ e. IsSparse F.field e.items) }
    ensures values { IfOk result (λ e. of_pairs F.field e.items ≡ written F.field.zero pairs.now) }
    ensures memory { IsOkUnless result PolyError.Memory }
{
    let mut table = HashMap::new(alloc);
    for i in 0..pairs.len() {
        let pair = pairs[i];
        table.insert(pair.0, pair.1)?;
    }
    sorted_entries(alloc, table)
}

/// The value at an index: lent from the entries, or the zero that is handed in where they have none.
pub fn value_at<'a, F: Field>(entries: &'a [(usize, F)], index: usize, zero: &'a F) -> &'a F
    requires sparse { IsSparse F.field entries.now }
    requires zero { zero.now ≡ F.field.zero }
    ensures { result.now ≡ of_pairs F.field entries.now index }
{
    match entries.binary_search_by_key(&index, |entry| entry.0) {
        Ok(place) => &entries[place].1,
        Err(_) => zero,
    }
}

/// All values of a table by its entries, whose indices are below their number.
pub fn values_of_entries<F: Field>(
    alloc: Global,
    len: usize,
    entries: &[(usize, F)],
) -> Result<Vec<F>, PolyError>
    requires sparse { IsSparse F.field entries.now }
    requires within { All (λ e. e.0 < len) entries.now }
    ensures length { IfOk result (λ v. length v.items ≡ len) }
    ensures values { IfOk result (λ v. of_list F.field v.items ≡ of_pairs F.field entries.now) }
    ensures memory { IsOkUnless result PolyError.Memory }
{
    let mut values = zeros(alloc, len)?;
    for i in 0..entries.len() {
        let entry = entries[i];
        values[entry.0] = entry.1;
    }
    Ok(values)
}

// Whether all indices are below the length of a table.
fn are_below<F>(entries: &[(usize, F)], len: usize) -> bool
    ensures { IsTrue result ↔ All (λ e. e.0 < len) entries.now }
{
    entries.iter().all(|entry| entry.0 < len)
}

/// Whether these are the entries of a table, its number of variables, and zero.
pub fn are_entries<F: Field>(entries: &[(usize, F)], num_vars: usize, zero: F) -> bool
    ensures { IsTrue result ↔ AreEntries F.field (entries.now, (num_vars, zero)) }
{
    num_vars < 64 && zero.is_zero() && is_sparse(entries) && are_below(entries, 1 << num_vars)
}
