//! Tables of values at the corners of a cube, by their indices: bit i of an index is the value of variable i.

ghost use Rattle.std.specs.Prelude.{◌≡◌, ◌⊎◌, ◌<◌, ◌≤◌, ◌+◌, ◌*◌, ◌/◌, ◌^◌, ℕ, List, [], ◌∷◌, ◌++◌, length, IfOk};
ghost use Rattle.ark_math_variables.specs.Multilinear.{AreWindows, exchanged, extension, fixed};
ghost use Rattle.ark_tables.specs.Exchanged.{exchanged_index};
ghost use Rattle.ark_math.specs.Univariate.{added, difference, of_list, scaled};

use ark_traits::Field;
use std::alloc::{AllocError, Global};

// Writes what is left of a table when its first variable is bound to `x` over a buffer of half the length:
// one product for each pair of values.
fn bind_pairs<F: Field>(half: &mut [F], table: &[F], x: F)
    requires { length table.now ≡ 2 * length half.old }
    ensures { of_list F.field half.new ≡ fixed F.field (of_list F.field table.now) (x ∷ []) }
{
    for i in 0..half.len() {
        let low = table[2 * i];
        let high = table[2 * i + 1];
        half[i] = low + x * (high - low);
    }
}

// What is left of a table when its first variable is bound to `x`, in a list of its own.
fn bound_table<F: Field>(alloc: Global, table: &[F], x: F) -> Result<Vec<F>, AllocError>
    requires { length table.now ≡ 2 * (length table.now / 2) }
    ensures values { IfOk result (λ t. of_list F.field t.items
        ≡ fixed F.field (of_list F.field table.now) (x ∷ [])) }
    ensures len { IfOk result (λ t. 2 * length t.items ≡ length table.now) }
{
    let len = table.len() / 2;
    let mut half = Vec::with_capacity(alloc, len)?;
    half.resize(len, F::zero())?;
    bind_pairs(half.as_mut_slice(), table, x);
    Ok(half)
}

// Writes what is left of a table when its first variable is bound to `x` over its lower half.
fn bind_in_place<F: Field>(table: &mut [F], x: F)
    ensures { (i : ℕ) → i < length table.old / 2 → of_list F.field table.new i
        ≡ fixed F.field (of_list F.field table.old) (x ∷ []) i }
{
    for i in 0..table.len() / 2 {
        let low = table[2 * i];
        let high = table[2 * i + 1];
        table[i] = low + x * (high - low);
    }
}

// Binds the first variable of a table to `x`, which halves it.
fn bind_first<F: Field>(table: &mut Vec<F>, x: F)
    requires { length table.old.items ≡ 2 * (length table.old.items / 2) }
    ensures values { of_list F.field table.new.items
        ≡ fixed F.field (of_list F.field table.old.items) (x ∷ []) }
    ensures len { 2 * length table.new.items ≡ length table.old.items }
{
    bind_in_place(table.as_mut_slice(), x);
    table.truncate(table.len() / 2);
}

/// What is left of a table when its first variables are bound to the point's items, in a list of its own with
/// room for no more. Each variable halves the table, and takes one product for each pair of values. The first
/// is bound on the way into a new list, which takes half the memory of the table, the last one on the way
/// into the list that is given, and those between in place. Of a point without items it is a copy.
pub fn fixed_table<F: Field>(alloc: Global, table: &[F], point: &[F]) -> Result<Vec<F>, AllocError>
    requires { (n : ℕ) × (n * 2 ^ length point.now ≡ length table.now) }
    ensures values { IfOk result (λ t. of_list F.field t.items
        ≡ fixed F.field (of_list F.field table.now) point.now) }
    ensures len { IfOk result (λ t. length t.items * 2 ^ length point.now ≡ length table.now) }
{
    let Some((first, others)) = point.split_first() else {
        return Vec::from_slice(alloc, table);
    };
    let mut left = bound_table(alloc, table, *first)?;
    let Some((last, between)) = others.split_last() else {
        return Ok(left);
    };
    for x in between {
        bind_first(&mut left, *x);
    }
    bound_table(alloc, &left, *last)
}

// Binds the last variable of a table in two halves to `x`: what is left is written over the lower one.
fn bind_halves<F: Field>(low: &mut [F], high: &[F], x: F)
    requires { length high.now ≡ length low.old }
    ensures { of_list F.field low.new ≡ added F.field (of_list F.field low.old)
        (scaled F.field x (difference F.field (of_list F.field high.now) (of_list F.field low.old))) }
{
    for i in 0..low.len() {
        let value = low[i];
        low[i] = value + x * (high[i] - value);
    }
}

// Binds the last variable of a table to `x`, which halves it.
fn bind_last<F: Field>(table: &mut Vec<F>, x: F)
    requires { length table.old.items ≡ 2 * (length table.old.items / 2) }
    ensures values { (p : List F) → length table.old.items ≡ 2 * 2 ^ length p
        → extension F.field (of_list F.field table.new.items) p
        ≡ extension F.field (of_list F.field table.old.items) (p ++ x ∷ []) }
    ensures len { 2 * length table.new.items ≡ length table.old.items }
{
    let half = table.len() / 2;
    let (low, high) = table.as_mut_slice().split_at_mut(half);
    bind_halves(low, high, x);
    table.truncate(half);
}

/// The value at a point of a table's extension: all its variables are bound, the last one first, since then
/// the values of a pair lie half a table apart. The first one to be bound is bound over a copy of the lower half.
pub fn value_of_table<F: Field>(alloc: Global, table: &[F], point: &[F]) -> Result<F, AllocError>
    requires { length table.now ≡ 2 ^ length point.now }
    ensures { IfOk result (λ y. y ≡ extension F.field (of_list F.field table.now) point.now) }
{
    let Some((last, others)) = point.split_last() else {
        return Ok(table[0]);
    };
    let (low, high) = table.split_at(table.len() / 2);
    let mut left = Vec::from_slice(alloc, low)?;
    bind_halves(left.as_mut_slice(), high, *last);
    let mut unbound = others;
    'bind: while let Some((last, others)) = unbound.split_last() {
        bind_last(&mut left, *last);
        unbound = others;
    }
    Ok(left[0])
}

/// Which variables change places: the `count` from `first` on with the `count` from `second` on. Where it is
/// taken, `AreWindows` says that both windows are below the number of variables and share none, or that none
/// moves.
#[derive(Clone, Copy)]
pub struct Exchange {
    /// The first variable of the lower or the upper window.
    pub first: usize,
    /// The first variable of the other.
    pub second: usize,
    /// How many variables a window has.
    pub count: usize,
}

/// The index with its bits at the places of these variables exchanged.
pub fn exchanged_bits(index: usize, by: Exchange) -> usize
    requires windows { ((by.first + by.count ≤ by.second) × (by.second + by.count ≤ 63))
        ⊎ ((by.second + by.count ≤ by.first) × (by.first + by.count ≤ 63)) }
    requires below { index < 2 ^ 63 }
    ensures { result ≡ exchanged_index index by.first by.second by.count }
{
    let first = (index >> by.first) % (1 << by.count);
    let second = (index >> by.second) % (1 << by.count);
    index - ((first << by.first) + (second << by.second))
        + ((second << by.first) + (first << by.second))
}

/// Exchanges variables: the values at each two indices that change places are swapped once.
pub fn relabel_table<F: Field>(table: &mut [F], by: Exchange)
    requires { (m : ℕ) × (m < 64) × (length table.old ≡ 2 ^ m) × AreWindows m by.first by.second by.count }
    ensures { (x : List F) → length table.old ≡ 2 ^ length x → AreWindows (length x) by.first by.second by.count
        → extension F.field (of_list F.field table.new) x
        ≡ extension F.field (of_list F.field table.old) (exchanged F.field x by.first by.second by.count) }
{
    if by.count == 0 || by.first == by.second {
        return;
    }
    for i in 0..table.len() {
        let j = exchanged_bits(i, by);
        if i < j {
            table.swap(i, j);
        }
    }
}
