//! Columns of lists that are read as rows.

ghost use Rattle.std.specs.Prelude.{◌≡◌, ◌≢◌, ℕ, ◌+◌, ◌*◌, ◌<◌, ◌≤◌, map, length, IfOk};
ghost use Rattle.ark_fft_parts.specs.Parts.{column, row};

use ark_fft::domain::first_items;
use ark_traits::{DomainCoeff, Field};
use std::alloc::{AllocError, Global};

/// Column `j` of a list of so many rows of `count` items.
pub fn take_column<F: Field, T: DomainCoeff<F>>(
    alloc: Global,
    block: &[T],
    rows: usize,
    count: usize,
    j: usize,
) -> Result<Vec<T>, AllocError>
    requires size { length block.now ≡ rows * count }
    requires within { j < count }
    ensures column { IfOk result (λ v. map T.meaning v.items
        ≡ column T.group rows count (map T.meaning block.now) j) }
{
    let mut taken = Vec::with_capacity(alloc, rows)?;
    for i in 0..rows {
        taken.push(block[i * count + j])?;
    }
    Ok(taken)
}

/// Puts items into column `j` of a list of as many rows of `count` items.
pub fn put_column<F: Field, T: DomainCoeff<F>>(block: &mut [T], items: &[T], count: usize, j: usize)
    requires size { length block.old ≡ length items.now * count }
    requires within { j < count }
    ensures column { column T.group (length items.now) count (map T.meaning block.new) j
        ≡ map T.meaning items.now }
    ensures others { (k : ℕ) → k < count → k ≢ j
        → column T.group (length items.now) count (map T.meaning block.new) k
        ≡ column T.group (length items.now) count (map T.meaning block.old) k }
{
    for i in 0..items.len() {
        block[i * count + j] = items[i];
    }
}

/// Row `a` of a list of rows of so many columns.
pub fn take_row<F: Field, T: DomainCoeff<F>>(
    alloc: Global,
    block: &[T],
    columns: usize,
    a: usize,
) -> Result<Vec<T>, AllocError>
    requires { a * columns + columns ≤ length block.now }
    ensures { IfOk result (λ v. map T.meaning v.items ≡ row T.group columns (map T.meaning block.now) a) }
{
    let from = a * columns;
    first_items(alloc, &block[from..from + columns], columns)
}
