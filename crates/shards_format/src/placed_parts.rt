//! The parts of a block at wanted places.

ghost use Rattle.std.specs.Prelude.{◌≡◌, ℕ, ◌+◌, ◌*◌, ◌%◌, ◌<◌, ◌≤◌, ◌^◌, length, List, [], get_or, map, IfOk};
ghost use Rattle.shards_format.specs.Stripes.{item, stripe, stripes, numbers_at};
ghost use Rattle.shards_format.specs.Parts.{IsPart};
ghost use Rattle.shards_format.specs.Pieces.{SpellsNumbers, chunk, mark_size};

use crate::block_parts::{extended, put_items};
use crate::code::{PlacedNumbers, StripeCode};
use crate::extenders::PlacedExtender;
use crate::parts::{PART, marked_part};
use std::alloc::{AllocError, Global};

/// The parts of a block of so many stripes at the wanted places of an extender, from the numbers at the given ones, those at
/// the first of them first.
pub fn parts_at<C: StripeCode>(
    alloc: Global,
    code: &C,
    extender: &PlacedExtender<C>,
    count: usize,
    numbers: &[u32],
) -> Result<Vec<Vec<u8>>, AllocError>
    requires code { C.is_of code.now extender.now.extender }
    requires given { length extender.now.given.items ≡ C.k_of code.now }
    requires wanted { length extender.now.wanted.items ≤ 65536 }
    requires few { count ≤ PART }
    requires len { length numbers.now ≡ C.k_of code.now * count }
    requires small { (p : ℕ) → get_or numbers.now p 0 ≤ 65536 }
    ensures len { IfOk result (λ parts. length parts.items ≡ length extender.now.wanted.items) }
    ensures sizes { IfOk result (λ parts. (b : ℕ) → b < length extender.now.wanted.items
        → length (get_or (map (λ part. part.items) parts.items) b [])
        ≡ mark_size (C.k_of code.now) (get_or extender.now.wanted.items b 0) + 2 * count) }
    ensures parts { IfOk result (λ parts. (block : List ℕ) → ((i : ℕ) → get_or block i 0 < 256)
        → count ≡ stripes (C.k_of code.now) (length block)
        → ((a s : ℕ) → a < C.k_of code.now → s < count → get_or numbers.now (a * count + s) 0
        ≡ C.number (C.k_of code.now) (C.n_of code.now) (stripe count block s) (get_or extender.now.given.items a 0))
        → (b : ℕ) → b < length extender.now.wanted.items → IsPart (C.k_of code.now) (get_or extender.now.wanted.items b 0)
        (numbers_at C.number (C.k_of code.now) (C.n_of code.now) block (get_or extender.now.wanted.items b 0))
        (get_or (map (λ part. part.items) parts.items) b [])) }
{
    let given = PlacedNumbers {
        places: &extender.given,
        stripes: count,
        numbers,
    };
    let found = bounded(alloc, code, extender, &given)?;
    let parts = parts_of_rows(alloc, code.k(), &extender.wanted, count, &found)?;
    Ok(parts)
}

// The numbers of stripes at the wanted places of an extender. None is above 2^16, whatever the given ones are.
fn bounded<C: StripeCode>(
    alloc: Global,
    code: &C,
    extender: &PlacedExtender<C>,
    given: &PlacedNumbers<'_>,
) -> Result<Vec<u32>, AllocError>
    requires code { C.is_of code.now extender.now.extender }
    requires given { given.now.places.now ≡ extender.now.given.items }
    requires wanted { length extender.now.wanted.items ≤ 65536 }
    requires few { given.now.stripes ≤ PART }
    requires small { (p : ℕ) → get_or given.now.numbers.now p 0 ≤ 65536 }
    ensures len { IfOk result (λ numbers. length numbers.items
        ≡ length extender.now.wanted.items * given.now.stripes) }
    ensures small { IfOk result (λ numbers. (p : ℕ) → p < length numbers.items → get_or numbers.items p 0 ≤ 65536) }
    ensures numbers { IfOk result (λ numbers. (s : ℕ) (stripe : ℕ → ℕ) → s < given.now.stripes
        → ((j : ℕ) → j < C.k_of code.now → stripe j < 2 ^ 16)
        → ((a : ℕ) → a < C.k_of code.now → get_or given.now.numbers.now (a * given.now.stripes + s) 0
        ≡ C.number (C.k_of code.now) (C.n_of code.now) stripe (get_or given.now.places.now a 0))
        → (b : ℕ) → b < length extender.now.wanted.items → get_or numbers.items (b * given.now.stripes + s) 0
        ≡ C.number (C.k_of code.now) (C.n_of code.now) stripe (get_or extender.now.wanted.items b 0)) }
{
    let mut numbers = extended(alloc, code, extender, given)?;
    bound(numbers.as_mut_slice());
    Ok(numbers)
}

// Puts 2^16 where a number is above it.
fn bound(numbers: &mut [u32])
    ensures small { (p : ℕ) → p < length numbers.old → get_or numbers.new p 0 ≤ 65536 }
    ensures others { (p : ℕ) → get_or numbers.old p 0 ≤ 65536 → get_or numbers.new p 0 ≡ get_or numbers.old p 0 }
{
    for p in 0..numbers.len() {
        numbers[p] = numbers[p].min(65536);
    }
}

// The parts at these places, each with its row of the numbers.
fn parts_of_rows(
    alloc: Global,
    k: usize,
    places: &[usize],
    count: usize,
    numbers: &[u32],
) -> Result<Vec<Vec<u8>>, AllocError>
    requires few { count ≤ PART }
    requires places { length places.now ≤ 65536 }
    requires len { length numbers.now ≡ length places.now * count }
    requires small { (p : ℕ) → p < length numbers.now → get_or numbers.now p 0 ≤ 65536 }
    ensures len { IfOk result (λ parts. length parts.items ≡ length places.now) }
    ensures parts { IfOk result (λ parts. (b : ℕ) → b < length places.now → SpellsNumbers k (get_or places.now b 0)
        (chunk count b numbers.now) (get_or (map (λ part. part.items) parts.items) b [])) }
{
    let mut parts = Vec::new(alloc);
    for b in 0..places.len() {
        let start = b * count;
        parts.push(part_of_row(alloc, k, places[b], &numbers[start..start + count])?)?;
    }
    Ok(parts)
}

// The part of piece `place` with these numbers.
fn part_of_row(
    alloc: Global,
    k: usize,
    place: usize,
    numbers: &[u32],
) -> Result<Vec<u8>, AllocError>
    requires few { length numbers.now ≤ PART }
    requires fits { (s : ℕ) → s < length numbers.now → get_or numbers.now s 0 ≤ 65536 }
    ensures { IfOk result (λ part. SpellsNumbers k place numbers.now part.items) }
{
    if place < k {
        let plain = items_part(alloc, numbers)?;
        return Ok(plain);
    }
    let marked = marked_part(alloc, numbers)?;
    Ok(marked)
}

// The part with these numbers as items.
fn items_part(alloc: Global, numbers: &[u32]) -> Result<Vec<u8>, AllocError>
    requires { length numbers.now ≤ PART }
    ensures bytes { IfOk result (λ part. (i : ℕ) → get_or part.items i 0 < 256) }
    ensures len { IfOk result (λ part. length part.items ≡ 2 * length numbers.now) }
    ensures items { IfOk result (λ part. (s : ℕ) → s < length numbers.now
        → item part.items s ≡ get_or numbers.now s 0 % 65536) }
{
    let mut part = vec![in alloc; 0u8; 2 * numbers.len()]?;
    put_plain(part.as_mut_slice(), numbers);
    Ok(part)
}

// Writes numbers as the items of a part.
fn put_plain(part: &mut [u8], numbers: &[u32])
    requires len { length part.old ≡ 2 * length numbers.now }
    requires few { length numbers.now ≤ PART }
    ensures bytes { (i : ℕ) → get_or part.new i 0 < 256 }
    ensures items { (s : ℕ) → s < length numbers.now → item part.new s ≡ get_or numbers.now s 0 % 65536 }
{
    put_items(part, 0, numbers);
}
