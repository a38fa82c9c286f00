//! A block of a file: at most 1024 stripes, of which each piece has a part.

ghost use Rattle.std.specs.Prelude.{◌≡◌, ◌≢◌, ℕ, ◌+◌, ◌-◌, ◌*◌, ◌%◌, ◌<◌, ◌≤◌, ◌^◌, length, List, [], get_or, map, take, IfOk, OnOk};
ghost use Rattle.std.specs.List.{range_with_len};
ghost use Rattle.shards_format.specs.Stripes.{item, stripe, stripes, numbers_at};
ghost use Rattle.shards_format.specs.Parts.{IsPart};
ghost use Rattle.shards_format.specs.Files.{AreApart};
ghost use Rattle.shards_format.specs.Places.{AreMissing, IsAmong};

use crate::code::{PlacedNumbers, StripeCode};
use crate::extenders::PlacedExtender;
use crate::items::{item, put_item};
use crate::parts::{PART, marked_part, plain_part};
use std::alloc::{AllocError, Global};

/// How many stripes so many bytes are, the last one filled with zeros.
pub fn stripes(k: usize, len: usize) -> usize
    requires positive { 0 < k }
    requires few { k ≤ 65536 }
    requires len { len < 2 ^ 63 }
    ensures { result ≡ stripes k len }
{
    (len + (2 * k - 1)) / (2 * k)
}

/// The parts of a block, one for each place, by what `parity_extender` made.
pub fn parts_of_block<C: StripeCode>(
    alloc: Global,
    code: &C,
    extender: &PlacedExtender<C>,
    block: &[u8],
) -> Result<Vec<Vec<u8>>, AllocError>
    requires code { C.is_of code.now extender.now.extender }
    requires given { extender.now.given.items ≡ range_with_len 0 (C.k_of code.now) }
    requires wanted { extender.now.wanted.items
        ≡ range_with_len (C.k_of code.now) (C.n_of code.now - C.k_of code.now) }
    requires block { length block.now ≤ 2 * C.k_of code.now * PART }
    ensures len { IfOk result (λ parts. length parts.items ≡ C.n_of code.now) }
    ensures parts { IfOk result (λ parts. (i : ℕ) → i < C.n_of code.now
        → IsPart (C.k_of code.now) i (numbers_at C.number (C.k_of code.now) (C.n_of code.now) block.now i)
        (get_or (map (λ part. part.items) parts.items) i [])) }
{
    let n = code.n();
    let numbers = parity_numbers(alloc, code, extender, block)?;
    let mut parts = Vec::new(alloc);
    for i in 0..n {
        parts.push(part_at(alloc, code, block, &numbers, i)?)?;
    }
    Ok(parts)
}

// The numbers of a block's stripes at all places but the first `k`, those at place `k` first.
fn parity_numbers<C: StripeCode>(
    alloc: Global,
    code: &C,
    extender: &PlacedExtender<C>,
    block: &[u8],
) -> Result<Vec<u32>, AllocError>
    requires few { C.n_of code.now ≤ 65536 }
    requires code { C.is_of code.now extender.now.extender }
    requires given { extender.now.given.items ≡ range_with_len 0 (C.k_of code.now) }
    requires wanted { extender.now.wanted.items
        ≡ range_with_len (C.k_of code.now) (C.n_of code.now - C.k_of code.now) }
    requires block { length block.now ≤ 2 * C.k_of code.now * PART }
    ensures len { IfOk result (λ numbers. length numbers.items
        ≡ (C.n_of code.now - C.k_of code.now) * stripes (C.k_of code.now) (length block.now)) }
    ensures numbers { let count = stripes (C.k_of code.now) (length block.now) in
        IfOk result (λ numbers. (b s : ℕ) → b < C.n_of code.now - C.k_of code.now → s < count
        → get_or numbers.items (b * count + s) 0
        ≡ C.number (C.k_of code.now) (C.n_of code.now) (stripe count block.now s) (C.k_of code.now + b)) }
{
    let k = code.k();
    let count = stripes(k, block.len());
    let items = items_of(alloc, block, k * count)?;
    let given = PlacedNumbers {
        places: &extender.given,
        stripes: count,
        numbers: &items,
    };
    let numbers = extended(alloc, code, extender, &given)?;
    Ok(numbers)
}

// So many items of the bytes, as numbers.
fn items_of(alloc: Global, bytes: &[u8], count: usize) -> Result<Vec<u32>, AllocError>
    requires { count < 2 ^ 62 }
    ensures len { IfOk result (λ items. length items.items ≡ count) }
    ensures items { IfOk result (λ items. (j : ℕ) → j < count → get_or items.items j 0 ≡ item bytes.now j) }
    ensures small { IfOk result (λ items. (j : ℕ) → j < count → get_or items.items j 0 ≤ 65536) }
{
    let mut items = vec![in alloc; 0u32; count]?;
    fill_items(bytes, items.as_mut_slice());
    Ok(items)
}

// Writes the first items of the bytes.
fn fill_items(bytes: &[u8], items: &mut [u32])
    requires { length items.old < 2 ^ 62 }
    ensures items { (j : ℕ) → j < length items.old → get_or items.new j 0 ≡ item bytes.now j }
    ensures small { (j : ℕ) → j < length items.old → get_or items.new j 0 ≤ 65536 }
{
    for j in 0..items.len() {
        items[j] = u32::from(item(bytes, j));
    }
}

// The numbers of stripes at the wanted places of an extender, those at the first of them first.
pub(crate) fn extended<C: StripeCode>(
    alloc: Global,
    code: &C,
    extender: &PlacedExtender<C>,
    given: &PlacedNumbers<'_>,
) -> Result<Vec<u32>, AllocError>
    requires code { C.is_of code.now extender.now.extender }
    requires given { given.now.places.now ≡ extender.now.given.items }
    requires wanted { length extender.now.wanted.items ≤ 65536 }
    requires few { given.now.stripes ≤ PART }
    requires small { (p : ℕ) → get_or given.now.numbers.now p 0 ≤ 65536 }
    ensures len { IfOk result (λ numbers. length numbers.items
        ≡ length extender.now.wanted.items * given.now.stripes) }
    ensures numbers { IfOk result (λ numbers. (s : ℕ) (stripe : ℕ → ℕ) → s < given.now.stripes
        → ((j : ℕ) → j < C.k_of code.now → stripe j < 2 ^ 16)
        → ((a : ℕ) → a < C.k_of code.now → get_or given.now.numbers.now (a * given.now.stripes + s) 0
        ≡ C.number (C.k_of code.now) (C.n_of code.now) stripe (get_or given.now.places.now a 0))
        → (b : ℕ) → b < length extender.now.wanted.items → get_or numbers.items (b * given.now.stripes + s) 0
        ≡ C.number (C.k_of code.now) (C.n_of code.now) stripe (get_or extender.now.wanted.items b 0)) }
{
    let mut numbers = vec![in alloc; 0u32; extender.wanted.len() * given.stripes]?;
    code.extend(alloc, &extender.extender, given, numbers.as_mut_slice())?;
    Ok(numbers)
}

// The part of a block at a place, from the numbers at all places but the first `k`.
fn part_at<C: StripeCode>(
    alloc: Global,
    code: &C,
    block: &[u8],
    numbers: &[u32],
    place: usize,
) -> Result<Vec<u8>, AllocError>
    requires block { length block.now ≤ 2 * C.k_of code.now * PART }
    requires place { place < C.n_of code.now }
    requires len { length numbers.now
        ≡ (C.n_of code.now - C.k_of code.now) * stripes (C.k_of code.now) (length block.now) }
    requires numbers { let count = stripes (C.k_of code.now) (length block.now) in
        (b s : ℕ) → b < C.n_of code.now - C.k_of code.now → s < count → get_or numbers.now (b * count + s) 0
        ≡ C.number (C.k_of code.now) (C.n_of code.now) (stripe count block.now s) (C.k_of code.now + b) }
    ensures { IfOk result (λ part. IsPart (C.k_of code.now) place
        (numbers_at C.number (C.k_of code.now) (C.n_of code.now) block.now place) part.items) }
{
    let k = code.k();
    let count = stripes(k, block.len());
    if place < k {
        let plain = plain_part(alloc, block, count, place)?;
        return Ok(plain);
    }
    let start = (place - k) * count;
    let marked = marked_part(alloc, &numbers[start..start + count])?;
    Ok(marked)
}

/// The bytes of a block of so many stripes from their numbers at the places that are given to the extender, those at the
/// first place first, by what `data_extender` made. The bytes end with those that filled the last stripe.
pub fn block_of<C: StripeCode>(
    alloc: Global,
    code: &C,
    extender: &PlacedExtender<C>,
    count: usize,
    numbers: &[u32],
) -> Result<Vec<u8>, AllocError>
    requires code { C.is_of code.now extender.now.extender }
    requires given { length extender.now.given.items ≡ C.k_of code.now }
    requires missing { AreMissing (C.k_of code.now) extender.now.given.items extender.now.wanted.items }
    requires few { count ≤ PART }
    requires len { length numbers.now ≡ C.k_of code.now * count }
    requires small { (p : ℕ) → get_or numbers.now p 0 ≤ 65536 }
    ensures len { IfOk result (λ bytes. length bytes.items ≡ 2 * (C.k_of code.now * count)) }
    ensures block { IfOk result (λ bytes. (block : List ℕ) → ((i : ℕ) → get_or block i 0 < 256)
        → count ≡ stripes (C.k_of code.now) (length block)
        → ((a s : ℕ) → a < C.k_of code.now → s < count → get_or numbers.now (a * count + s) 0
        ≡ C.number (C.k_of code.now) (C.n_of code.now) (stripe count block s) (get_or extender.now.given.items a 0))
        → take (length block) bytes.items ≡ block) }
{
    let given = PlacedNumbers {
        places: &extender.given,
        stripes: count,
        numbers,
    };
    let mut bytes = vec![in alloc; 0u8; 2 * (code.k() * count)]?;
    put_block(alloc, code, extender, &given, bytes.as_mut_slice())?;
    Ok(bytes)
}

// Writes the rows of a block from the numbers at the given places.
fn put_block<C: StripeCode>(
    alloc: Global,
    code: &C,
    extender: &PlacedExtender<C>,
    given: &PlacedNumbers<'_>,
    bytes: &mut [u8],
) -> Result<(), AllocError>
    requires code { C.is_of code.now extender.now.extender }
    requires given { given.now.places.now ≡ extender.now.given.items }
    requires places { length given.now.places.now ≡ C.k_of code.now }
    requires missing { AreMissing (C.k_of code.now) given.now.places.now extender.now.wanted.items }
    requires few { given.now.stripes ≤ PART }
    requires small { (p : ℕ) → get_or given.now.numbers.now p 0 ≤ 65536 }
    requires bytes { length bytes.old ≡ 2 * (C.k_of code.now * given.now.stripes) }
    ensures bytes { (i : ℕ) → get_or bytes.new i 0 < 256 }
    ensures rows { OnOk result ((s : ℕ) (stripe : ℕ → ℕ) → s < given.now.stripes
        → ((j : ℕ) → j < C.k_of code.now → stripe j < 2 ^ 16)
        → ((a : ℕ) → a < C.k_of code.now → get_or given.now.numbers.now (a * given.now.stripes + s) 0
        ≡ C.number (C.k_of code.now) (C.n_of code.now) stripe (get_or given.now.places.now a 0))
        → (j : ℕ) → j < C.k_of code.now → item bytes.new (j * given.now.stripes + s) ≡ stripe j) }
{
    put_rows(bytes, code.k(), given);
    put_missing(alloc, code, extender, given, bytes)?;
    Ok(())
}

// Writes the rows of a block at the wanted places from the numbers at the given ones.
fn put_missing<C: StripeCode>(
    alloc: Global,
    code: &C,
    extender: &PlacedExtender<C>,
    given: &PlacedNumbers<'_>,
    bytes: &mut [u8],
) -> Result<(), AllocError>
    requires code { C.is_of code.now extender.now.extender }
    requires given { given.now.places.now ≡ extender.now.given.items }
    requires missing { AreMissing (C.k_of code.now) given.now.places.now extender.now.wanted.items }
    requires few { given.now.stripes ≤ PART }
    requires small { (p : ℕ) → get_or given.now.numbers.now p 0 ≤ 65536 }
    requires bytes { length bytes.old ≡ 2 * (C.k_of code.now * given.now.stripes) }
    ensures rows { OnOk result ((s : ℕ) (stripe : ℕ → ℕ) → s < given.now.stripes
        → ((j : ℕ) → j < C.k_of code.now → stripe j < 2 ^ 16)
        → ((a : ℕ) → a < C.k_of code.now → get_or given.now.numbers.now (a * given.now.stripes + s) 0
        ≡ C.number (C.k_of code.now) (C.n_of code.now) stripe (get_or given.now.places.now a 0))
        → (j : ℕ) → IsAmong extender.now.wanted.items j → item bytes.new (j * given.now.stripes + s) ≡ stripe j) }
    ensures others { OnOk result ((j s : ℕ) → s < given.now.stripes → (IsAmong extender.now.wanted.items j → ⊥)
        → item bytes.new (j * given.now.stripes + s) ≡ item bytes.old (j * given.now.stripes + s)) }
{
    if extender.wanted.is_empty() {
        return Ok(());
    }
    let k = code.k();
    let numbers = extended(alloc, code, extender, given)?;
    let missing = PlacedNumbers {
        places: &extender.wanted,
        stripes: given.stripes,
        numbers: &numbers,
    };
    put_rows(bytes, k, &missing);
    Ok(())
}

// Writes the rows of a block at those of the places that are below `k`. A number is an item there.
fn put_rows(bytes: &mut [u8], k: usize, placed: &PlacedNumbers<'_>)
    requires k { k ≤ 65536 }
    requires few { placed.now.stripes ≤ PART }
    requires bytes { length bytes.old ≡ 2 * (k * placed.now.stripes) }
    ensures rows { (a s : ℕ) → a < length placed.now.places.now → s < placed.now.stripes
        → get_or placed.now.places.now a 0 < k
        → item bytes.new (get_or placed.now.places.now a 0 * placed.now.stripes + s)
        ≡ get_or placed.now.numbers.now (a * placed.now.stripes + s) 0 % 65536 }
    ensures others { (j s : ℕ) → s < placed.now.stripes → (IsAmong placed.now.places.now j → ⊥)
        → item bytes.new (j * placed.now.stripes + s) ≡ item bytes.old (j * placed.now.stripes + s) }
{
    for a in 0..placed.places.len() {
        if placed.places[a] < k {
            let start = a * placed.stripes;
            let first = placed.places[a] * placed.stripes;
            put_items(bytes, first, &placed.numbers[start..start + placed.stripes]);
        }
    }
}

// Writes numbers as items, one after another.
pub(crate) fn put_items(bytes: &mut [u8], first: usize, numbers: &[u32])
    requires { 2 * (first + length numbers.now) ≤ length bytes.old }
    ensures here { (s : ℕ) → s < length numbers.now → item bytes.new (first + s) ≡ get_or numbers.now s 0 % 65536 }
    ensures before { (i : ℕ) → i < first → item bytes.new i ≡ item bytes.old i }
    ensures after { (i : ℕ) → first + length numbers.now ≤ i → item bytes.new i ≡ item bytes.old i }
{
    for s in 0..numbers.len() {
        put_item(bytes, first + s, (numbers[s] % 65536) as u16);
    }
}
