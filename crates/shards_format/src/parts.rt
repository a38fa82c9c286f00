//! How a piece spells the numbers of a block.

ghost use Rattle.std.specs.Prelude.{◌≡◌, ◌≢◌, ℕ, ◌+◌, ◌*◌, ◌<◌, ◌≤◌, ◌^◌, length, get_or, IfOk, true, false};
ghost use Rattle.shards_format.specs.Stripes.{item};
ghost use Rattle.shards_format.specs.Pieces.{chunk};
ghost use Rattle.shards_format.specs.Parts.{IsMark, IsMarked, IsUnused, shown, number_after_mark, number_in, count_true};

use crate::items::{item, put_item};
use std::alloc::{AllocError, Global};

/// The most numbers that a part has: one for each stripe of a block.
pub const PART: usize = 1024;

// As many numbers as a part has can't be all of these.
const CANDIDATES: usize = 1025;

/// Chunk `b` of a list that is cut in chunks of so many.
pub fn chunk<'a>(bytes: &'a [u8], size: usize, b: usize) -> &'a [u8]
    requires { b * size + size < 2 ^ 64 }
    ensures { result.now ≡ chunk size b bytes.entry.now }
{
    let (_, rest) = bytes.split_at((b * size).min(bytes.len()));
    let (front, _) = rest.split_at(size.min(rest.len()));
    front
}

/// The part with item `place` of each stripe of a block of so many: bytes of the block, and zeros past its end.
pub fn plain_part(
    alloc: Global,
    block: &[u8],
    count: usize,
    place: usize,
) -> Result<Vec<u8>, AllocError>
    requires few { count ≤ PART }
    requires place { place ≤ 65536 }
    ensures len { IfOk result (λ part. length part.items ≡ 2 * count) }
    ensures items { IfOk result (λ part. (s : ℕ) → s < count → item part.items s ≡ item block.now (place * count + s)) }
    ensures bytes { IfOk result (λ part. (i : ℕ) → get_or part.items i 0 < 256) }
{
    let size = 2 * count;
    let mut part = Vec::with_capacity(alloc, size)?;
    part.extend_from_slice(chunk(block, size, place))?;
    part.resize(size, 0)?;
    Ok(part)
}

/// The part with a mark and these numbers. The mark stands for 2^16, and is that where none of them is; otherwise it is the
/// least number that none of them is.
pub fn marked_part(alloc: Global, numbers: &[u32]) -> Result<Vec<u8>, AllocError>
    requires few { length numbers.now ≤ PART }
    requires fits { (s : ℕ) → s < length numbers.now → get_or numbers.now s 0 ≤ 65536 }
    ensures { IfOk result (λ part. IsMarked numbers.now part.items) }
{
    let mark = mark_of(numbers);
    let mut part = vec![in alloc; 0u8; 4 + 2 * numbers.len()]?;
    put_marked(part.as_mut_slice(), mark, numbers);
    Ok(part)
}

/// The numbers of a part of piece `place`, which has so many; those of the first `k` pieces have no mark.
pub fn read_part(k: usize, place: usize, part: &[u8], numbers: &mut [u32])
    requires { length numbers.old ≤ PART }
    ensures numbers { (s : ℕ) → s < length numbers.old → get_or numbers.new s 0 ≡ number_in k place part.now s }
    ensures fits { (s : ℕ) → s < length numbers.old → get_or numbers.new s 0 ≤ 65536 }
{
    if place < k {
        read_plain(part, numbers);
    } else {
        read_marked(part, numbers);
    }
}

// The numbers of a part without a mark.
fn read_plain(part: &[u8], numbers: &mut [u32])
    requires { length numbers.old ≤ PART }
    ensures numbers { (s : ℕ) → s < length numbers.old → get_or numbers.new s 0 ≡ item part.now s }
    ensures fits { (s : ℕ) → s < length numbers.old → get_or numbers.new s 0 ≤ 65536 }
{
    for s in 0..numbers.len() {
        numbers[s] = item(part, s) as u32;
    }
}

// The numbers of a part with a mark.
fn read_marked(part: &[u8], numbers: &mut [u32])
    requires { length numbers.old ≤ PART }
    ensures numbers { (s : ℕ) → s < length numbers.old → get_or numbers.new s 0 ≡ number_after_mark part.now s }
    ensures fits { (s : ℕ) → s < length numbers.old → get_or numbers.new s 0 ≤ 65536 }
{
    let mark = item(part, 0) as u32 + 65536 * item(part, 1) as u32;
    for s in 0..numbers.len() {
        let number = item(part, 2 + s) as u32;
        numbers[s] = if number == mark { 65536 } else { number };
    }
}

// The mark of numbers.
fn mark_of(numbers: &[u32]) -> u32
    requires { length numbers.now ≤ PART }
    ensures { IsMark numbers.now result }
{
    for number in numbers {
        if *number == 65536 {
            return least_unused(numbers);
        }
    }
    65536
}

// The least number that isn't among these.
fn least_unused(numbers: &[u32]) -> u32
    requires { length numbers.now ≤ PART }
    ensures bound { result ≤ PART }
    ensures unused { IsUnused numbers.now result }
    ensures least { (x : ℕ) → x < result → IsUnused numbers.now x → ⊥ }
{
    let mut used = [false; CANDIDATES];
    for number in numbers {
        if (*number as usize) < CANDIDATES {
            used[*number as usize] = true;
        }
    }
    first_false(&used) as u32
}

// The first place without `true`, where there are fewer of these than places.
fn first_false(used: &[bool]) -> usize
    requires { count_true used.now < length used.now }
    ensures bound { result < length used.now }
    ensures unused { get_or used.now result true ≡ false }
    ensures first { (j : ℕ) → j < result → get_or used.now j false ≡ true }
{
    for (i, is_used) in used.iter().enumerate() {
        if !*is_used {
            return i;
        }
    }
    unreachable!()
}

// Writes the mark, and the numbers after it.
fn put_marked(part: &mut [u8], mark: u32, numbers: &[u32])
    requires len { length part.old ≡ 4 + 2 * length numbers.now }
    requires few { length numbers.now ≤ PART }
    requires mark { mark ≤ 65536 }
    requires unused { IsUnused numbers.now mark }
    requires fits { (s : ℕ) → s < length numbers.now → get_or numbers.now s 0 ≤ 65536 }
    ensures bytes { (i : ℕ) → get_or part.new i 0 < 256 }
    ensures mark { item part.new 0 + 65536 * item part.new 1 ≡ mark }
    ensures numbers { (s : ℕ) → s < length numbers.now → item part.new (2 + s) ≡ shown mark (get_or numbers.now s 0) }
{
    put_mark(part, mark);
    put_numbers(part, mark, numbers);
}

// Writes the mark.
fn put_mark(part: &mut [u8], mark: u32)
    requires len { 4 ≤ length part.old }
    requires mark { mark ≤ 65536 }
    ensures { item part.new 0 + 65536 * item part.new 1 ≡ mark }
{
    put_item(part, 0, (mark % 65536) as u16);
    put_item(part, 1, (mark / 65536) as u16);
}

// Writes the numbers after the mark.
fn put_numbers(part: &mut [u8], mark: u32, numbers: &[u32])
    requires len { length part.old ≡ 4 + 2 * length numbers.now }
    requires few { length numbers.now ≤ PART }
    requires mark { mark ≤ 65536 }
    requires unused { IsUnused numbers.now mark }
    requires fits { (s : ℕ) → s < length numbers.now → get_or numbers.now s 0 ≤ 65536 }
    ensures low { item part.new 0 ≡ item part.old 0 }
    ensures high { item part.new 1 ≡ item part.old 1 }
    ensures numbers { (s : ℕ) → s < length numbers.now → item part.new (2 + s) ≡ shown mark (get_or numbers.now s 0) }
{
    for s in 0..numbers.len() {
        let number = if numbers[s] == 65536 {
            mark
        } else {
            numbers[s]
        };
        put_item(part, 2 + s, number as u16);
    }
}
