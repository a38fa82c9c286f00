//! The bit-reversal permutation, by blocks of four neighbours.

ghost use Rattle.std.specs.Prelude.{◌≡◌, ◌≢◌, ◌⊎◌, ℕ};
ghost use Rattle.std.specs.Prelude.{length, get_or, ◌+◌, ◌-◌, ◌*◌, ◌/◌, ◌≤◌, ◌<◌, ◌^◌};
ghost use Rattle.ark_math_transforms.specs.BitReversal.{reversed};
ghost use Rattle.ark_fft.specs.Halves.{IsDealt};

use std::mem;

// The index with the lowest bits of i + 1 backwards, from the one with those of i.
fn next_reversed(_i: usize, before: usize, levels: u32) -> usize
    requires few { levels < 64 }
    requires within { _i + 1 < 2 ^ levels }
    requires backwards { before ≡ reversed levels _i }
    ensures { result ≡ reversed levels (_i + 1) }
{
    let mut left = before;
    let mut bit = 1 << (levels - 1);
    'carry: while bit <= left {
        left -= bit;
        bit /= 2;
    }
    left + bit
}

// Exchanges two items.
fn exchange<T>(xs: &mut [T], i: usize, j: usize)
    requires apart { i < j }
    requires within { j < length xs.old }
    ensures first { (d : T) → get_or xs.new i d ≡ get_or xs.old j d }
    ensures second { (d : T) → get_or xs.new j d ≡ get_or xs.old i d }
    ensures others { (k : ℕ) (d : T) → k ≢ i → k ≢ j → get_or xs.new k d ≡ get_or xs.old k d }
{
    xs.swap(i, j);
}

// The bit-reversal permutation of a short list.
fn bit_reverse_items<T>(xs: &mut [T], levels: u32)
    requires few { levels < 64 }
    requires size { length xs.old ≡ 2 ^ levels }
    ensures { (p : ℕ) (d : T) → p < 2 ^ levels → get_or xs.new p d ≡ get_or xs.old (reversed levels p) d }
{
    let mut j = 0;
    for i in 1..xs.len() {
        j = next_reversed(i - 1, j, levels);
        if i < j {
            exchange(xs, i, j);
        }
    }
}

// Exchanges two blocks of four neighbours.
fn swap_fours<T>(xs: &mut [T], i: usize, j: usize)
    requires apart { i < j }
    requires within { 4 * j + 3 < length xs.old }
    ensures first { (b : ℕ) (d : T) → b < 4 → get_or xs.new (4 * i + b) d ≡ get_or xs.old (4 * j + b) d }
    ensures second { (b : ℕ) (d : T) → b < 4 → get_or xs.new (4 * j + b) d ≡ get_or xs.old (4 * i + b) d }
    ensures others { (k b : ℕ) (d : T) → b < 4 → k ≢ i → k ≢ j → get_or xs.new (4 * k + b) d
        ≡ get_or xs.old (4 * k + b) d }
{
    xs.swap(4 * i, 4 * j);
    xs.swap(4 * i + 1, 4 * j + 1);
    xs.swap(4 * i + 2, 4 * j + 2);
    xs.swap(4 * i + 3, 4 * j + 3);
}

// Puts each block of four neighbours at the index that has the bits of its own backwards.
fn bit_reverse_fours<T>(xs: &mut [T], levels: u32)
    requires few { levels < 62 }
    requires size { length xs.old ≡ 4 * 2 ^ levels }
    ensures { (r b : ℕ) (d : T) → b < 4 → r < 2 ^ levels → get_or xs.new (4 * r + b) d
        ≡ get_or xs.old (4 * reversed levels r + b) d }
{
    let mut j = 0;
    for i in 1..xs.len() / 4 {
        j = next_reversed(i - 1, j, levels);
        if i < j {
            swap_fours(xs, i, j);
        }
    }
}

// Exchanges the two highest bits of an index with the two lowest ones, backwards, at block k of each quarter of a list.
fn turn_block<T>(first: &mut [T], second: &mut [T], third: &mut [T], fourth: &mut [T], k: usize)
    requires within { 4 * k + 3 < length first.old }
    requires second_len { length second.old ≡ length first.old }
    requires third_len { length third.old ≡ length first.old }
    requires fourth_len { length fourth.old ≡ length first.old }
    ensures first { IsDealt first.old second.old third.old fourth.old 0 k first.new }
    ensures second { IsDealt first.old second.old third.old fourth.old 2 k second.new }
    ensures third { IsDealt first.old second.old third.old fourth.old 1 k third.new }
    ensures fourth { IsDealt first.old second.old third.old fourth.old 3 k fourth.new }
    ensures rest { (i : ℕ) (d : T) → (i < 4 * k) ⊎ (4 * k + 4 ≤ i) →
        (get_or first.new i d ≡ get_or first.old i d) × (get_or second.new i d ≡ get_or second.old i d)
        × (get_or third.new i d ≡ get_or third.old i d) × (get_or fourth.new i d ≡ get_or fourth.old i d) }
{
    mem::swap(&mut first[4 * k + 1], &mut third[4 * k]);
    mem::swap(&mut first[4 * k + 2], &mut second[4 * k]);
    mem::swap(&mut first[4 * k + 3], &mut fourth[4 * k]);
    mem::swap(&mut second[4 * k + 1], &mut third[4 * k + 2]);
    mem::swap(&mut second[4 * k + 3], &mut fourth[4 * k + 2]);
    mem::swap(&mut third[4 * k + 3], &mut fourth[4 * k + 1]);
}

// Exchanges the two highest bits of each index with the two lowest ones, backwards. The list is given by its quarters.
fn turn_blocks<T>(
    first: &mut [T],
    second: &mut [T],
    third: &mut [T],
    fourth: &mut [T],
    blocks: usize,
)
    requires first_len { length first.old ≡ 4 * blocks }
    requires second_len { length second.old ≡ 4 * blocks }
    requires third_len { length third.old ≡ 4 * blocks }
    requires fourth_len { length fourth.old ≡ 4 * blocks }
    ensures first { (k : ℕ) → k < blocks → IsDealt first.old second.old third.old fourth.old 0 k first.new }
    ensures second { (k : ℕ) → k < blocks → IsDealt first.old second.old third.old fourth.old 2 k second.new }
    ensures third { (k : ℕ) → k < blocks → IsDealt first.old second.old third.old fourth.old 1 k third.new }
    ensures fourth { (k : ℕ) → k < blocks → IsDealt first.old second.old third.old fourth.old 3 k fourth.new }
{
    for k in 0..blocks {
        turn_block(first, second, third, fourth, k);
    }
}

// The bit-reversal permutation: puts each item at the index that has the bits of its own backwards, first by the two
// highest and the two lowest bits, and then, in each quarter, by those between them.
pub(crate) fn bit_reverse<T>(xs: &mut [T], levels: u32)
    requires few { levels < 64 }
    requires size { length xs.old ≡ 2 ^ levels }
    ensures { (p : ℕ) (d : T) → p < 2 ^ levels → get_or xs.new p d ≡ get_or xs.old (reversed levels p) d }
{
    if levels < 4 {
        bit_reverse_items(xs, levels);
    } else {
        let quarter = xs.len() / 4;
        let (lo, hi) = xs.split_at_mut(2 * quarter);
        let (first, second) = lo.split_at_mut(quarter);
        let (third, fourth) = hi.split_at_mut(quarter);
        turn_blocks(first, second, third, fourth, quarter / 4);
        bit_reverse_fours(first, levels - 4);
        bit_reverse_fours(second, levels - 4);
        bit_reverse_fours(third, levels - 4);
        bit_reverse_fours(fourth, levels - 4);
    }
}
