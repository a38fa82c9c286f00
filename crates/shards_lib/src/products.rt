//! Numbers at a place as sums of the numbers at others, each times a weight, reduced late: modulo 65537 the upper half of a
//! product of 32 bits is taken from its lower half, since 2^16 is minus one.

ghost use Rattle.std.specs.Prelude.{◌≡◌, ℕ, ◌+◌, ◌*◌, ◌%◌, ◌^◌, ◌<◌, ◌≤◌, get_or, length};
ghost use Rattle.ark_math.specs.Field.{natural};
ghost use Rattle.shards_lib.specs.Products.{halves, weighted_sum};

use crate::field::NumberField;

/// The prime 2^16 + 1.
const PRIME: u32 = 65537;

/// At most so many products are added up before the sum is reduced.
pub const MOST_TERMS: usize = 1024;

/// Writes the sums of the rows of numbers, each row times its weight.
pub fn write_sums<F: NumberField>(weights: &[u32], numbers: &[u32], sums: &mut [u32])
    requires few { length weights.now ≤ MOST_TERMS }
    requires weights { (a : ℕ) → get_or weights.now a 0 ≤ 65536 }
    requires numbers { (p : ℕ) → get_or numbers.now p 0 ≤ 65536 }
    requires rows { length numbers.now ≡ length weights.now * length sums.old }
    ensures { (s : ℕ) → s < length sums.old → get_or sums.new s 0
        ≡ F.number (weighted_sum F.field weights.now numbers.now (length sums.old) s (length weights.now)) }
{
    clear(sums);
    add_rows::<F>(weights, numbers, sums);
    reduce(sums);
}

// Makes each number zero.
fn clear(sums: &mut [u32])
    ensures { (s : ℕ) → get_or sums.new s 0 ≡ 0 }
{
    for s in 0..sums.len() {
        sums[s] = 0;
    }
}

// Adds each row times its weight.
fn add_rows<F: NumberField>(weights: &[u32], numbers: &[u32], sums: &mut [u32])
    requires few { length weights.now ≤ MOST_TERMS }
    requires weights { (a : ℕ) → get_or weights.now a 0 ≤ 65536 }
    requires numbers { (p : ℕ) → get_or numbers.now p 0 ≤ 65536 }
    requires rows { length numbers.now ≡ length weights.now * length sums.old }
    requires zero { (s : ℕ) → get_or sums.old s 0 ≡ 0 }
    ensures { (s : ℕ) → s < length sums.old → natural F.field (get_or sums.new s 0)
        ≡ weighted_sum F.field weights.now numbers.now (length sums.old) s (length weights.now) }
{
    let stripes = sums.len();
    for a in 0..weights.len() {
        let start = a * stripes;
        add_row::<F>(weights[a], &numbers[start..start + stripes], sums);
    }
}

// Adds a row times a weight. A weight of 2^16 is minus one.
fn add_row<F: NumberField>(weight: u32, row: &[u32], sums: &mut [u32])
    requires weight { weight ≤ 65536 }
    requires row { (s : ℕ) → get_or row.now s 0 ≤ 65536 }
    requires len { length row.now ≡ length sums.old }
    requires room { (s : ℕ) → get_or sums.old s 0 + 131072 < 2 ^ 32 }
    ensures grown { (s : ℕ) → get_or sums.new s 0 ≤ get_or sums.old s 0 + 131072 }
    ensures sums { (s : ℕ) → s < length sums.old → natural F.field (get_or sums.new s 0)
        ≡ F.field.plus (natural F.field (get_or sums.old s 0))
        (F.field.times (natural F.field weight) (natural F.field (get_or row.now s 0))) }
{
    if weight == 65536 {
        subtract_row(row, sums);
    } else {
        add_products(weight, row, sums);
    }
}

// Adds the prime less each number.
fn subtract_row(row: &[u32], sums: &mut [u32])
    requires row { (s : ℕ) → get_or row.now s 0 ≤ 65536 }
    requires len { length row.now ≡ length sums.old }
    requires room { (s : ℕ) → get_or sums.old s 0 + 131072 < 2 ^ 32 }
    ensures grown { (s : ℕ) → get_or sums.new s 0 ≤ get_or sums.old s 0 + 131072 }
    ensures sums { (s : ℕ) → s < length sums.old → get_or sums.new s 0 + get_or row.now s 0
        ≡ get_or sums.old s 0 + 65537 }
{
    for s in 0..sums.len() {
        sums[s] += PRIME - row[s];
    }
}

// Adds each number times a weight, the upper half of the product with the other sign.
fn add_products(weight: u32, row: &[u32], sums: &mut [u32])
    requires weight { weight < 65536 }
    requires row { (s : ℕ) → get_or row.now s 0 ≤ 65536 }
    requires len { length row.now ≡ length sums.old }
    requires room { (s : ℕ) → get_or sums.old s 0 + 131072 < 2 ^ 32 }
    ensures grown { (s : ℕ) → get_or sums.new s 0 ≤ get_or sums.old s 0 + 131072 }
    ensures sums { (s : ℕ) → s < length sums.old → get_or sums.new s 0
        ≡ get_or sums.old s 0 + halves (weight * get_or row.now s 0) }
{
    for s in 0..sums.len() {
        let product = weight * row[s];
        sums[s] += product % 65536 + (PRIME - product / 65536);
    }
}

// Reduces each sum.
fn reduce(sums: &mut [u32])
    ensures { (s : ℕ) → get_or sums.new s 0 ≡ get_or sums.old s 0 % 65537 }
{
    for s in 0..sums.len() {
        sums[s] %= PRIME;
    }
}
