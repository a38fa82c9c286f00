//! Coefficients from values at a block's elements, in place: the steps of `forward` the other way round, each of
//! which leaves twice what it should.

ghost use Rattle.std.specs.Prelude.{◌≡◌, ℕ, suc, ◌+◌, ◌-◌, ◌*◌, ◌^◌, ◌/◌, ◌%◌, ◌<◌, ◌≤◌, length};
ghost use Rattle.ark_math.specs.Field.{minus, power};
ghost use Rattle.ark_math.specs.Univariate.{of_list, value_below};
ghost use Rattle.ark_bit_reversed.specs.Blocks.{AreInverseRoots, AreTurnedBack};

use crate::forward::sums_and_differences;
use ark_traits::Field;

// Above so many levels each half is taken for itself, so that it is near at hand.
const FEW_LEVELS: u32 = 16;

// Puts the coefficients of a polynomial, times two for each level, in the place of its values at the elements of a
// block.
pub(crate) fn backward<F: Field>(values: &mut [F], inverses: &[F], block: usize, levels: u32)
    requires size { length values.old ≡ 2 ^ levels }
    requires within { suc block * 2 ^ levels ≤ length inverses.now + length inverses.now }
    requires fits { length inverses.now + length inverses.now < 2 ^ 64 }
    ensures len { length values.new ≡ length values.old }
    ensures coefficients { (x a : ℕ → F) → AreInverseRoots F.field x inverses.now
        → ((i : ℕ) → i < 2 ^ levels → of_list F.field values.old i
        ≡ value_below F.field (2 ^ levels) a (x (block * 2 ^ levels + i)))
        → (i : ℕ) → i < 2 ^ levels → of_list F.field values.new i
        ≡ F.field.times (power F.field (F.field.plus F.field.one F.field.one) levels) (a i) }
{
    if levels == 1 {
        pair(values, inverses[block]);
    } else if levels > FEW_LEVELS {
        let half = values.len() / 2;
        let (low, high) = values.split_at_mut(half);
        backward(low, inverses, 2 * block, levels - 1);
        backward(high, inverses, 2 * block + 1, levels - 1);
        join_halves(low, high, inverses, block);
    } else if levels > 1 {
        fours(values, inverses, block * (values.len() / 4));
        up_from_fours(values, inverses, block, levels);
    }
}

// The butterfly of two values.
fn pair<F: Field>(values: &mut [F], inverse: F)
    requires { length values.old ≡ 2 }
    ensures len { length values.new ≡ 2 }
    ensures sum { of_list F.field values.new 0 ≡ F.field.plus (of_list F.field values.old 0)
        (of_list F.field values.old 1) }
    ensures difference { of_list F.field values.new 1 ≡ F.field.times inverse (minus F.field
        (of_list F.field values.old 0) (of_list F.field values.old 1)) }
{
    let first = values[0];
    let second = values[1];
    values[0] = first + second;
    values[1] = inverse * (first - second);
}

// The levels above blocks of four items, one after the other: the coefficients, times two for each level, of
// a polynomial. Each four has the values of every fourth one of them, at the element that it is named by.
fn up_from_fours<F: Field>(values: &mut [F], inverses: &[F], block: usize, levels: u32)
    requires some { 2 ≤ levels }
    requires size { length values.old ≡ 2 ^ levels }
    requires within { suc block * 2 ^ levels ≤ length inverses.now + length inverses.now }
    requires fits { length inverses.now + length inverses.now < 2 ^ 64 }
    ensures len { length values.new ≡ length values.old }
    ensures coefficients { (x a : ℕ → F) → AreInverseRoots F.field x inverses.now
        → ((r j : ℕ) → r < 2 ^ (levels - 2) → j < 4 → of_list F.field values.old (4 * r + j)
        ≡ value_below F.field (2 ^ (levels - 2)) (λ k. a (4 * k + j)) (x (block * 2 ^ (levels - 2) + r)))
        → (i : ℕ) → i < 2 ^ levels → of_list F.field values.new i
        ≡ F.field.times (power F.field (F.field.plus F.field.one F.field.one) (levels - 2)) (a i) }
{
    let mut half = 4;
    for _level in 2..levels {
        let blocks = values.len() / (2 * half);
        join_blocks(values, inverses, block * blocks, half);
        half *= 2;
    }
}

// One level: butterflies across the two halves, of so many items each, of every block from block `start` on.
fn join_blocks<F: Field>(values: &mut [F], inverses: &[F], start: usize, half: usize)
    requires some { 0 < half }
    requires whole { length values.old ≡ 2 * half * (length values.old / (2 * half)) }
    requires within { start + length values.old / (2 * half) ≤ length inverses.now }
    requires fits { 2 * half < 2 ^ 64 }
    ensures len { length values.new ≡ length values.old }
    ensures sums { (r i : ℕ) → r < length values.old / (2 * half) → i < half
        → of_list F.field values.new (2 * half * r + i) ≡ F.field.plus
        (of_list F.field values.old (2 * half * r + i))
        (of_list F.field values.old (2 * half * r + (half + i))) }
    ensures differences { (x : ℕ → F) → AreInverseRoots F.field x inverses.now
        → (r i : ℕ) → r < length values.old / (2 * half) → i < half
        → of_list F.field values.new (2 * half * r + (half + i)) ≡ F.field.times
        (of_list F.field inverses.now (start + r)) (minus F.field
        (of_list F.field values.old (2 * half * r + i))
        (of_list F.field values.old (2 * half * r + (half + i)))) }
{
    let len = 2 * half;
    for r in 0..values.len() / len {
        let (_before, rest) = values.split_at_mut(len * r);
        let (own, _after) = rest.split_at_mut(len);
        let (low, high) = own.split_at_mut(half);
        join_halves(low, high, inverses, start + r);
    }
}

// Butterflies across the halves of a block. The root of block 0 is one, and so is its inverse.
#[inline(always)]
fn join_halves<F: Field>(low: &mut [F], high: &mut [F], inverses: &[F], block: usize)
    requires same { length low.old ≡ length high.old }
    requires within { block < length inverses.now }
    ensures low_len { length low.new ≡ length low.old }
    ensures high_len { length high.new ≡ length high.old }
    ensures sums { (i : ℕ) → i < length low.old → of_list F.field low.new i ≡ F.field.plus
        (of_list F.field low.old i) (of_list F.field high.old i) }
    ensures differences { (x : ℕ → F) → AreInverseRoots F.field x inverses.now → (i : ℕ) → i < length low.old
        → of_list F.field high.new i ≡ F.field.times (of_list F.field inverses.now block) (minus F.field
        (of_list F.field low.old i) (of_list F.field high.old i)) }
{
    if block == 0 {
        sums_and_differences(low, high);
    } else {
        butterflies(low, high, inverses[block]);
    }
}

// Butterflies across two halves, all with the inverse of one root.
fn butterflies<F: Field>(low: &mut [F], high: &mut [F], inverse: F)
    requires same { length low.old ≡ length high.old }
    ensures low_len { length low.new ≡ length low.old }
    ensures high_len { length high.new ≡ length high.old }
    ensures sums { (i : ℕ) → i < length low.old → of_list F.field low.new i ≡ F.field.plus
        (of_list F.field low.old i) (of_list F.field high.old i) }
    ensures differences { (i : ℕ) → i < length low.old → of_list F.field high.new i ≡ F.field.times inverse
        (minus F.field (of_list F.field low.old i) (of_list F.field high.old i)) }
{
    for i in 0..low.len() {
        let first = low[i];
        let second = high[i];
        low[i] = first + second;
        high[i] = inverse * (first - second);
    }
}

// Two levels of butterflies of four items. Within their loops several fours are taken at a time, which a call would hinder.
#[inline(always)]
fn four<F: Field>(items: (F, F, F, F), inverse: F, low_inverse: F, high_inverse: F) -> (F, F, F, F)
    ensures { AreTurnedBack F.field inverse low_inverse high_inverse items.0 items.1 items.2 items.3 result.0 result.1
        result.2 result.3 }
{
    let (first, second, third, fourth) = items;
    let low_sum = first + second;
    let low = low_inverse * (first - second);
    let high_sum = third + fourth;
    let high = high_inverse * (third - fourth);
    (
        low_sum + high_sum,
        low + high,
        inverse * (low_sum - high_sum),
        inverse * (low - high),
    )
}

// The coefficients, times four, of each four values in their place, from block `start` of four elements on.
fn fours<F: Field>(values: &mut [F], inverses: &[F], start: usize)
    requires whole { length values.old ≡ 4 * (length values.old / 4) }
    requires within { 4 * start + length values.old ≤ length inverses.now + length inverses.now }
    requires fits { length inverses.now + length inverses.now < 2 ^ 64 }
    ensures len { length values.new ≡ length values.old }
    ensures coefficients { (x a : ℕ → F) → AreInverseRoots F.field x inverses.now
        → (r : ℕ) → 4 * r < length values.old
        → ((i : ℕ) → i < 4 → of_list F.field values.old (4 * r + i)
        ≡ value_below F.field 4 a (x (4 * (start + r) + i)))
        → (j : ℕ) → j < 4 → of_list F.field values.new (4 * r + j)
        ≡ F.field.times (power F.field (F.field.plus F.field.one F.field.one) 2) (a j) }
{
    for r in 0..values.len() / 4 {
        let block = start + r;
        let (a, b, c, d) = four(
            (
                values[4 * r],
                values[4 * r + 1],
                values[4 * r + 2],
                values[4 * r + 3],
            ),
            inverses[block],
            inverses[2 * block],
            inverses[2 * block + 1],
        );
        values[4 * r] = a;
        values[4 * r + 1] = b;
        values[4 * r + 2] = c;
        values[4 * r + 3] = d;
    }
}
