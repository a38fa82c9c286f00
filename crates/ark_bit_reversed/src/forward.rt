//! Values at a block's elements from coefficients, in place. At the elements of the first half of a block a
//! power of half its size is one root, and at those of the other half minus that: so each half takes a
//! polynomial of half as many coefficients.

ghost use Rattle.std.specs.Prelude.{◌≡◌, ℕ, suc, ◌+◌, ◌-◌, ◌*◌, ◌^◌, ◌/◌, ◌<◌, ◌≤◌, length};
ghost use Rattle.ark_math.specs.Field.{minus};
ghost use Rattle.ark_math.specs.Univariate.{of_list, value_below};
ghost use Rattle.ark_bit_reversed.specs.Blocks.{AreRoots, AreTurned};

use ark_traits::Field;

// Above so many levels each half is taken for itself, so that it is near at hand.
const FEW_LEVELS: u32 = 16;

// Puts the values at the elements of a block of so many items in the place of a polynomial's coefficients.
pub(crate) fn forward<F: Field>(values: &mut [F], roots: &[F], block: usize, levels: u32)
    requires size { length values.old ≡ 2 ^ levels }
    requires within { suc block * 2 ^ levels ≤ length roots.now + length roots.now }
    requires fits { length roots.now + length roots.now < 2 ^ 64 }
    ensures len { length values.new ≡ length values.old }
    ensures values { (x : ℕ → F) → AreRoots F.field x roots.now → (i : ℕ) → i < 2 ^ levels
        → of_list F.field values.new i ≡ value_below F.field (2 ^ levels) (of_list F.field values.old)
        (x (block * 2 ^ levels + i)) }
{
    if levels == 1 {
        pair(values, roots[block]);
    } else if levels > FEW_LEVELS {
        halve(values, roots, block);
        let (low, high) = values.split_at_mut(values.len() / 2);
        forward(low, roots, 2 * block, levels - 1);
        forward(high, roots, 2 * block + 1, levels - 1);
    } else if levels > 1 {
        down_to_fours(values, roots, block, levels);
        fours(values, roots, block * (values.len() / 4));
    }
}

// The butterfly of two coefficients.
fn pair<F: Field>(values: &mut [F], root: F)
    requires { length values.old ≡ 2 }
    ensures len { length values.new ≡ 2 }
    ensures sum { of_list F.field values.new 0 ≡ F.field.plus (of_list F.field values.old 0)
        (F.field.times root (of_list F.field values.old 1)) }
    ensures difference { of_list F.field values.new 1 ≡ minus F.field (of_list F.field values.old 0)
        (F.field.times root (of_list F.field values.old 1)) }
{
    let own = values[0];
    let turned = root * values[1];
    values[0] = own + turned;
    values[1] = own - turned;
}

// The levels above blocks of four items. Each four is left the coefficients of a polynomial with the whole
// one's values at its elements: each is the value, at the element to which their fourth powers go, of every
// fourth one.
fn down_to_fours<F: Field>(values: &mut [F], roots: &[F], block: usize, levels: u32)
    requires some { 2 ≤ levels }
    requires size { length values.old ≡ 2 ^ levels }
    requires within { suc block * 2 ^ levels ≤ length roots.now + length roots.now }
    requires fits { length roots.now + length roots.now < 2 ^ 64 }
    ensures len { length values.new ≡ length values.old }
    ensures values { (x : ℕ → F) → AreRoots F.field x roots.now → (r j : ℕ) → r < 2 ^ (levels - 2) → j < 4
        → of_list F.field values.new (4 * r + j) ≡ value_below F.field (2 ^ (levels - 2))
        (λ k. of_list F.field values.old (4 * k + j)) (x (block * 2 ^ (levels - 2) + r)) }
{
    let mut count = 1;
    let mut half = values.len() / 2;
    for _level in 2..levels {
        halve_blocks(values, roots, block * count, count, half);
        count *= 2;
        half /= 2;
    }
}

// One level: butterflies across the halves, of so many items each, of so many blocks from block `start` on.
fn halve_blocks<F: Field>(values: &mut [F], roots: &[F], start: usize, count: usize, half: usize)
    requires size { length values.old ≡ count * (2 * half) }
    requires within { start + count ≤ length roots.now }
    ensures len { length values.new ≡ length values.old }
    ensures values { (x : ℕ → F) → AreRoots F.field x roots.now → (r i j : ℕ) → r < count → i < 2 → j < half
        → of_list F.field values.new (half * (2 * r + i) + j) ≡ value_below F.field 2
        (λ k. of_list F.field values.old (half * (2 * r + k) + j)) (x (2 * (start + r) + i)) }
{
    for r in 0..count {
        let (_before, rest) = values.split_at_mut(2 * half * r);
        let (own, _after) = rest.split_at_mut(2 * half);
        halve(own, roots, start + r);
    }
}

// Butterflies across a block's halves. Two items that are half a block apart become the values, at the two
// elements that name the halves, of the polynomial with these coefficients. The first block's root is one,
// and needs no products.
fn halve<F: Field>(values: &mut [F], roots: &[F], block: usize)
    requires even { length values.old ≡ 2 * (length values.old / 2) }
    requires within { block < length roots.now }
    ensures len { length values.new ≡ length values.old }
    ensures values { (x : ℕ → F) → AreRoots F.field x roots.now → (i j : ℕ) → i < 2
        → j < length values.old / 2
        → of_list F.field values.new (length values.old / 2 * i + j) ≡ value_below F.field 2
        (λ k. of_list F.field values.old (length values.old / 2 * k + j)) (x (2 * block + i)) }
{
    let (low, high) = values.split_at_mut(values.len() / 2);
    if block == 0 {
        sums_and_differences(low, high);
    } else {
        butterflies(low, high, roots[block]);
    }
}

// Butterflies across two halves, all with one root.
fn butterflies<F: Field>(low: &mut [F], high: &mut [F], root: F)
    requires same { length low.old ≡ length high.old }
    ensures low_len { length low.new ≡ length low.old }
    ensures high_len { length high.new ≡ length high.old }
    ensures sums { (i : ℕ) → i < length low.old → of_list F.field low.new i ≡ F.field.plus
        (of_list F.field low.old i) (F.field.times root (of_list F.field high.old i)) }
    ensures differences { (i : ℕ) → i < length low.old → of_list F.field high.new i ≡ minus F.field
        (of_list F.field low.old i) (F.field.times root (of_list F.field high.old i)) }
{
    for i in 0..low.len() {
        let own = low[i];
        let turned = root * high[i];
        low[i] = own + turned;
        high[i] = own - turned;
    }
}

// Butterflies across two halves whose root is one.
pub(crate) fn sums_and_differences<F: Field>(low: &mut [F], high: &mut [F])
    requires same { length low.old ≡ length high.old }
    ensures low_len { length low.new ≡ length low.old }
    ensures high_len { length high.new ≡ length high.old }
    ensures sums { (i : ℕ) → i < length low.old → of_list F.field low.new i ≡ F.field.plus
        (of_list F.field low.old i) (of_list F.field high.old i) }
    ensures differences { (i : ℕ) → i < length low.old → of_list F.field high.new i ≡ minus F.field
        (of_list F.field low.old i) (of_list F.field high.old i) }
{
    for i in 0..low.len() {
        let own = low[i];
        let other = high[i];
        low[i] = own + other;
        high[i] = own - other;
    }
}

// Two levels of butterflies of four items. Within their loop several fours are taken at a time, which a call
// would hinder.
#[inline(always)]
fn four<F: Field>(items: (F, F, F, F), root: F, low_root: F, high_root: F) -> (F, F, F, F)
    ensures { AreTurned F.field root low_root high_root items.0 items.1 items.2 items.3
        result.0 result.1 result.2 result.3 }
{
    let (first, second, third, fourth) = items;
    let third = root * third;
    let fourth = root * fourth;
    let low = low_root * (second + fourth);
    let high = high_root * (second - fourth);
    let sum = first + third;
    let difference = first - third;
    (sum + low, sum - low, difference + high, difference - high)
}

// The values of each four coefficients in their place, from block `start` of four elements on.
fn fours<F: Field>(values: &mut [F], roots: &[F], start: usize)
    requires whole { length values.old ≡ 4 * (length values.old / 4) }
    requires within { 4 * start + length values.old ≤ length roots.now + length roots.now }
    requires fits { length roots.now + length roots.now < 2 ^ 64 }
    ensures len { length values.new ≡ length values.old }
    ensures values { (x : ℕ → F) → AreRoots F.field x roots.now → (r i : ℕ) → 4 * r < length values.old
        → i < 4 → of_list F.field values.new (4 * r + i) ≡ value_below F.field 4
        (λ j. of_list F.field values.old (4 * r + j)) (x (4 * (start + r) + i)) }
{
    for r in 0..values.len() / 4 {
        let block = start + r;
        let (a, b, c, d) = four(
            (
                values[4 * r],
                values[4 * r + 1],
                values[4 * r + 2],
                values[4 * r + 3],
            ),
            roots[block],
            roots[2 * block],
            roots[2 * block + 1],
        );
        values[4 * r] = a;
        values[4 * r + 1] = b;
        values[4 * r + 2] = c;
        values[4 * r + 3] = d;
    }
}
