//! The radix 2 transform of long lists, by decimation in frequency (Gentleman-Sande): a level's butterflies, and then both
//! halves. It leaves the places in bit-reversed order.

ghost use Rattle.std.specs.Prelude.{◌≡◌, ◌⊎◌, ℕ, map};
ghost use Rattle.std.specs.Prelude.{length, get_or, ◌+◌, ◌-◌, ◌*◌, ◌/◌, ◌%◌, ◌≤◌, ◌<◌, ◌^◌};
ghost use Rattle.ark_math.specs.Field.{power};
ghost use Rattle.ark_math_transforms.proofs.Transforms.Places.{dft_at};
ghost use Rattle.ark_math_transforms.specs.BitReversal.{reversed};
ghost use Rattle.ark_fft.specs.Columns.{IsColumn, AreColumns};
ghost use Rattle.ark_fft.specs.Halves.{IsHalfTable, AreLevels};
ghost use Rattle.ark_math.specs.Module.{item};
ghost use Rattle.ark_math.specs.Cost.{GrowsBy, butterfly_counts};

use crate::domain::radix2::bit_reversal::bit_reverse;
use crate::domain::radix2::tables::pack_levels;
use ark_traits::{FftField, Summand, Work};
use std::mem;

// One butterfly of a decimation in frequency (Gentleman-Sande): the sum, and the difference times the twiddle factor.
fn butterfly<F: FftField, T: Summand<F>>(work: &mut Work, lo: &mut T, hi: &mut T, twiddle: F)
    ensures sum { T.meaning lo.new ≡ T.group.plus (T.meaning lo.old) (T.meaning hi.old) }
    ensures difference { T.meaning hi.new ≡ T.group.scale twiddle
        (T.group.plus (T.meaning lo.old) (T.group.negated (T.meaning hi.old))) }
    ensures counted { GrowsBy (butterfly_counts 1) work.old work.new }
{
    let mut difference = *lo - *hi;
    work.scale(&mut difference, twiddle);
    *lo += *hi;
    *hi = difference;
    work.butterfly();
}

// Butterflies across two halves, each with the twiddle factor at its index.
fn butterflies<F: FftField, T: Summand<F>>(
    work: &mut Work,
    lo: &mut [T],
    hi: &mut [T],
    twiddles: &[F],
)
    requires same { length lo.old ≡ length hi.old }
    requires enough { length lo.old ≡ length twiddles.now }
    ensures sums { (i : ℕ) → i < length lo.old → item T.group (map T.meaning lo.new) i
        ≡ T.group.plus (item T.group (map T.meaning lo.old) i) (item T.group (map T.meaning hi.old) i) }
    ensures differences { (i : ℕ) → i < length lo.old → item T.group (map T.meaning hi.new) i
        ≡ T.group.scale (get_or twiddles.now i F.field.zero)
        (T.group.plus (item T.group (map T.meaning lo.old) i)
        (T.group.negated (item T.group (map T.meaning hi.old) i))) }
    ensures counted { GrowsBy (butterfly_counts (length lo.old)) work.old work.new }
{
    for i in 0..lo.len() {
        butterfly(work, &mut lo[i], &mut hi[i], twiddles[i]);
    }
}

// The butterfly of a list of two items.
fn pair<F: FftField, T: Summand<F>>(work: &mut Work, xs: &mut [T], twiddle: F)
    requires { length xs.old ≡ 2 }
    ensures sum { item T.group (map T.meaning xs.new) 0
        ≡ T.group.plus (item T.group (map T.meaning xs.old) 0) (item T.group (map T.meaning xs.old) 1) }
    ensures difference { item T.group (map T.meaning xs.new) 1 ≡ T.group.scale twiddle
        (T.group.plus (item T.group (map T.meaning xs.old) 0)
        (T.group.negated (item T.group (map T.meaning xs.old) 1))) }
    ensures counted { GrowsBy (butterfly_counts 1) work.old work.new }
{
    let mut lo = xs[0];
    let mut hi = xs[1];
    butterfly(work, &mut lo, &mut hi, twiddle);
    xs[0] = lo;
    xs[1] = hi;
}

// The items at place i of each quarter of a list, by two levels of butterflies, with the tables of both.
#[inline(always)]
fn column<F: FftField, T: Summand<F>>(
    work: &mut Work,
    xs: &[T],
    tables: &[F],
    quarter: usize,
    i: usize,
) -> (T, T, T, T)
    requires place { i < quarter }
    requires size { length xs.now ≡ 4 * quarter }
    requires enough { 3 * quarter ≤ length tables.now }
    ensures items { IsColumn T.group (get_or tables.now i F.field.zero)
        (get_or tables.now (quarter + i) F.field.zero) (get_or tables.now (quarter + quarter + i) F.field.zero)
        (item T.group (map T.meaning xs.now) i) (item T.group (map T.meaning xs.now) (quarter + i))
        (item T.group (map T.meaning xs.now) (quarter + quarter + i))
        (item T.group (map T.meaning xs.now) (quarter + quarter + quarter + i))
        (T.meaning result.0) (T.meaning result.1) (T.meaning result.2) (T.meaning result.3) }
    ensures counted { GrowsBy (butterfly_counts 4) work.old work.new }
{
    let mut first = xs[i];
    let mut second = xs[quarter + i];
    let mut third = xs[quarter + quarter + i];
    let mut fourth = xs[quarter + quarter + quarter + i];
    let below = tables[quarter + quarter + i];
    butterfly(work, &mut first, &mut third, tables[i]);
    butterfly(work, &mut second, &mut fourth, tables[quarter + i]);
    butterfly(work, &mut first, &mut second, below);
    butterfly(work, &mut third, &mut fourth, below);
    (first, second, third, fourth)
}

// The two upper levels of a list of sixteen items. All items are read before one is written, so that the compiler can
// take the four columns at once, where a loop of four rounds would be too short for it.
fn sixteen<F: FftField, T: Summand<F>>(work: &mut Work, xs: &mut [T], tables: &[F])
    requires size { length xs.old ≡ 16 }
    requires whole { length tables.now ≡ 16 }
    ensures columns { AreColumns F.field T.group tables.now 4 (item T.group (map T.meaning xs.old))
        (item T.group (map T.meaning xs.new)) }
    ensures counted { GrowsBy (butterfly_counts 16) work.old work.new }
{
    let zero = column(work, xs, tables, 4, 0);
    let one = column(work, xs, tables, 4, 1);
    let two = column(work, xs, tables, 4, 2);
    let three = column(work, xs, tables, 4, 3);
    xs[0] = zero.0;
    xs[1] = one.0;
    xs[2] = two.0;
    xs[3] = three.0;
    xs[4] = zero.1;
    xs[5] = one.1;
    xs[6] = two.1;
    xs[7] = three.1;
    xs[8] = zero.2;
    xs[9] = one.2;
    xs[10] = two.2;
    xs[11] = three.2;
    xs[12] = zero.3;
    xs[13] = one.3;
    xs[14] = two.3;
    xs[15] = three.3;
}

// The transform of four items, block r of a list, by two levels. Place i of it is left at the index that has the bits
// of i backwards. The tables are those of both levels.
fn four<F: FftField, T: Summand<F>>(work: &mut Work, xs: &mut [T], tables: &[F], r: usize)
    requires within { 4 * r + 3 < length xs.old }
    requires whole { length tables.now ≡ 4 }
    ensures sums { (w : F) → AreLevels F.field w 2 tables.now → (q : ℕ) → q < 4
        → item T.group (map T.meaning xs.new) (4 * r + q) ≡ dft_at F.field T.group 4 w
        (λ b. item T.group (map T.meaning xs.old) (4 * r + b)) (reversed 2 q) }
    ensures others { (k : ℕ) → (k < 4 * r) ⊎ (4 * r + 4 ≤ k)
        → item T.group (map T.meaning xs.new) k ≡ item T.group (map T.meaning xs.old) k }
    ensures counted { GrowsBy (butterfly_counts 4) work.old work.new }
{
    let mut first = xs[4 * r];
    let mut second = xs[4 * r + 1];
    let mut third = xs[4 * r + 2];
    let mut fourth = xs[4 * r + 3];
    butterfly(work, &mut first, &mut third, tables[0]);
    butterfly(work, &mut second, &mut fourth, tables[1]);
    butterfly(work, &mut first, &mut second, tables[2]);
    butterfly(work, &mut third, &mut fourth, tables[2]);
    xs[4 * r] = first;
    xs[4 * r + 1] = second;
    xs[4 * r + 2] = third;
    xs[4 * r + 3] = fourth;
}

// The transforms of all blocks of four items. No block waits for another, so that several can be taken at a time.
fn fours<F: FftField, T: Summand<F>>(work: &mut Work, xs: &mut [T], tables: &[F])
    requires { length tables.now ≡ 4 }
    ensures sums { (w : F) → AreLevels F.field w 2 tables.now → (r q : ℕ) → r < length xs.old / 4 → q < 4
        → item T.group (map T.meaning xs.new) (4 * r + q) ≡ dft_at F.field T.group 4 w
        (λ b. item T.group (map T.meaning xs.old) (4 * r + b)) (reversed 2 q) }
    ensures counted { GrowsBy (butterfly_counts (4 * (length xs.old / 4))) work.old work.new }
{
    for r in 0..xs.len() / 4 {
        four(work, xs, tables, r);
    }
}

// The levels of `halves` above blocks of four items: the transform's places are then those of the blocks' own ones. Two
// levels are taken at once of sixteen items that are a word each, or shorter: longer ones would be moved about more than
// is saved.
fn down_to_fours<F: FftField, T: Summand<F>>(
    work: &mut Work,
    xs: &mut [T],
    tables: &[F],
    levels: u32,
)
    requires some { 2 ≤ levels }
    requires size { length xs.old ≡ 2 ^ levels }
    requires whole { length tables.now ≡ 2 ^ levels }
    ensures sums { (w : F) → AreLevels F.field w levels tables.now → (p : ℕ) → p < 2 ^ levels
        → dft_at F.field T.group 4 (power F.field w (2 ^ (levels - 2)))
        (λ b. item T.group (map T.meaning xs.new) (4 * (p / 4) + b)) (reversed 2 (p % 4))
        ≡ dft_at F.field T.group (2 ^ levels) w (item T.group (map T.meaning xs.old)) (reversed levels p) }
    ensures counted { GrowsBy (butterfly_counts (2 ^ levels / 2 * (levels - 2))) work.old work.new }
{
    if levels == 4 && mem::size_of_val(&*xs) <= 128 {
        sixteen(work, xs, tables);
    } else if levels > 2 {
        let half = xs.len() / 2;
        let (lo, hi) = xs.split_at_mut(half);
        let (twiddles, rest) = tables.split_at(half);
        butterflies(work, lo, hi, twiddles);
        down_to_fours(work, lo, rest, levels - 1);
        down_to_fours(work, hi, rest, levels - 1);
    }
}

// The transform of `halves` of a list that is short enough to be passed over once more for its last two levels.
fn short_halves<F: FftField, T: Summand<F>>(
    work: &mut Work,
    xs: &mut [T],
    tables: &[F],
    levels: u32,
)
    requires some { 2 ≤ levels }
    requires size { length xs.old ≡ 2 ^ levels }
    requires whole { length tables.now ≡ 2 ^ levels }
    ensures sums { (w : F) → AreLevels F.field w levels tables.now → (p : ℕ) → p < 2 ^ levels
        → item T.group (map T.meaning xs.new) p ≡ dft_at F.field T.group (2 ^ levels) w
        (item T.group (map T.meaning xs.old)) (reversed levels p) }
    ensures counted { GrowsBy (butterfly_counts (2 ^ levels / 2 * levels)) work.old work.new }
{
    down_to_fours(work, xs, tables, levels);
    let (_above, last) = tables.split_at(tables.len() - 4);
    fours(work, xs, last);
}

// The transform in place, by decimation in frequency. It is left in bit-reversed order: place i at the index that has
// the bits of i backwards. The tables are those of all levels, the whole list's twiddle factors first.
pub(crate) fn halves<F: FftField, T: Summand<F>>(
    work: &mut Work,
    xs: &mut [T],
    tables: &[F],
    levels: u32,
)
    requires size { length xs.old ≡ 2 ^ levels }
    requires whole { length tables.now ≡ 2 ^ levels }
    ensures sums { (w : F) → AreLevels F.field w levels tables.now → (p : ℕ) → p < 2 ^ levels
        → item T.group (map T.meaning xs.new) p ≡ dft_at F.field T.group (2 ^ levels) w
        (item T.group (map T.meaning xs.old)) (reversed levels p) }
    ensures counted { GrowsBy (butterfly_counts (2 ^ levels / 2 * levels)) work.old work.new }
{
    if levels == 1 {
        pair(work, xs, tables[0]);
    } else if 1 < levels && levels <= 8 {
        short_halves(work, xs, tables, levels);
    } else if levels > 8 {
        let half = xs.len() / 2;
        let (lo, hi) = xs.split_at_mut(half);
        let (twiddles, rest) = tables.split_at(half);
        butterflies(work, lo, hi, twiddles);
        halves(work, lo, rest, levels - 1);
        halves(work, hi, rest, levels - 1);
    }
}

// The transform of `halves` at the table's root. Once its twiddles have been read, those of the levels below take their
// places, so that each level reads its own one after the other.
fn first_halves<F: FftField, T: Summand<F>>(
    work: &mut Work,
    xs: &mut [T],
    table: &mut [F],
    levels: u32,
)
    requires size { length xs.old ≡ 2 ^ levels }
    requires half { length table.old ≡ length xs.old / 2 }
    ensures sums { (w : F) → IsHalfTable F.field w table.old → (p : ℕ) → p < 2 ^ levels
        → item T.group (map T.meaning xs.new) p ≡ dft_at F.field T.group (2 ^ levels) w
        (item T.group (map T.meaning xs.old)) (reversed levels p) }
    ensures counted { GrowsBy (butterfly_counts (2 ^ levels / 2 * levels)) work.old work.new }
{
    if levels > 0 {
        let half = xs.len() / 2;
        let (lo, hi) = xs.split_at_mut(half);
        butterflies(work, lo, hi, table);
        pack_levels(table);
        halves(work, lo, table, levels - 1);
        halves(work, hi, table, levels - 1);
    }
}

// The transform at the table's root, in place and in order.
pub(crate) fn in_order<F: FftField, T: Summand<F>>(
    work: &mut Work,
    xs: &mut [T],
    table: &mut [F],
    levels: u32,
)
    requires size { length xs.old ≡ 2 ^ levels }
    requires fits { length xs.old < 2 ^ 64 }
    requires half { length table.old ≡ length xs.old / 2 }
    ensures sums { (w : F) → IsHalfTable F.field w table.old → (i : ℕ) → i < length xs.old
        → item T.group (map T.meaning xs.new) i
        ≡ dft_at F.field T.group (length xs.old) w (item T.group (map T.meaning xs.old)) i }
    ensures counted { GrowsBy (butterfly_counts (length xs.old / 2 * levels)) work.old work.new }
{
    first_halves(work, xs, table, levels);
    bit_reverse(xs, levels);
}
