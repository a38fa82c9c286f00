//! The radix 2 transform of short lists, by decimation in time (Cooley-Tukey): both halves, and then the butterflies that
//! join them.

ghost use Rattle.std.specs.Prelude.{◌≡◌, ℕ, map};
ghost use Rattle.std.specs.Prelude.{length, get_or, ◌+◌, ◌-◌, ◌*◌, ◌/◌, ◌≤◌, ◌<◌, ◌^◌};
ghost use Rattle.ark_math.specs.Field.{power};
ghost use Rattle.ark_math_transforms.proofs.Transforms.Places.{dft_at};
ghost use Rattle.ark_math_transforms.specs.BitReversal.{reversed};
ghost use Rattle.ark_fft.specs.Halves.{AreLevels};
ghost use Rattle.ark_math.specs.Module.{item};
ghost use Rattle.ark_math.specs.Cost.{GrowsBy, butterfly_counts};

use crate::domain::radix2::bit_reversal::bit_reverse;
use crate::domain::radix2::tables::fill_with_powers;
use ark_traits::{FftField, Summand, Work};

// One butterfly of a decimation in time, which joins two parts: hi times the twiddle factor, added to lo and taken from
// it.
fn join<F: FftField, T: Summand<F>>(work: &mut Work, lo: &mut T, hi: &mut T, twiddle: F)
    ensures sum { T.meaning lo.new ≡ T.group.plus (T.meaning lo.old)
        (T.group.scale twiddle (T.meaning hi.old)) }
    ensures difference { T.meaning hi.new ≡ T.group.plus (T.meaning lo.old)
        (T.group.negated (T.group.scale twiddle (T.meaning hi.old))) }
    ensures counted { GrowsBy (butterfly_counts 1) work.old work.new }
{
    let first = *lo;
    let mut product = *hi;
    work.scale(&mut product, twiddle);
    *lo = first + product;
    *hi = first - product;
    work.butterfly();
}

// The butterflies that join two halves, each with the twiddle factor at its index.
fn join_butterflies<F: FftField, T: Summand<F>>(
    work: &mut Work,
    lo: &mut [T],
    hi: &mut [T],
    twiddles: &[F],
)
    requires same { length lo.old ≡ length hi.old }
    requires enough { length lo.old ≡ length twiddles.now }
    ensures sums { (i : ℕ) → i < length lo.old → item T.group (map T.meaning lo.new) i
        ≡ T.group.plus (item T.group (map T.meaning lo.old) i)
        (T.group.scale (get_or twiddles.now i F.field.zero) (item T.group (map T.meaning hi.old) i)) }
    ensures differences { (i : ℕ) → i < length lo.old → item T.group (map T.meaning hi.new) i
        ≡ T.group.plus (item T.group (map T.meaning lo.old) i)
        (T.group.negated (T.group.scale (get_or twiddles.now i F.field.zero)
        (item T.group (map T.meaning hi.old) i))) }
    ensures counted { GrowsBy (butterfly_counts (length lo.old)) work.old work.new }
{
    for i in 0..lo.len() {
        join(work, &mut lo[i], &mut hi[i], twiddles[i]);
    }
}

// The transform of 2 ^ log_len items, in place and in order, by decimation in time. The items stand in bit-reversed
// order, each in all places of a block. The tables are those of all levels, the whole list's twiddles first.
fn join_halves<F: FftField, T: Summand<F>>(
    work: &mut Work,
    xs: &mut [T],
    tables: &[F],
    levels: u32,
    log_len: u32,
)
    requires size { length xs.old ≡ 2 ^ levels }
    requires whole { length tables.now ≡ 2 ^ levels }
    requires within { log_len ≤ levels }
    ensures sums { (w : F) (c : ℕ → T.Meaning) → AreLevels F.field w levels tables.now
        → ((p : ℕ) → p < 2 ^ levels → item T.group (map T.meaning xs.old) p
        ≡ c (reversed log_len (p / 2 ^ (levels - log_len)))) → (p : ℕ) → p < 2 ^ levels
        → item T.group (map T.meaning xs.new) p ≡ dft_at F.field T.group (2 ^ log_len) w c p }
    ensures counted { GrowsBy (butterfly_counts (2 ^ levels / 2 * log_len)) work.old work.new }
{
    if log_len > 0 {
        let half = xs.len() / 2;
        let (lo, hi) = xs.split_at_mut(half);
        let (twiddles, rest) = tables.split_at(half);
        join_halves(work, lo, rest, levels - 1, log_len - 1);
        join_halves(work, hi, rest, levels - 1, log_len - 1);
        join_butterflies(work, lo, hi, twiddles);
    }
}

// Fills the places from one to before another with the item.
fn fill<T: Copy>(xs: &mut [T], from: usize, to: usize, item: T)
    requires within { to ≤ length xs.old }
    ensures filled { (i : ℕ) (d : T) → from ≤ i → i < to → get_or xs.new i d ≡ item }
    ensures before { (i : ℕ) (d : T) → i < from → get_or xs.new i d ≡ get_or xs.old i d }
    ensures after { (i : ℕ) (d : T) → to ≤ i → get_or xs.new i d ≡ get_or xs.old i d }
{
    for i in from..to {
        xs[i] = item;
    }
}

// Fills a block of places with each of the first items, in their order.
fn spread_out<T: Copy>(xs: &mut [T], items: usize, block: usize)
    requires whole { length xs.old ≡ items * block }
    requires not_empty { 0 < block }
    ensures { (p : ℕ) (d : T) → p < length xs.old → get_or xs.new p d ≡ get_or xs.old (p / block) d }
{
    for r in (0..items).rev() {
        let item = xs[r];
        let from = r * block;
        fill(xs, from, from + block, item);
    }
}

// A pruned transform, by decimation in time: at this root, of a list of 2 ^ levels places of which the first
// 2 ^ log_len items alone are not zero.
#[derive(Drop)]
pub(crate) struct Pruned<F> {
    pub(crate) root: F,
    pub(crate) levels: u32,
    pub(crate) log_len: u32,
}

// The transform of `join_halves` at the root, where the tables are those of all levels but the last. The last one's
// twiddles take the place of these once they have been used.
fn join_levels<F: FftField, T: Summand<F>>(
    work: &mut Work,
    xs: &mut [T],
    tables: &mut [F],
    pruned: &Pruned<F>,
)
    requires size { length xs.old ≡ 2 ^ pruned.now.levels }
    requires whole { length tables.old ≡ 2 ^ pruned.now.levels / 2 }
    requires within { pruned.now.log_len ≤ pruned.now.levels }
    ensures sums { (c : ℕ → T.Meaning)
        → AreLevels F.field (power F.field pruned.now.root 2) (pruned.now.levels - 1) tables.old
        → (0 < pruned.now.levels
        → power F.field pruned.now.root (2 ^ pruned.now.levels / 2) ≡ F.field.negated F.field.one)
        → ((p : ℕ) → p < 2 ^ pruned.now.levels → item T.group (map T.meaning xs.old) p
        ≡ c (reversed pruned.now.log_len (p / 2 ^ (pruned.now.levels - pruned.now.log_len))))
        → (p : ℕ) → p < 2 ^ pruned.now.levels
        → item T.group (map T.meaning xs.new) p ≡ dft_at F.field T.group (2 ^ pruned.now.log_len) pruned.now.root c p }
    ensures counted { GrowsBy (butterfly_counts (2 ^ pruned.now.levels / 2 * pruned.now.log_len)) work.old work.new }
{
    let levels = pruned.levels;
    let log_len = pruned.log_len;
    if log_len > 0 {
        let half = xs.len() / 2;
        let (lo, hi) = xs.split_at_mut(half);
        join_halves(work, lo, tables, levels - 1, log_len - 1);
        join_halves(work, hi, tables, levels - 1, log_len - 1);
        fill_with_powers(pruned.root, tables);
        join_butterflies(work, lo, hi, tables);
    }
}

// The transform of the first items, in place and in order, by butterflies of as many levels as these have.
pub(crate) fn short_in_order<F: FftField, T: Summand<F>>(
    work: &mut Work,
    xs: &mut [T],
    tables: &mut [F],
    pruned: &Pruned<F>,
)
    requires size { length xs.old ≡ 2 ^ pruned.now.levels }
    requires fits { length xs.old < 2 ^ 64 }
    requires whole { length tables.old ≡ length xs.old / 2 }
    requires within { pruned.now.log_len ≤ pruned.now.levels }
    ensures sums { AreLevels F.field (power F.field pruned.now.root 2) (pruned.now.levels - 1) tables.old
        → (0 < pruned.now.levels
        → power F.field pruned.now.root (length xs.old / 2) ≡ F.field.negated F.field.one) → (i : ℕ)
        → i < length xs.old → item T.group (map T.meaning xs.new) i
        ≡ dft_at F.field T.group (2 ^ pruned.now.log_len) pruned.now.root (item T.group (map T.meaning xs.old)) i }
    ensures counted { GrowsBy (butterfly_counts (length xs.old / 2 * pruned.now.log_len)) work.old work.new }
{
    let log_len = pruned.log_len;
    let log_block = pruned.levels - log_len;
    let items = xs.len() >> log_block;
    bit_reverse(&mut xs[..items], log_len);
    spread_out(xs, items, 1 << log_block);
    join_levels(work, xs, tables, pruned);
}
