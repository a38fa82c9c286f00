//! Scalings of a list's items, which shift it to a coset and back.

ghost use Rattle.std.specs.Prelude.{◌≡◌, ℕ, map, length, ◌<◌};
ghost use Rattle.ark_math.specs.Cost.{GrowsBy, counts};
ghost use Rattle.ark_math.specs.Field.{power};
ghost use Rattle.ark_math.specs.Module.{item};
ghost use Rattle.ark_fft.specs.Scalings.{GrowsByScalings};

use ark_traits::{FftField, Summand, Work};

// Scales each item.
fn scale_each<F: FftField, T: Summand<F>>(work: &mut Work, xs: &mut [T], factor: F)
    ensures items { (i : ℕ) → i < length xs.old → item T.group (map T.meaning xs.new) i
        ≡ T.group.scale factor (item T.group (map T.meaning xs.old) i) }
    ensures counted { GrowsBy (counts (length xs.old) 0 0) work.old work.new }
{
    for i in 0..xs.len() {
        work.scale(&mut xs[i], factor);
    }
}

// Scales item i by start times the factor to the i. Two sequences of powers take turns, so that no product
// waits for the last.
pub(crate) fn scale_by_powers<F: FftField, T: Summand<F>>(
    work: &mut Work,
    xs: &mut [T],
    start: F,
    factor: F,
)
    ensures items { (i : ℕ) → i < length xs.old → item T.group (map T.meaning xs.new) i
        ≡ T.group.scale (F.field.times start (power F.field factor i))
        (item T.group (map T.meaning xs.old) i) }
    ensures counted { GrowsBy (counts (length xs.old) 0 0) work.old work.new }
{
    if factor.is_one() {
        scale_each(work, xs, start);
    } else {
        let square = factor * factor;
        let mut next = start;
        let mut after = start * factor;
        for i in 0..xs.len() {
            work.scale(&mut xs[i], next);
            let later = next * square;
            next = after;
            after = later;
        }
    }
}

// Scales item i by the offset to the i, and nothing where the offset is one.
pub(crate) fn shift_to_coset<F: FftField, T: Summand<F>>(work: &mut Work, xs: &mut [T], offset: F)
    ensures items { (i : ℕ) → i < length xs.old → item T.group (map T.meaning xs.new) i
        ≡ T.group.scale (power F.field offset i) (item T.group (map T.meaning xs.old) i) }
    ensures counted { GrowsByScalings (length xs.old) work.old work.new }
{
    if !offset.is_one() {
        scale_by_powers(work, xs, F::one(), offset);
    }
}
