//! The transform by plain sums, to compare the kernel with.

ghost use Rattle.std.specs.Prelude.{◌≡◌, ℕ, IsOkUnless, OnOk, OnErr, map, length, ◌+◌, ◌*◌, ◌<◌};
ghost use Rattle.ark_math.specs.Cost.{GrowsBy, counts};
ghost use Rattle.ark_math.specs.Domain.{radix2};
ghost use Rattle.ark_fft.specs.Coset.{coset_domain};
ghost use Rattle.ark_math.specs.Field.{power};
ghost use Rattle.ark_math.specs.Module.{item};
ghost use Rattle.ark_math.specs.Transform.{transform, value_at};

use crate::domain::coset::Coset;
use ark_traits::{FftField, PolyError, Summand, Work};
use std::alloc::Global;

// The value of a list at a point, term by term.
fn plain_value<F: FftField, T: Summand<F>>(work: &mut Work, items: &[T], point: F) -> T
    ensures value { T.meaning result ≡ value_at F.field T.group (map T.meaning items.now) point }
    ensures counted { GrowsBy (counts (length items.now) 0 0) work.old work.new }
{
    let mut sum = T::zero();
    let mut factor = F::one();
    for i in 0..items.len() {
        let mut term = items[i];
        work.scale(&mut term, factor);
        sum += term;
        factor = factor * point;
    }
    sum
}

// The values of a list at the points `offset * root^i`, each by a plain sum.
fn plain_values<F: FftField, T: Summand<F>>(
    work: &mut Work,
    items: &[T],
    values: &mut [T],
    offset: F,
    root: F,
)
    ensures values { (i : ℕ) → i < length values.old → item T.group (map T.meaning values.new) i
        ≡ value_at F.field T.group (map T.meaning items.now) (F.field.times offset (power F.field root i)) }
    ensures counted { GrowsBy (counts (length values.old * length items.now) 0 0) work.old work.new }
{
    let mut point = offset;
    for i in 0..values.len() {
        values[i] = plain_value(work, items, point);
        point = point * root;
    }
}

/// The transform in place by n plain sums, and so by n * n products.
pub fn fft_plain<F: FftField, T: Summand<F>>(
    coset: &Coset<F>,
    alloc: Global,
    coeffs: &mut Vec<T>,
    work: &mut Work,
) -> Result<(), PolyError>
    ensures transform { OnOk result (map T.meaning coeffs.new.items
        ≡ transform F.field T.group (coset_domain radix2 coset.now)
        (map T.meaning coeffs.old.items)) }
    ensures counted { OnOk result (GrowsBy (counts (coset.now.size * coset.now.size) 0 0) work.old work.new) }
    ensures kept { OnErr result (coeffs.new.items ≡ coeffs.old.items) }
    ensures uncounted { OnErr result (work.new ≡ work.old) }
    ensures memory { IsOkUnless result PolyError.Memory }
{
    let size = coset.size as usize;
    let mut values = Vec::with_capacity(alloc, size)?;
    values.resize(size, T::zero())?;
    coeffs.resize(size, T::zero())?;
    plain_values(
        work,
        coeffs.as_slice(),
        values.as_mut_slice(),
        coset.offset,
        coset.group_gen,
    );
    *coeffs = values;
    Ok(())
}
