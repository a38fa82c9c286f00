//! The radix 2 transform (Cooley-Tukey), and its inverse: long lists go by decimation in frequency, short ones by
//! decimation in time.

ghost use Rattle.std.specs.Prelude.{◌≡◌, ℕ, IsOkUnless, IfOk, OnOk, OnErr, map};
ghost use Rattle.std.specs.Prelude.{length, ◌*◌, ◌/◌, ◌≤◌, ◌<◌, vec_len};
ghost use Rattle.ark_math.specs.Domain.{radix2};
ghost use Rattle.ark_fft.specs.Coset.{coset_domain};
ghost use Rattle.ark_math.specs.Transform.{transform, IsInverse};
ghost use Rattle.ark_fft.specs.Halves.{ArePowers};
ghost use Rattle.ark_math.specs.Module.{item};
ghost use Rattle.ark_math.specs.Cost.{forward, inverse};
ghost use Rattle.ark_fft.specs.Cost.{GrowsByCost};

use crate::domain::coset::Coset;
use crate::domain::radix2::frequency::in_order;
use crate::domain::radix2::tables::{level_tables, powers};
use crate::domain::radix2::time::{Pruned, short_in_order};
use crate::domain::scaling::{scale_by_powers, shift_to_coset};
use ark_traits::{FftField, PolyError, Summand, Work};
use std::alloc::Global;

// Takes all memory, for the first half of a root's powers and for n items, and cuts the list or fills it with zeros.
fn prepare<F: FftField, T: Summand<F>>(
    alloc: Global,
    root: F,
    n: usize,
    coeffs: &mut Vec<T>,
) -> Result<Vec<F>, PolyError>
    ensures table { IfOk result (λ t. ArePowers F.field root (n / 2) t.items) }
    ensures fitted { OnOk result ((j : ℕ) → j < n → item T.group (map T.meaning coeffs.new.items) j
        ≡ item T.group (map T.meaning coeffs.old.items) j) }
    ensures len { OnOk result (vec_len coeffs.new ≡ n) }
    ensures kept { OnErr result (coeffs.new.items ≡ coeffs.old.items) }
    ensures memory { IsOkUnless result PolyError.Memory }
{
    let table = powers(alloc, root, n / 2)?;
    coeffs.resize(n, T::zero())?;
    Ok(table)
}

// The transform in place of a list of at most a quarter of the n items, by decimation in time: n/2 butterflies for each
// level of that many items, and a scaling an item where there is an offset.
fn degree_aware_fft_in_place<F: FftField, T: Summand<F>>(
    coset: &Coset<F>,
    alloc: Global,
    coeffs: &mut Vec<T>,
    work: &mut Work,
) -> Result<(), PolyError>
    requires even { coset.now.odd_exponent ≡ 0 }
    requires short { length coeffs.old.items ≤ coset.now.size / 4 }
    ensures transform { OnOk result (map T.meaning coeffs.new.items
        ≡ transform F.field T.group (coset_domain radix2 coset.now)
        (map T.meaning coeffs.old.items)) }
    ensures cost { OnOk result (GrowsByCost F.adicity (coset_domain radix2 coset.now) (length coeffs.old.items)
        forward work.old work.new) }
    ensures kept { OnErr result (coeffs.new.items ≡ coeffs.old.items) }
    ensures uncounted { OnErr result (work.new ≡ work.old) }
    ensures memory { IsOkUnless result PolyError.Memory }
{
    let len = coeffs.len();
    let log_len = len.next_power_of_two().ilog2();
    let size = coset.size as usize;
    let root = coset.group_gen;
    let mut tables = level_tables(alloc, root * root, size / 2)?;
    coeffs.resize(size, T::zero())?;
    let xs = coeffs.as_mut_slice();
    shift_to_coset(work, &mut xs[..len], coset.offset);
    let pruned = Pruned {
        root,
        levels: coset.log_size_of_group,
        log_len,
    };
    short_in_order(work, xs, tables.as_mut_slice(), &pruned);
    Ok(())
}

// The transform in place of a longer list, by decimation in frequency: n/2 * log2(n) butterflies, and a scaling a place
// where there is an offset.
fn in_order_fft_in_place<F: FftField, T: Summand<F>>(
    coset: &Coset<F>,
    alloc: Global,
    coeffs: &mut Vec<T>,
    work: &mut Work,
) -> Result<(), PolyError>
    requires even { coset.now.odd_exponent ≡ 0 }
    requires long { coset.now.size / 4 < length coeffs.old.items }
    ensures transform { OnOk result (map T.meaning coeffs.new.items
        ≡ transform F.field T.group (coset_domain radix2 coset.now)
        (map T.meaning coeffs.old.items)) }
    ensures cost { OnOk result (GrowsByCost F.adicity (coset_domain radix2 coset.now) (length coeffs.old.items)
        forward work.old work.new) }
    ensures kept { OnErr result (coeffs.new.items ≡ coeffs.old.items) }
    ensures uncounted { OnErr result (work.new ≡ work.old) }
    ensures memory { IsOkUnless result PolyError.Memory }
{
    let mut table = prepare(alloc, coset.group_gen, coset.size as usize, coeffs)?;
    let xs = coeffs.as_mut_slice();
    shift_to_coset(work, xs, coset.offset);
    in_order(work, xs, table.as_mut_slice(), coset.log_size_of_group);
    Ok(())
}

/// The transform in place, by fewer levels of butterflies where the list has at most a quarter of the n items.
pub fn fft_counted<F: FftField, T: Summand<F>>(
    coset: &Coset<F>,
    alloc: Global,
    coeffs: &mut Vec<T>,
    work: &mut Work,
) -> Result<(), PolyError>
    requires even { coset.now.odd_exponent ≡ 0 }
    ensures transform { OnOk result (map T.meaning coeffs.new.items
        ≡ transform F.field T.group (coset_domain radix2 coset.now)
        (map T.meaning coeffs.old.items)) }
    ensures cost { OnOk result (GrowsByCost F.adicity (coset_domain radix2 coset.now) (length coeffs.old.items)
        forward work.old work.new) }
    ensures kept { OnErr result (coeffs.new.items ≡ coeffs.old.items) }
    ensures uncounted { OnErr result (work.new ≡ work.old) }
    ensures memory { IsOkUnless result PolyError.Memory }
{
    if coeffs.len() <= coset.size as usize / 4 {
        degree_aware_fft_in_place(coset, alloc, coeffs, work)
    } else {
        in_order_fft_in_place(coset, alloc, coeffs, work)
    }
}

/// The inverse of the transform in place, by n/2 * log2(n) butterflies at the inverse root and one scaling a place.
pub fn ifft_counted<F: FftField, T: Summand<F>>(
    coset: &Coset<F>,
    alloc: Global,
    evals: &mut Vec<T>,
    work: &mut Work,
) -> Result<(), PolyError>
    requires even { coset.now.odd_exponent ≡ 0 }
    ensures inverse { OnOk result (IsInverse F.field T.group
        (coset_domain radix2 coset.now) (map T.meaning evals.old.items)
        (map T.meaning evals.new.items)) }
    ensures cost { OnOk result (GrowsByCost F.adicity (coset_domain radix2 coset.now) (length evals.old.items)
        inverse work.old work.new) }
    ensures kept { OnErr result (evals.new.items ≡ evals.old.items) }
    ensures uncounted { OnErr result (work.new ≡ work.old) }
    ensures memory { IsOkUnless result PolyError.Memory }
{
    let mut table = prepare(alloc, coset.group_gen_inv, coset.size as usize, evals)?;
    let xs = evals.as_mut_slice();
    in_order(work, xs, table.as_mut_slice(), coset.log_size_of_group);
    scale_by_powers(work, xs, coset.size_inv, coset.offset_inv);
    Ok(())
}
