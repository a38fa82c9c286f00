//! The mixed radix transform (Cooley-Tukey), and its inverse: by decimation in time as often as the length has the odd
//! base, each time with twiddle factors, and what is left by halves.

ghost use Rattle.std.specs.Prelude.{◌≡◌, ◌≢◌, ℕ, true, false, IsSome, IsOkUnless, IfOk, OnOk, OnErr, List};
ghost use Rattle.std.specs.Prelude.{map, length, get_or, ◌+◌, ◌-◌, ◌*◌, ◌/◌, ◌≤◌, ◌<◌, ◌^◌, vec_len};
ghost use Rattle.ark_math.specs.Domain.{mixed_radix};
ghost use Rattle.ark_fft.specs.Coset.{coset_domain};
ghost use Rattle.ark_math.specs.Field.{FieldOn, power};
ghost use Rattle.ark_math.specs.Root.{HasOrder, odd_base};
ghost use Rattle.ark_math.specs.Transform.{transform, IsInverse};
ghost use Rattle.ark_math_transforms.proofs.Transforms.Places.{dft_at};
ghost use Rattle.ark_math_transforms.specs.BitReversal.{reversed};
ghost use Rattle.ark_fft.specs.Halves.{ArePowers, AreLevels};
ghost use Rattle.ark_fft.specs.Mixed.{IsLevel, IsPlan, IsPowerTable, joined, mixed_counts};
ghost use Rattle.ark_math.specs.Module.{ModuleOn, item, sum_below};
ghost use Rattle.ark_math.specs.Cost.{GrowsBy, counts, butterfly_counts, forward, inverse};
ghost use Rattle.ark_fft.specs.Cost.{GrowsByCost};

use crate::domain::coset::Coset;
use crate::domain::mixed_radix::size::odd_base;
use crate::domain::radix2::bit_reversal::bit_reverse;
use crate::domain::radix2::frequency::halves;
use crate::domain::radix2::tables::{level_tables, powers};
use crate::domain::scaling::{scale_by_powers, shift_to_coset};
use ark_traits::{FftField, PolyError, Summand, Work};
use std::alloc::{AllocError, Global};

// One level of a decimation in time by the odd base: a list is `base` parts of so many items, one after the other, and
// its own root is this power of the root whose powers are known.
#[derive(Drop)]
struct Level<'a, F> {
    roots: &'a [F],
    stride: usize,
    base: usize,
    part_len: usize,
}

// The sum of the parts' values at one place, times the powers of the factor, by Horner's rule. The last part's is at
// index `last`.
fn horner_sum<F: FftField, T: Summand<F>>(
    work: &mut Work,
    parts: &[T],
    level: &Level<'_, F>,
    factor: F,
    last: usize,
) -> T
    requires base_not_zero { 0 < level.now.base }
    requires rows { (level.now.base - 1) * level.now.part_len ≤ last }
    requires inside { last < length parts.now }
    ensures counted { GrowsBy (counts (level.now.base - 1) 0 0) work.old work.new }
    ensures sum { (i : ℕ) → last ≡ (level.now.base - 1) * level.now.part_len + i → T.meaning result
        ≡ sum_below T.group level.now.base (λ r. T.group.scale (power F.field factor r)
        (item T.group (map T.meaning parts.now) (r * level.now.part_len + i))) }
{
    let m = level.part_len;
    let mut sum = parts[last];
    let mut place = last;
    for _r in 1..level.base {
        place -= m;
        work.scale(&mut sum, factor);
        sum += parts[place];
    }
    sum
}

// The twiddles of one place: part r's item there times the power r of the place's own. A step in the count.
fn apply_twiddles<F: FftField, T: Summand<F>>(
    work: &mut Work,
    parts: &mut [T],
    level: &Level<'_, F>,
    i: usize,
)
    requires level { IsLevel level.now }
    requires parts_size { length parts.old ≡ level.now.base * level.now.part_len }
    requires place { i < level.now.part_len }
    ensures counted { GrowsBy (counts (level.now.base - 1) 0 1) work.old work.new }
    ensures twisted { get_or level.now.roots.now 0 F.field.zero ≡ F.field.one → (r : ℕ) → r < level.now.base
        → item T.group (map T.meaning parts.new) (r * level.now.part_len + i)
        ≡ T.group.scale (get_or level.now.roots.now (r * i * level.now.stride) F.field.zero)
        (item T.group (map T.meaning parts.old) (r * level.now.part_len + i)) }
    ensures other_places { (r k : ℕ) → k < level.now.part_len → k ≢ i
        → item T.group (map T.meaning parts.new) (r * level.now.part_len + k)
        ≡ item T.group (map T.meaning parts.old) (r * level.now.part_len + k) }
{
    let roots = level.roots;
    let m = level.part_len;
    let turn = i * level.stride;
    let mut place = i;
    let mut at = 0;
    for _r in 1..level.base {
        place += m;
        at += turn;
        work.scale(&mut parts[place], roots[at]);
    }
    work.step();
}

// The twiddles of all places.
fn apply_all_twiddles<F: FftField, T: Summand<F>>(
    work: &mut Work,
    parts: &mut [T],
    level: &Level<'_, F>,
)
    requires level { IsLevel level.now }
    requires parts_size { length parts.old ≡ level.now.base * level.now.part_len }
    ensures counted { GrowsBy (counts ((level.now.base - 1) * level.now.part_len) 0 level.now.part_len)
        work.old work.new }
    ensures twisted { get_or level.now.roots.now 0 F.field.zero ≡ F.field.one → (r i : ℕ) → r < level.now.base
        → i < level.now.part_len
        → item T.group (map T.meaning parts.new) (r * level.now.part_len + i)
        ≡ T.group.scale (get_or level.now.roots.now (r * i * level.now.stride) F.field.zero)
        (item T.group (map T.meaning parts.old) (r * level.now.part_len + i)) }
{
    for i in 0..level.part_len {
        apply_twiddles(work, parts, level, i);
    }
}

// Row j of the whole: at each place the sum of the parts' items, times the powers of the row's root of unity, whose
// order is the base.
fn sum_row<F: FftField, T: Summand<F>>(
    work: &mut Work,
    parts: &[T],
    whole: &mut [T],
    level: &Level<'_, F>,
    j: usize,
)
    requires level { IsLevel level.now }
    requires parts_size { length parts.now ≡ level.now.base * level.now.part_len }
    requires whole_size { length whole.old ≡ level.now.base * level.now.part_len }
    requires not_empty { 0 < level.now.part_len }
    requires row { j < level.now.base }
    ensures counted { GrowsBy (counts ((level.now.base - 1) * level.now.part_len) 0 0) work.old work.new }
    ensures sums { (i : ℕ) → i < level.now.part_len
        → item T.group (map T.meaning whole.new) (j * level.now.part_len + i)
        ≡ sum_below T.group level.now.base (λ r. T.group.scale
        (power F.field (get_or level.now.roots.now (j * (level.now.part_len * level.now.stride)) F.field.zero) r)
        (item T.group (map T.meaning parts.now) (r * level.now.part_len + i))) }
    ensures other_rows { (k i : ℕ) → i < level.now.part_len → k ≢ j
        → item T.group (map T.meaning whole.new) (k * level.now.part_len + i)
        ≡ item T.group (map T.meaning whole.old) (k * level.now.part_len + i) }
{
    let m = level.part_len;
    let leap = m * level.stride;
    let factor = level.roots[j * leap];
    let row = j * m;
    let last = (level.base - 1) * m;
    for i in 0..m {
        whole[row + i] = horner_sum(work, parts, level, factor, last + i);
    }
}

// Joins the parts: a transform of as many items as the base at each place, after its twiddles.
fn join<F: FftField, T: Summand<F>>(
    work: &mut Work,
    parts: &mut [T],
    whole: &mut [T],
    level: &Level<'_, F>,
)
    requires level { IsLevel level.now }
    requires parts_size { length parts.old ≡ level.now.base * level.now.part_len }
    requires whole_size { length whole.old ≡ level.now.base * level.now.part_len }
    ensures counted { GrowsBy (counts ((level.now.base * level.now.base - 1) * level.now.part_len)
        0 level.now.part_len) work.old work.new }
    ensures joined { get_or level.now.roots.now 0 F.field.zero ≡ F.field.one → (j i : ℕ) → j < level.now.base
        → i < level.now.part_len
        → item T.group (map T.meaning whole.new) (j * level.now.part_len + i)
        ≡ joined F.field T.group level.now.roots.now level.now.base level.now.part_len level.now.stride
        (item T.group (map T.meaning parts.old)) j i }
{
    apply_all_twiddles(work, parts, level);
    if level.part_len > 0 {
        for j in 0..level.base {
            sum_row(work, parts, whole, level, j);
        }
    }
}

// Deals the items out in turn: part r gets those at r, r + base, ..
fn deinterleave<T: Copy>(whole: &[T], parts: &mut [T], base: usize, m: usize)
    requires whole_size { length whole.now ≡ base * m }
    requires parts_size { length parts.old ≡ base * m }
    requires base_not_zero { 0 < base }
    ensures { (r i : ℕ) (d : T) → r < base → i < m → get_or parts.new (r * m + i) d
        ≡ get_or whole.now (base * i + r) d }
{
    for r in 0..base {
        for i in 0..m {
            parts[r * m + i] = whole[base * i + r];
        }
    }
}

// The transform of a list of 2 ^ levels items. The tables are those of all levels, if there is one.
fn even_transform<F: FftField, T: Summand<F>>(
    work: &mut Work,
    xs: &mut [T],
    tables: &[F],
    levels: u32,
)
    requires size { length xs.old ≡ 2 ^ levels }
    requires whole { 0 < levels → length tables.now ≡ 2 ^ levels }
    requires small { length xs.old < 2 ^ 64 }
    ensures counted { GrowsBy (butterfly_counts (levels * length xs.old / 2)) work.old work.new }
    ensures transformed { (v : F) → AreLevels F.field v levels tables.now → (i : ℕ) → i < length xs.old
        → item T.group (map T.meaning xs.new) i
        ≡ dft_at F.field T.group (length xs.old) v (item T.group (map T.meaning xs.old)) i }
{
    if levels > 0 {
        halves(work, xs, tables, levels);
        bit_reverse(xs, levels);
    }
}

// A transform of mixed radix of lists of 2 ^ levels * base ^ odds items: the powers of the whole list's root, of which
// a list's own is the power `stride`, and the tables of all levels, if there is one, of the lists that are left once a
// list is parted as often as its length has the base.
#[derive(Drop)]
struct Plan<'a, F> {
    roots: &'a [F],
    stride: usize,
    base: usize,
    odds: u32,
    levels: u32,
    tables: &'a [F],
}

// The transform of a list, with as many items to work in.
fn mixed<F: FftField, T: Summand<F>>(
    work: &mut Work,
    xs: &mut [T],
    scratch: &mut [T],
    plan: &Plan<'_, F>,
)
    requires plan { IsPlan plan.now (length xs.old) }
    requires scratch_size { length scratch.old ≡ length xs.old }
    ensures counted { GrowsBy (mixed_counts plan.now.base (plan.now.levels * length xs.old / 2)
        (plan.now.odds * (length xs.old / plan.now.base))) work.old work.new }
    ensures transformed { (w : F) → IsPowerTable F.field w plan.now.roots.now
        → AreLevels F.field (power F.field w (plan.now.stride * plan.now.base ^ plan.now.odds)) plan.now.levels
        plan.now.tables.now → (i : ℕ) → i < length xs.old → item T.group (map T.meaning xs.new) i
        ≡ dft_at F.field T.group (length xs.old) (power F.field w plan.now.stride)
        (item T.group (map T.meaning xs.old)) i }
{
    let base = plan.base;
    if plan.odds > 0 {
        let m = xs.len() / base;
        deinterleave(xs, scratch, base, m);
        let of_parts = Plan {
            roots: plan.roots,
            stride: plan.stride * base,
            base,
            odds: plan.odds - 1,
            levels: plan.levels,
            tables: plan.tables,
        };
        for r in 0..base {
            let from = r * m;
            mixed(
                work,
                &mut scratch[from..from + m],
                &mut xs[from..from + m],
                &of_parts,
            );
        }
        let level = Level {
            roots: plan.roots,
            stride: plan.stride,
            base,
            part_len: m,
        };
        join(work, scratch, xs, &level);
    } else {
        even_transform(work, xs, plan.tables, plan.levels);
    }
}

// The tables of all levels of the lists that are left once a list is parted as often as its length has the odd base;
// none where these have one item.
fn even_tables<F: FftField>(alloc: Global, coset: &Coset<F>, root: F) -> Result<Vec<F>, AllocError>
    ensures len { IfOk result (λ t. 0 < coset.now.log_size_of_group
        → length t.items ≡ 2 ^ coset.now.log_size_of_group) }
    ensures levels { HasOrder F.field root coset.now.size → IfOk result (λ t. AreLevels F.field
        (power F.field root (odd_base F.adicity.odd ^ coset.now.odd_exponent))
        coset.now.log_size_of_group t.items) }
{
    let log_len = coset.log_size_of_group;
    if log_len == 0 {
        return Ok(Vec::new(alloc));
    }
    level_tables(alloc, root.pow(coset.size >> log_len), 1 << log_len)
}

// Takes all memory, for a root's powers, for n items to work in and for n items, and cuts the list or fills it with
// zeros.
fn prepare<F: FftField, T: Summand<F>>(
    alloc: Global,
    root: F,
    n: usize,
    coeffs: &mut Vec<T>,
) -> Result<(Vec<F>, Vec<T>), PolyError>
    ensures table { IfOk result (λ p. ArePowers F.field root n p.0.items) }
    ensures scratch { IfOk result (λ p. vec_len p.1 ≡ n) }
    ensures fitted { OnOk result ((j : ℕ) → j < n → item T.group (map T.meaning coeffs.new.items) j
        ≡ item T.group (map T.meaning coeffs.old.items) j) }
    ensures len { OnOk result (vec_len coeffs.new ≡ n) }
    ensures kept { OnErr result (coeffs.new.items ≡ coeffs.old.items) }
    ensures memory { IsOkUnless result PolyError.Memory }
{
    let table = powers(alloc, root, n)?;
    let mut scratch = Vec::with_capacity(alloc, n)?;
    scratch.resize(n, T::zero())?;
    coeffs.resize(n, T::zero())?;
    Ok((table, scratch))
}

/// The transform in place, by a butterfly for each pair of places and factor of two, a step for each base places
/// and factor of the base, and a scaling a place where there is an offset.
pub fn fft_counted<F: FftField, T: Summand<F>>(
    coset: &Coset<F>,
    alloc: Global,
    coeffs: &mut Vec<T>,
    work: &mut Work,
) -> Result<(), PolyError>
    requires based { IsSome F.adicity.odd }
    ensures transform { OnOk result (map T.meaning coeffs.new.items
        ≡ transform F.field T.group (coset_domain mixed_radix coset.now) (map T.meaning coeffs.old.items)) }
    ensures cost { OnOk result (GrowsByCost F.adicity
        (coset_domain mixed_radix coset.now) (length coeffs.old.items)
        forward work.old work.new) }
    ensures kept { OnErr result (coeffs.new.items ≡ coeffs.old.items) }
    ensures uncounted { OnErr result (work.new ≡ work.old) }
    ensures memory { IsOkUnless result PolyError.Memory }
{
    let (base, _) = odd_base::<F>().unwrap();
    let tables = even_tables(alloc, coset, coset.group_gen)?;
    let (table, mut scratch) = prepare(alloc, coset.group_gen, coset.size as usize, coeffs)?;
    let xs = coeffs.as_mut_slice();
    shift_to_coset(work, xs, coset.offset);
    let plan = Plan {
        roots: table.as_slice(),
        stride: 1,
        base: base as usize,
        odds: coset.odd_exponent,
        levels: coset.log_size_of_group,
        tables: tables.as_slice(),
    };
    mixed(work, xs, scratch.as_mut_slice(), &plan);
    Ok(())
}

/// The inverse of the transform in place, by as many butterflies and steps at the inverse root and one scaling a place.
pub fn ifft_counted<F: FftField, T: Summand<F>>(
    coset: &Coset<F>,
    alloc: Global,
    evals: &mut Vec<T>,
    work: &mut Work,
) -> Result<(), PolyError>
    requires based { IsSome F.adicity.odd }
    ensures inverse { OnOk result (IsInverse F.field T.group
        (coset_domain mixed_radix coset.now)
        (map T.meaning evals.old.items) (map T.meaning evals.new.items)) }
    ensures cost { OnOk result (GrowsByCost F.adicity
        (coset_domain mixed_radix coset.now) (length evals.old.items)
        inverse work.old work.new) }
    ensures kept { OnErr result (evals.new.items ≡ evals.old.items) }
    ensures uncounted { OnErr result (work.new ≡ work.old) }
    ensures memory { IsOkUnless result PolyError.Memory }
{
    let (base, _) = odd_base::<F>().unwrap();
    let tables = even_tables(alloc, coset, coset.group_gen_inv)?;
    let (table, mut scratch) = prepare(alloc, coset.group_gen_inv, coset.size as usize, evals)?;
    let xs = evals.as_mut_slice();
    let plan = Plan {
        roots: table.as_slice(),
        stride: 1,
        base: base as usize,
        odds: coset.odd_exponent,
        levels: coset.log_size_of_group,
        tables: tables.as_slice(),
    };
    mixed(work, xs, scratch.as_mut_slice(), &plan);
    scale_by_powers(work, xs, coset.size_inv, coset.offset_inv);
    Ok(())
}
