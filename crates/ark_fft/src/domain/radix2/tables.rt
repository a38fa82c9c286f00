//! Tables of twiddle factors: the powers of a root, and those of all levels one after the other.

ghost use Rattle.std.specs.Prelude.{◌≡◌, ℕ, IfOk};
ghost use Rattle.std.specs.Prelude.{length, get_or, take, ◌+◌, ◌*◌, ◌/◌, ◌≤◌, ◌<◌, ◌^◌};
ghost use Rattle.ark_math.specs.Field.{power};
ghost use Rattle.ark_fft.specs.Halves.{ArePowers, IsHalfTable, AreLevels};

use ark_traits::FftField;
use std::alloc::{AllocError, Global};

// Puts every second item of twice as many in front.
fn keep_every_second<F: FftField>(xs: &mut [F], half: usize)
    requires size { half * 2 ≤ length xs.old }
    ensures { (i : ℕ) → i < half → get_or xs.new i F.field.zero ≡ get_or xs.old (2 * i) F.field.zero }
{
    for i in 0..half {
        xs[i] = xs[2 * i];
    }
}

// Puts the tables of all levels below, each as many twiddles one after the other as its lists have pairs, in the place
// of the twiddles of a list.
pub(crate) fn pack_levels<F: FftField>(table: &mut [F])
    ensures { (w : F) (n : ℕ) → length table.old ≡ 2 ^ n → IsHalfTable F.field w table.old
        → AreLevels F.field (power F.field w 2) n table.new }
{
    let half = table.len() / 2;
    keep_every_second(table, half);
    continue_levels(table, half);
}

// Continues a list of powers by as many more: the known ones times the power after them.
fn continue_powers<F: FftField>(known: &[F], rest: &mut [F], count: usize, next: F)
    requires known_enough { count ≤ length known.now }
    requires rest_enough { count ≤ length rest.old }
    ensures products { (i : ℕ) → i < count → get_or rest.new i F.field.zero
        ≡ F.field.times (get_or known.now i F.field.zero) next }
{
    for i in 0..count {
        rest[i] = known[i] * next;
    }
}

// Fills a list with the powers of a root from 0 on. No product waits for the one before it.
pub(crate) fn fill_with_powers<F: FftField>(root: F, xs: &mut [F])
    ensures { ArePowers F.field root (length xs.old) xs.new }
{
    if let Some(first) = xs.first_mut() {
        *first = F::one();
    }
    let mut known = 1;
    let mut next = root;
    'double: while known < xs.len() {
        let (front, back) = xs.split_at_mut(known);
        let count = known.min(back.len());
        continue_powers(front, back, count, next);
        next = next * next;
        known += count;
    }
}

/// The powers of a root from 0 on, so many: the twiddles of a transform are those up to half its size.
pub fn powers<F: FftField>(alloc: Global, root: F, count: usize) -> Result<Vec<F>, AllocError>
    ensures { IfOk result (λ t. ArePowers F.field root count t.items) }
{
    let mut powers = Vec::new(alloc);
    powers.resize(count, F::one())?;
    fill_with_powers(root, powers.as_mut_slice());
    Ok(powers)
}

// Continues a table of twiddles by those of the squared root, every second one, and so on down to one.
fn continue_levels<F: FftField>(xs: &mut [F], half: usize)
    requires size { half * 2 ≤ length xs.old }
    ensures first { (i : ℕ) → i < half → get_or xs.new i F.field.zero ≡ get_or xs.old i F.field.zero }
    ensures seconds { (i : ℕ) → i < half → get_or xs.new (half + i) F.field.zero
        ≡ get_or xs.new (2 * i) F.field.zero }
{
    for i in 0..half {
        xs[half + i] = xs[2 * i];
    }
}

// The twiddle factors of all levels, of a list of n items down to lists of one: each has half as many powers of its
// root as its lists have items.
pub(crate) fn level_tables<F: FftField>(
    alloc: Global,
    root: F,
    n: usize,
) -> Result<Vec<F>, AllocError>
    ensures len { IfOk result (λ t. length t.items ≡ n) }
    ensures first { IfOk result (λ t. ArePowers F.field root (n / 2) (take (n / 2) t.items)) }
    ensures seconds { IfOk result (λ t. (i : ℕ) → i < n / 2 → get_or t.items (n / 2 + i) F.field.zero
        ≡ get_or t.items (2 * i) F.field.zero) }
{
    let mut tables = Vec::new(alloc);
    tables.resize(n, F::one())?;
    let xs = tables.as_mut_slice();
    fill_with_powers(root, &mut xs[..n / 2]);
    continue_levels(xs, n / 2);
    Ok(tables)
}
