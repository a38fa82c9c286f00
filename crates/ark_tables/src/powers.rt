//! Powers of variables, as pairs of variable and power.

ghost use Rattle.std.specs.Prelude.{◌≡◌, ◌↔◌, ◌⊎◌, ◌==◌, ℕ, ◌+◌, ◌≤◌, ◌<◌, ◌^◌, length, if◌then◌else◌};
ghost use Rattle.std.specs.Prelude.{IfOk, IfErr, OnOk, IsOkUnless, IsTrue};
ghost use Rattle.std.specs.List.{All};
ghost use Rattle.std.specs.List.Sorted.{IsNonDecreasingBy};
ghost use Rattle.std.specs.Cmp.Lexicographic.{slice_cmp};
ghost use Rattle.ark_math.specs.Field.{power as raised};
ghost use Rattle.ark_math_variables.specs.Term.{IsTerm, IsWithin, power_of, term_value, total_degree};
ghost use Rattle.ark_tables.specs.Graded.{graded_cmp, pair_cmp};

use ark_coeffs::sparse::is_rising;
use ark_traits::{Field, PolyError};
use std::alloc::Global;
use std::cmp::Ordering;

/// The sum of all powers.
pub fn total_power(pairs: &[(usize, usize)]) -> usize
    requires { total_degree pairs.now < 2 ^ 64 }
    ensures { result ≡ total_degree pairs.now }
{
    let mut total = 0;
    for pair in pairs {
        total += pair.1;
    }
    total
}

// Whether a word can tell the sum of all powers.
fn total_fits(pairs: &[(usize, usize)]) -> bool
    ensures { IsTrue result ↔ (total_degree pairs.now < 2 ^ 64) }
{
    let mut total: usize = 0;
    for pair in pairs {
        let Some(sum) = total.checked_add(pair.1) else {
            return false;
        };
        total = sum;
    }
    true
}

// Whether no power is 0.
fn has_no_zero(pairs: &[(usize, usize)]) -> bool
    ensures { IsTrue result ↔ All (λ p. 0 < p.1) pairs.now }
{
    pairs.iter().all(|pair| pair.1 > 0)
}

/// Whether these are the pairs of a term: variables strictly rising, no power 0, and a sum that a word can
/// tell.
pub fn is_term(pairs: &[(usize, usize)]) -> bool
    ensures { IsTrue result ↔ IsTerm pairs.now }
{
    is_rising(pairs) && has_no_zero(pairs) && total_fits(pairs)
}

/// Whether all variables are below this number.
pub fn is_within(pairs: &[(usize, usize)], num_vars: usize) -> bool
    ensures { IsTrue result ↔ IsWithin num_vars pairs.now }
{
    pairs.iter().all(|pair| pair.0 < num_vars)
}

// Adds the power of a variable above the others, unless it's 0.
fn push_power(
    powers: &mut Vec<(usize, usize)>,
    variable: usize,
    power: usize,
) -> Result<(), PolyError>
    requires term { IsTerm powers.old.items }
    requires below { All (λ p. p.0 < variable) powers.old.items }
    requires fits { total_degree powers.old.items + power < 2 ^ 64 }
    ensures term { OnOk result (IsTerm powers.new.items) }
    ensures powers { OnOk result ((v : ℕ) → power_of powers.new.items v
        ≡ power_of powers.old.items v + (if variable == v then power else 0)) }
    ensures total { OnOk result (total_degree powers.new.items ≡ total_degree powers.old.items + power) }
    ensures below { OnOk result ((next : ℕ) → variable < next → All (λ p. p.0 < next) powers.new.items) }
    ensures memory { IsOkUnless result PolyError.Memory }
{
    if power != 0 {
        powers.push((variable, power))?;
    }
    Ok(())
}

// The powers of each variable summed up, without powers of 0, of pairs whose variables don't fall.
fn gathered_powers(
    alloc: Global,
    powers: &[(usize, usize)],
) -> Result<Vec<(usize, usize)>, PolyError>
    requires rising { IsNonDecreasingBy (λ p. p.0) powers.now }
    requires fits { total_degree powers.now < 2 ^ 64 }
    ensures term { IfOk result (λ t. IsTerm t.items) }
    ensures powers { IfOk result (λ t. (v : ℕ) → power_of t.items v ≡ power_of powers.now v) }
    ensures memory { IsOkUnless result PolyError.Memory }
{
    let mut gathered = Vec::new(alloc);
    let mut variable = 0;
    let mut power = 0;
    for pair in powers {
        if pair.0 != variable {
            push_power(&mut gathered, variable, power)?;
            variable = pair.0;
            power = 0;
        }
        power += pair.1;
    }
    push_power(&mut gathered, variable, power)?;
    Ok(gathered)
}

/// The one list of the product of these powers, given in any order: the powers of each variable summed up,
/// without powers of 0, by rising variables. `Overflow` exactly where the sum of all powers is past
/// `usize::MAX`, judged before memory is asked for.
pub fn collected_powers(
    alloc: Global,
    powers: Vec<(usize, usize)>,
) -> Result<Vec<(usize, usize)>, PolyError>
    ensures term { IfOk result (λ t. IsTerm t.items) }
    ensures powers { IfOk result (λ t. (v : ℕ) → power_of t.items v ≡ power_of powers.items v) }
    ensures overflow { (result ≡ Err PolyError.Overflow) ↔ (2 ^ 64 ≤ total_degree powers.items) }
    ensures errors { IfErr result (λ e. (e ≡ PolyError.Memory) ⊎ (e ≡ PolyError.Overflow)) }
{
    if !total_fits(&powers) {
        return Err(PolyError::Overflow);
    }
    let mut powers = powers;
    powers.sort_unstable_by_key(|pair| pair.0);
    gathered_powers(alloc, &powers)
}

/// The lexicographic order of terms, by the first pairs that differ: the lower variable is greater, and of
/// one variable the greater power is.
pub fn compared_pairs(s: &[(usize, usize)], t: &[(usize, usize)]) -> Ordering
    ensures { result ≡ slice_cmp pair_cmp s.now t.now }
{
    for i in 0..s.len().min(t.len()) {
        let order = t[i].0.cmp(&s[i].0).then(s[i].1.cmp(&t[i].1));
        if order != Ordering::Equal {
            return order;
        }
    }
    s.len().cmp(&t.len())
}

/// The graded order of terms: by total degree, and of equal totals by the first pairs that differ, of which
/// the one with the lower variable is greater, or else that with the greater power.
pub fn compared_powers(s: &[(usize, usize)], t: &[(usize, usize)]) -> Ordering
    requires left { total_degree s.now < 2 ^ 64 }
    requires right { total_degree t.now < 2 ^ 64 }
    ensures { result ≡ graded_cmp s.now t.now }
{
    match total_power(s).cmp(&total_power(t)) {
        Ordering::Equal => compared_pairs(s, t),
        order => order,
    }
}

// The power, by squaring from the highest bit down, so that powers of 0 and 1 take no product.
fn small_power<F: Field>(base: F, exponent: usize) -> F
    ensures { result ≡ raised F.field base exponent }
{
    let one = F::one();
    if exponent == 0 {
        return one;
    }
    let mut power = base;
    for bit in (0..exponent.ilog2()).rev() {
        // A product with one is quicker than a branch that no processor foresees.
        let factor = if (exponent >> bit) % 2 == 1 {
            base
        } else {
            one
        };
        power = power * power * factor;
    }
    power
}

/// The product of the point's items to the powers of their variables.
pub fn value_of_powers<F: Field>(pairs: &[(usize, usize)], point: &[F]) -> F
    requires { IsWithin (length point.now) pairs.now }
    ensures { result ≡ term_value F.field pairs.now point.now }
{
    let Some((first, others)) = pairs.split_first() else {
        return F::one();
    };
    let mut value = small_power(point[first.0], first.1);
    for pair in others {
        value = value * small_power(point[pair.0], pair.1);
    }
    value
}
