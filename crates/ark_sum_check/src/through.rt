//! The value anywhere of the polynomial with given values at 0, 1, .., d.

ghost use Rattle.std.specs.Prelude.{◌≡◌, ◌⊎◌, ℕ, ◌+◌, ◌<◌, ◌≤◌, length, IfErr, IfOk, Err};
ghost use Rattle.ark_math.specs.Field.{minus, natural};
ghost use Rattle.ark_math.specs.Univariate.{of_list};
ghost use Rattle.ark_sum_check.specs.Rounds.{AreDifferent, IsValueThrough};

use crate::error::SumCheckError;
use ark_traits::Field;
use std::alloc::Global;

// Replaces each of the first items by what a line through it and the next one has at `x`: the lines go
// through points that are as far apart as `inverse` is the inverse of.
fn along_lines<F: Field>(partials: &mut [F], count: usize, inverse: F, x: F)
    requires { count < length partials.old }
    ensures { (i : ℕ) → i < count → of_list F.field partials.new i
        ≡ F.field.plus (of_list F.field partials.old i)
        (F.field.times (F.field.times (minus F.field x (natural F.field i)) inverse)
        (minus F.field (of_list F.field partials.old (i + 1)) (of_list F.field partials.old i))) }
{
    for i in 0..count {
        let value = partials[i];
        partials[i] = value + (x - F::from(i as u64)) * inverse * (partials[i + 1] - value);
    }
}

// The value at `x` of the polynomial with these values at 0, 1 and so on. The list is used up: after n steps
// each item is the value at `x` of the polynomial through n + 1 neighbours.
fn value_in_place<F: Field>(partials: &mut [F], x: F) -> Result<F, SumCheckError>
    requires not_empty { 0 < length partials.old }
    ensures value { IfOk result (λ y. IsValueThrough F.field partials.old x y) }
    ensures different { IfOk result (λ y. AreDifferent F.field (length partials.old)) }
    ensures error { IfErr result (λ e. e ≡ SumCheckError.SmallCharacteristic) }
    ensures small { result ≡ Err SumCheckError.SmallCharacteristic → AreDifferent F.field (length partials.old) → ⊥ }
{
    let len = partials.len();
    for apart in 1..len {
        let Some(inverse) = F::from(apart as u64).inverse() else {
            return Err(SumCheckError::SmallCharacteristic);
        };
        along_lines(partials, len - apart, inverse, x);
    }
    Ok(partials[0])
}

// The value at `x` of the polynomial of degree below the number of values that has these values at 0, 1 and
// so on.
pub(crate) fn value_through<F: Field>(alloc: Global, values: &[F], x: F) -> Result<F, SumCheckError>
    requires not_empty { 0 < length values.now }
    ensures value { IfOk result (λ y. IsValueThrough F.field values.now x y) }
    ensures different { IfOk result (λ y. AreDifferent F.field (length values.now)) }
    ensures small { result ≡ Err SumCheckError.SmallCharacteristic
        → AreDifferent F.field (length values.now) → ⊥ }
{
    let mut partials = Vec::from_slice(alloc, values)?;
    value_in_place(partials.as_mut_slice(), x)
}
