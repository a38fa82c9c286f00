//! The first round of a sum-check over the values of a table, what is claimed of the next one, and the last value.

ghost use Rattle.std.specs.Prelude.{◌≡◌, ◌<◌, length, IfOk, IsOkUnless};
ghost use Rattle.ark_math.specs.Field.{minus};
ghost use Rattle.ark_math.specs.Module.{itself, sum_below};
ghost use Rattle.ark_math_variables.specs.Multilinear.{Table, extension};
ghost use Rattle.ark_math.specs.Univariate.{of_list};
ghost use Rattle.examples.specs.SumCheck.{sum_of_all, sum_of_others};

use ark_base::{Field, PolyError};
use ark_poly::MultilinearExtension;
use std::alloc::Global;

/// The two numbers that a prover sends: the sums over the other variables where the first one is zero, and where it is
/// one. They add up to the sum of the whole table, which is what the verifier tests.
pub fn first_round<F: Field, E: MultilinearExtension<F>>(
    alloc: Global,
    table: &E,
) -> Result<(F, F), PolyError>
    requires variables { 0 < (E.table table.now).variables }
    ensures zero { IfOk result (λ g. g.0 ≡ sum_of_others F.field (E.table table.now) F.field.zero) }
    ensures one { IfOk result (λ g. g.1 ≡ sum_of_others F.field (E.table table.now) F.field.one) }
    ensures claim { IfOk result (λ g. F.field.plus g.0 g.1 ≡ sum_of_all F.field (E.table table.now)) }
    ensures memory { IsOkUnless result PolyError.Memory }
{
    Ok((
        sum_over_others(alloc, table, F::zero())?,
        sum_over_others(alloc, table, F::one())?,
    ))
}

/// What is claimed of the next round, where the prover sent these two numbers and the verifier has drawn `x`: the
/// value at `x` of the line through them. Of an honest prover's numbers it is the sum over the other variables where
/// the first one is `x`.
pub fn next_claim<F: Field>(low: F, high: F, x: F) -> F
    ensures line { result ≡ F.field.plus low (F.field.times x (minus F.field high low)) }
    ensures honest { (t : Table F) → low ≡ sum_of_others F.field t F.field.zero
        → high ≡ sum_of_others F.field t F.field.one → result ≡ sum_of_others F.field t x }
{
    low + x * (high - low)
}

/// The sum over the other variables where the first one is `x`: the polynomial of the round, at `x`.
pub fn sum_over_others<F: Field, E: MultilinearExtension<F>>(
    alloc: Global,
    table: &E,
    x: F,
) -> Result<F, PolyError>
    requires variables { 0 < (E.table table.now).variables }
    ensures sum { IfOk result (λ y. y ≡ sum_of_others F.field (E.table table.now) x) }
    ensures memory { IsOkUnless result PolyError.Memory }
{
    let mut first = Vec::new(alloc);
    first.push(x)?;
    let rest = table.fix_variables(alloc, &first)?;
    Ok(sum(&rest.to_evaluations(alloc)?))
}

/// The value at the point of all that the verifier has drawn, which the last claim is compared with.
pub fn last_value<F: Field, E: MultilinearExtension<F>>(
    alloc: Global,
    table: &E,
    drawn: &Vec<F>,
) -> Result<F, PolyError>
    requires { length drawn.now.items ≡ (E.table table.now).variables }
    ensures value { IfOk result (λ y. y ≡ extension F.field (E.table table.now).value drawn.now.items) }
    ensures memory { IsOkUnless result PolyError.Memory }
{
    table.evaluate(alloc, drawn)
}

fn sum<F: Field>(values: &[F]) -> F
    ensures { result ≡ sum_below (itself F.field) (length values.now) (of_list F.field values.now) }
{
    let mut sum = F::zero();
    for value in values {
        sum += *value;
    }
    sum
}
