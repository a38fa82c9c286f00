//! The value of a prover's sum at a point.

ghost use Rattle.std.specs.Prelude.{◌≡◌, length, IfOk, IsOkUnless};
ghost use Rattle.ark_sum_check.specs.Cube.{sum_value};
ghost use Rattle.ark_sum_check.specs.Embedded.{embedded_sum};
ghost use Rattle.ark_sum_check.specs.Provers.{sum_of, variables_of};

use ark_extensions::ExtensionOf;
use ark_sum_check::{Prover, SumCheckError};
use ark_traits::Field;
use std::alloc::Global;

/// The value at a point of the field.
pub fn value_at_point<F: Field>(
    alloc: Global,
    prover: Prover<F>,
    point: &[F],
) -> Result<F, SumCheckError>
    requires { length point.now ≡ variables_of prover }
    ensures value { IfOk result (λ value. value ≡ sum_value F.field (sum_of F.field prover) point.now) }
    ensures memory { IsOkUnless result SumCheckError.Memory }
{
    let mut left = prover;
    for i in 0..point.len() {
        left.bind(point[i]);
    }
    left.last_value(alloc)
}

/// The value at a point of a field that this one lies in.
pub fn value_within<F: Field, E: ExtensionOf<F>>(
    alloc: Global,
    prover: &Prover<F>,
    point: &[E],
) -> Result<E, SumCheckError>
    requires { length point.now ≡ variables_of prover.now }
    ensures value { IfOk result (λ value. value
        ≡ sum_value E.field (embedded_sum E.within (sum_of F.field prover.now)) point.now) }
    ensures memory { IsOkUnless result SumCheckError.Memory }
{
    let Some((first, others)) = point.split_first() else {
        let value = prover.last_value(alloc)?;
        return Ok(E::embed(value));
    };
    let left = prover.bind_within(alloc, *first)?;
    value_at_point(alloc, left, others)
}
