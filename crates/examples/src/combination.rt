//! A linear combination of two polynomials, written once for all forms.

ghost use Rattle.std.specs.Prelude.{◌≡◌, IfOk, IsOkUnless};

use ark_base::{Field, PolyError};
use ark_poly::Polynomial;
use std::alloc::Global;

/// `a * left + b * right`, of two polynomials that can be added, in any form and in any number of variables: at each
/// point where both have a value it has the same combination of the two values.
pub fn combination<F: Field, P: Polynomial<F>>(
    alloc: Global,
    a: F,
    left: &P,
    b: F,
    right: &P,
) -> Result<P, PolyError>
    requires { P.addable (P.meaning left.now) (P.meaning right.now) }
    ensures value { IfOk result (λ p. (x : P.Point) (y z : F) → P.has_value (P.meaning left.now) x y
        → P.has_value (P.meaning right.now) x z
        → P.has_value (P.meaning p) x (F.field.plus (F.field.times a y) (F.field.times b z))) }
    ensures memory { IsOkUnless result PolyError.Memory }
{
    let mut sum = P::zero(alloc)?;
    sum.add_assign_scaled(alloc, a, left)?;
    sum.add_assign_scaled(alloc, b, right)?;
    Ok(sum)
}
