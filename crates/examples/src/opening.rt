//! An opening: a polynomial's value at a point, and the quotient that shows it.

ghost use Rattle.std.specs.Prelude.{◌≡◌, IfOk};
ghost use Rattle.ark_math_polynomials.specs.Linear.{constant, linear_factor};
ghost use Rattle.ark_math.specs.Outcome.{IsOkUnlessEither};
ghost use Rattle.ark_math.specs.Univariate.{IsValue, added, of_list, product};

use ark_base::{Field, PolyError};
use ark_poly::laws::division_at_point;
use ark_poly::univariate::DensePolynomial;
use std::alloc::Global;

/// The value at a point z, and the quotient by x - z of what is left of the polynomial without it: what the prover of a
/// commitment scheme opens.
pub fn opening<F: Field>(
    alloc: Global,
    polynomial: &DensePolynomial<F>,
    point: F,
) -> Result<(F, DensePolynomial<F>), PolyError>
    ensures value { IfOk result (λ o. IsValue F.field (of_list F.field polynomial.now) point o.0) }
    ensures opened { IfOk result (λ o. of_list F.field polynomial.now ≡ added F.field
        (product F.field (of_list F.field o.1) (linear_factor F.field point)) (constant F.field o.0)) }
    ensures errors { IsOkUnlessEither result PolyError.Memory PolyError.Overflow }
{
    let (quotient, _, value) = division_at_point(alloc, polynomial, point)?;
    Ok((value, quotient))
}
