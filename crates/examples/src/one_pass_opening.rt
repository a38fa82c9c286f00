//! An opening in one pass: a polynomial's value at a point, and the quotient that shows it.

ghost use Rattle.std.specs.Prelude.{◌≡◌, IfOk, IsOkUnless};
ghost use Rattle.ark_math_polynomials.specs.Linear.{constant, linear_factor};
ghost use Rattle.ark_math.specs.Univariate.{added, of_list, product};

use ark_base::{Field, PolyError};
use ark_points::divide_by_linear;
use ark_poly::DenseUVPolynomial;
use ark_poly::univariate::DensePolynomial;
use std::alloc::Global;

/// The value at a point z of the polynomial with these coefficients, and the quotient by x - z of what is left of it
/// without its value.
pub fn one_pass_opening<F: Field>(
    alloc: Global,
    coeffs: &[F],
    point: F,
) -> Result<(F, DensePolynomial<F>), PolyError>
    ensures opened { IfOk result (λ o. of_list F.field coeffs.now ≡ added F.field
        (product F.field (of_list F.field o.1) (linear_factor F.field point)) (constant F.field o.0)) }
    ensures memory { IsOkUnless result PolyError.Memory }
{
    let polynomial = DensePolynomial::from_coefficients_slice(alloc, coeffs)?;
    let (quotient, value) = divide_by_linear(alloc, &polynomial, point)?;
    Ok((value, quotient))
}
