//! Calls of polynomials at points.

ghost use Rattle.std.specs.Prelude.{◌≡◌, length, IfOk};
ghost use Rattle.ark_math_polynomials.specs.Linear.{constant, linear_factor};
ghost use Rattle.ark_math.specs.Univariate.{added, of_list, product};
ghost use Rattle.ark_math_points.specs.AtPoints.{AreDifferent};

use ark_base::{Field, PolyError};
use ark_points::{PointsError, divide_by_linear, weights_at};
use ark_poly::univariate::DensePolynomial;
use std::alloc::Global;

/// The quotient by x - z, and the value at z.
pub fn opened<F: Field>(
    alloc: Global,
    polynomial: &DensePolynomial<F>,
    point: F,
) -> Result<(DensePolynomial<F>, F), PolyError>
    ensures quotient { IfOk result (λ p. of_list F.field polynomial.now ≡ added F.field
        (product F.field (of_list F.field p.0) (linear_factor F.field point)) (constant F.field p.1)) }
{
    divide_by_linear(alloc, polynomial, point)
}

/// How much the value at each of the points counts at `tau`.
pub fn weights_for<F: Field>(alloc: Global, points: &[F], tau: F) -> Result<Vec<F>, PointsError>
    ensures different { IfOk result (λ w. AreDifferent (length points.now) (of_list F.field points.now)) }
{
    weights_at(alloc, points, tau)
}
