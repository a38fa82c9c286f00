//! Laws of calls together, stated as contracts of functions that callers may cite: each undoes the other.

ghost use Rattle.std.specs.Prelude.{◌≡◌, ◌≤◌, length, map, Err, IfOk};
ghost use Rattle.ark_math.specs.Outcome.{IsOkUnlessEither};
ghost use Rattle.ark_math.specs.Univariate.{of_list};
ghost use Rattle.ark_math_points.specs.AtPoints.{HasRepeated, x_of};

use crate::error::PointsError;
use crate::interpolation::from_points;
use crate::pairs::{first_parts, paired};
use crate::values::evaluate_at;
use ark_traits::FftField;
use ark_univariate::polynomial::univariate::DensePolynomial;
use std::alloc::Global;

/// The polynomial through a polynomial's values at points, which are no fewer than its coefficients: the same one.
/// `RepeatedPoint` where two of the points are one.
///
/// It takes as long as both calls.
pub fn values_and_back<F: FftField>(
    alloc: Global,
    polynomial: &DensePolynomial<F>,
    points: &[F],
) -> Result<DensePolynomial<F>, PointsError>
    requires { length polynomial.now ≤ length points.now }
    ensures same { IfOk result (λ p. of_list F.field p ≡ of_list F.field polynomial.now) }
    ensures repeated { (result ≡ Err PointsError.RepeatedPoint)
        → HasRepeated (length points.now) (of_list F.field points.now) }
    ensures errors { IsOkUnlessEither result PointsError.Memory PointsError.RepeatedPoint }
{
    let values = evaluate_at(alloc, polynomial, points)?;
    from_points(alloc, &paired(alloc, points, &values)?)
}

/// The values, at the x of given pairs, of the polynomial through the pairs: the y of each. `RepeatedPoint` where two
/// pairs have one x.
///
/// It takes as long as both calls.
pub fn points_and_back<F: FftField>(alloc: Global, points: &[(F, F)]) -> Result<Vec<F>, PointsError>
    ensures same { IfOk result (λ v. v.items ≡ map (λ p. p.1) points.now) }
    ensures repeated { (result ≡ Err PointsError.RepeatedPoint)
        → HasRepeated (length points.now) (x_of F.field points.now) }
    ensures errors { IsOkUnlessEither result PointsError.Memory PointsError.RepeatedPoint }
{
    let polynomial = from_points(alloc, points)?;
    Ok(evaluate_at(alloc, &polynomial, &first_parts(alloc, points)?)?)
}
