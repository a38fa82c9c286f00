//! Values at points, each for itself.

ghost use Rattle.std.specs.Prelude.{◌≡◌, length, IfOk, IsOkUnless};
ghost use Rattle.ark_math.specs.Univariate.{of_list};
ghost use Rattle.ark_math_points.specs.AtPoints.{HasValues};

use ark_traits::{Field, PolyError, Polynomial};
use ark_univariate::univariate::DensePolynomial;
use std::alloc::Global;

/// The values of a polynomial at points, in their order, each for itself.
///
/// It takes a product for each coefficient at each point, and memory for the values. The only error is `Memory`.
pub fn naive_evaluate_at<F: Field>(
    alloc: Global,
    polynomial: &DensePolynomial<F>,
    points: &[F],
) -> Result<Vec<F>, PolyError>
    ensures len { IfOk result (λ v. length v.items ≡ length points.now) }
    ensures values { IfOk result (λ v. HasValues F.field (length points.now) (of_list F.field points.now)
        (of_list F.field v.items) (of_list F.field polynomial.now)) }
    ensures memory { IsOkUnless result PolyError.Memory }
{
    let mut values = Vec::with_capacity(alloc, points.len())?;
    for i in 0..points.len() {
        let point = points[i];
        let value = polynomial.evaluate(alloc, &point)?;
        values.push(value)?;
    }
    Ok(values)
}
