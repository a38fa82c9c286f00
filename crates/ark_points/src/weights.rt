//! The weights of points.

ghost use Rattle.std.specs.Prelude.{◌≡◌, ℕ, ◌<◌, List, length, IfOk, Err};
ghost use Rattle.ark_math.specs.Outcome.{IsOkUnlessEither};
ghost use Rattle.ark_math.specs.Univariate.{of_list};
ghost use Rattle.ark_math_points.specs.AtPoints.{AreDifferent, AreWeightsAt, HasRepeated};
ghost use Rattle.ark_math_points.specs.AtPoints.{differences};

use crate::error::PointsError;
use crate::repeated::has_repeated;
use ark_traits::{Field, batch_inversion};
use std::alloc::{AllocError, Global};

/// How much the value at each of the points counts at `tau`: for every polynomial of a degree below the number of points
/// the sum of its values there times these weights is its value at `tau`. They are Lagrange's: the product of
/// `tau - x_j` over the other points, by that of `x_i - x_j`. `RepeatedPoint` where two of the points are one.
///
/// It takes some two products for each two points, and one inversion; memory for the weights, and once as much again.
pub fn weights_at<F: Field>(alloc: Global, points: &[F], tau: F) -> Result<Vec<F>, PointsError>
    ensures weights { IfOk result (λ w. AreWeightsAt F.field (length points.now) (of_list F.field points.now)
        tau w.items) }
    ensures only { IfOk result (λ w. (other : List F)
        → AreWeightsAt F.field (length points.now) (of_list F.field points.now) tau other → other ≡ w.items) }
    ensures different { IfOk result (λ w. AreDifferent (length points.now) (of_list F.field points.now)) }
    ensures repeated { (result ≡ Err PointsError.RepeatedPoint)
        → HasRepeated (length points.now) (of_list F.field points.now) }
    ensures errors { IsOkUnlessEither result PointsError.Memory PointsError.RepeatedPoint }
{
    if has_repeated(points) {
        return Err(PointsError::RepeatedPoint);
    }
    let mut weights = own_differences(alloc, points)?;
    batch_inversion(alloc, weights.as_mut_slice())?;
    multiply_by_differences(weights.as_mut_slice(), points, tau);
    Ok(weights)
}

// For each point the product of its differences to the others.
fn own_differences<F: Field>(alloc: Global, points: &[F]) -> Result<Vec<F>, AllocError>
    ensures len { IfOk result (λ v. length v.items ≡ length points.now) }
    ensures products { IfOk result (λ v. (i : ℕ) → i < length points.now → of_list F.field v.items i
        ≡ differences F.field (of_list F.field points.now) i (length points.now) (of_list F.field points.now i)) }
{
    let mut products = Vec::with_capacity(alloc, points.len())?;
    for i in 0..points.len() {
        products.push(product_without(points, i, points[i]))?;
    }
    Ok(products)
}

// Multiplies each item by the product of the differences of `tau` to the points but the item's own.
fn multiply_by_differences<F: Field>(items: &mut [F], points: &[F], tau: F)
    requires { length items.old ≡ length points.now }
    ensures len { length items.new ≡ length items.old }
    ensures products { (i : ℕ) → i < length points.now → of_list F.field items.new i
        ≡ F.field.times (of_list F.field items.old i)
        (differences F.field (of_list F.field points.now) i (length points.now) tau) }
{
    for i in 0..points.len() {
        items[i] *= product_without(points, i, tau);
    }
}

// The product of `at` less each of the points but the one at a place.
fn product_without<F: Field>(points: &[F], place: usize, at: F) -> F
    ensures { result ≡ differences F.field (of_list F.field points.now) place (length points.now) at }
{
    let mut product = F::one();
    for j in 0..points.len() {
        if j != place {
            product *= at - points[j];
        }
    }
    product
}
