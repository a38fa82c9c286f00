//! Secrets from shares.

ghost use Rattle.std.specs.Prelude.{◌≡◌, ℕ, ◌≤◌, length, Err, IfOk};
ghost use Rattle.ark_math.specs.Module.{itself, sum_below};
ghost use Rattle.ark_math.specs.Outcome.{IsOkUnlessEither};
ghost use Rattle.ark_math.specs.Univariate.{of_list};
ghost use Rattle.ark_math_points.specs.AtPoints.{AreDifferent, HasRepeated, x_of, y_of};
ghost use Rattle.ark_sharing.specs.Sharing.{AreShares, IsSharing};

use crate::error::SharingError;
use ark_points::{PointsError, first_parts, weights_at};
use ark_traits::Field;
use std::alloc::Global;

/// The secret, from any of its shares that are `k` or more, in any order. `RepeatedPoint` where two shares
/// are of one point. Of fewer shares it gives a value that says nothing of the secret.
///
/// It takes some two products for each two shares, and one inversion; memory for the points and for their
/// weights.
pub fn reconstruct<F: Field>(alloc: Global, shares: &[(F, F)]) -> Result<F, SharingError>
    ensures secret { IfOk result (λ s. (k : ℕ) (secret : F) (a : ℕ → F) → k ≤ length shares.now
        → IsSharing F.field k secret a → AreShares F.field a shares.now → s ≡ secret) }
    ensures different { IfOk result (λ _. AreDifferent (length shares.now) (x_of F.field shares.now)) }
    ensures repeated { (result ≡ Err SharingError.RepeatedPoint)
        → HasRepeated (length shares.now) (x_of F.field shares.now) }
    ensures errors { IsOkUnlessEither result SharingError.Memory SharingError.RepeatedPoint }
{
    let points = first_parts(alloc, shares)?;
    match weights_at(alloc, &points, F::zero()) {
        Ok(weights) => Ok(weighted_sum(&weights, shares)),
        Err(PointsError::Memory) => Err(SharingError::Memory),
        Err(PointsError::RepeatedPoint) => Err(SharingError::RepeatedPoint),
    }
}

// The sum of the values of the shares times the weights.
fn weighted_sum<F: Field>(weights: &[F], shares: &[(F, F)]) -> F
    requires { length weights.now ≡ length shares.now }
    ensures { result ≡ sum_below (itself F.field) (length shares.now)
        (λ i. F.field.times (of_list F.field weights.now i) (y_of F.field shares.now i)) }
{
    let mut sum = F::zero();
    for i in 0..shares.len() {
        sum += weights[i] * shares[i].1;
    }
    sum
}
