//! The sum of two secrets in shares, from what their holders add.

ghost use Rattle.std.specs.Prelude.{◌≡◌, ◌<◌, length, map, IfOk};
ghost use Rattle.ark_sharing.specs.Sharing.{added_shares};

use ark_base::Field;
use ark_sharing::{SharingError, reconstruct, share_with, sum_of_sharings};
use std::alloc::{AllocError, Global};

/// A secret that is shared.
#[derive(Clone, Copy)]
pub struct SharedSecret<'a, F> {
    /// The secret.
    pub secret: F,
    /// The coefficients that it is shared by.
    pub coeffs: &'a [F],
}

/// The sum of two secrets from the sums of their shares alone: who holds a share of each adds the two, and neither secret
/// is given back.
pub fn sum_from_shares<F: Field>(
    alloc: Global,
    left: &SharedSecret<'_, F>,
    right: &SharedSecret<'_, F>,
    points: &[F],
) -> Result<F, SharingError>
    ensures { IfOk result (λ sum. sum ≡ F.field.plus left.now.secret right.now.secret) }
{
    let left_shares = share_with(alloc, left.secret, left.coeffs, points)?;
    let right_shares = share_with(alloc, right.secret, right.coeffs, points)?;
    sum_of_sharings(&left_shares, &right_shares);
    let sums = with_values_added(alloc, &left_shares, &right_shares)?;
    reconstruct(alloc, &sums)
}

// Shares at the points of the first ones, with the sums of both values.
fn with_values_added<F: Field>(
    alloc: Global,
    left: &[(F, F)],
    right: &[(F, F)],
) -> Result<Vec<(F, F)>, AllocError>
    requires { length right.now ≡ length left.now }
    ensures { IfOk result (λ sums. sums.items ≡ added_shares F.field left.now right.now) }
{
    let mut sums = Vec::with_capacity(alloc, left.len())?;
    for i in 0..left.len() {
        sums.push((left[i].0, left[i].1 + right[i].1))?;
    }
    Ok(sums)
}
