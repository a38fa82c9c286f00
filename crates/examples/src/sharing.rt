//! A secret in shares, given back by the last k of them.

ghost use Rattle.std.specs.Prelude.{◌≡◌, IfOk};

use ark_base::Field;
use ark_sharing::{SharingError, reconstruct, share};
use rand::CryptoRng;
use std::alloc::Global;

/// What the last k of the shares give back: the secret.
pub fn shared_and_given_back<F: Field, R: CryptoRng>(
    alloc: Global,
    secret: F,
    k: usize,
    points: &[F],
    rng: &mut R,
) -> Result<F, SharingError>
    ensures secret { IfOk result (λ s. s ≡ secret) }
{
    let shares = share(alloc, secret, k, points, rng)?;
    reconstruct(alloc, &shares[shares.len() - k..])
}
