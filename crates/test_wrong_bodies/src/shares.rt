//! Calls of secret sharing.

ghost use Rattle.std.specs.Prelude.{◌≡◌, ◌+◌, List, ◌∷◌, length, IfOk};
ghost use Rattle.ark_math.specs.Univariate.{of_list};
ghost use Rattle.ark_math.specs.Draws.{AreDrawn};
ghost use Rattle.ark_sharing.specs.Sharing.{AreNotZero, AreShares};

use ark_base::Field;
use ark_sharing::{SharingError, share};
use rand::CryptoRng;
use std::alloc::Global;

/// Shares of a secret, one for each point, of which any `k` give it back.
pub fn shared<F: Field, R: CryptoRng>(
    alloc: Global,
    secret: F,
    k: usize,
    points: &[F],
    rng: &mut R,
) -> Result<Vec<(F, F)>, SharingError>
    ensures { IfOk result (λ _. AreNotZero F.field (length points.now) (of_list F.field points.now)) }
{
    share(alloc, secret, k, points, rng)
}

/// Shares of a secret, by coefficients that are drawn one after another.
pub fn shared_by_draws<F: Field, R: CryptoRng>(
    alloc: Global,
    secret: F,
    k: usize,
    points: &[F],
    generator: &mut R,
) -> Result<Vec<(F, F)>, SharingError>
    ensures { IfOk result (λ shares. (coeffs : List F) × (length coeffs + 1 ≡ k)
        × AreDrawn F.draws (R.stream generator.old) coeffs (R.stream generator.new)
        × AreShares F.field (of_list F.field (secret ∷ coeffs)) shares.items) }
{
    share(alloc, secret, k, points, generator)
}
