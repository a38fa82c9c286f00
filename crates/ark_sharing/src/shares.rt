//! Shares of a secret.

ghost use Rattle.std.specs.Prelude.{◌≡◌, ◌↔◌, ◌⊎◌, ℕ, ◌+◌, ◌^◌, ◌<◌, ◌≤◌, List, ◌∷◌, length, map};
ghost use Rattle.std.specs.Prelude.{Err, IfErr, IfOk, OnOk, IsOkUnless};
ghost use Rattle.ark_math.specs.Outcome.{IsOkUnlessEither};
ghost use Rattle.ark_math.specs.Univariate.{of_list};
ghost use Rattle.ark_math_points.specs.AtPoints.{AreDifferent, HasRepeated};
ghost use Rattle.ark_math.specs.Draws.{AreDrawn};
ghost use Rattle.ark_sharing.specs.Sharing.{AreNotZero, AreShares, HasZero, IsSharing};

use crate::error::SharingError;
use ark_bit_reversed::items::has_zero;
use ark_points::{has_repeated, naive_evaluate_at, paired};
use ark_traits::Field;
use ark_univariate::DenseUVPolynomial;
use ark_univariate::polynomial::univariate::DensePolynomial;
use rand::CryptoRng;
use std::alloc::{AllocError, Global};

/// Shares of a secret, one for each point, of which any `k` give it back, by `reconstruct`: what `share_with`
/// gives of `k - 1` drawn coefficients. `WrongThreshold` exactly where `k` is zero or above the number of
/// points, else `ZeroPoint` exactly where a point is zero, else `RepeatedPoint` exactly where two of them are
/// one; nothing is drawn then.
///
/// Fewer than `k` shares tell nothing of the secret where the coefficients are drawn uniformly, and unknown
/// to others: `as_many_sharings_for_each_secret`. The coefficients are what `F` draws of the generator, one
/// after another; that these are uniform and unknown is the generator's, whose type has to say that it is
/// made for secrets.
///
/// It takes `k - 1` draws and `k` products for each point, a comparison for each two points, and memory for
/// the coefficients, twice, the values and the shares.
pub fn share<F: Field, R: CryptoRng>(
    alloc: Global,
    secret: F,
    k: usize,
    points: &[F],
    rng: &mut R,
) -> Result<Vec<(F, F)>, SharingError>
    ensures points { IfOk result (λ shares. map (λ s. s.0) shares.items ≡ points.now) }
    ensures sharing { IfOk result (λ shares. (a : ℕ → F) × IsSharing F.field k secret a
        × AreShares F.field a shares.items) }
    ensures drawn { IfOk result (λ shares. (coeffs : List F) × (length coeffs + 1 ≡ k)
        × AreDrawn F.draws (R.stream rng.old) coeffs (R.stream rng.new)
        × AreShares F.field (of_list F.field (secret ∷ coeffs)) shares.items) }
    ensures threshold { IfOk result (λ _. (0 < k) × (k ≤ length points.now)) }
    ensures different { IfOk result (λ _. AreDifferent (length points.now) (of_list F.field points.now)) }
    ensures not_zero { IfOk result (λ _. AreNotZero F.field (length points.now) (of_list F.field points.now)) }
    ensures wrong_threshold { (result ≡ Err SharingError.WrongThreshold)
        ↔ (k ≡ 0) ⊎ (length points.now < k) }
    ensures zero_point { (result ≡ Err SharingError.ZeroPoint)
        ↔ (0 < k) × (k ≤ length points.now) × HasZero F.field (length points.now) (of_list F.field points.now) }
    ensures repeated { (result ≡ Err SharingError.RepeatedPoint)
        ↔ (0 < k) × (k ≤ length points.now) × AreNotZero F.field (length points.now) (of_list F.field points.now)
        × HasRepeated (length points.now) (of_list F.field points.now) }
    ensures undrawn { IfErr result (λ e. (e ≡ SharingError.Memory) ⊎ (R.stream rng.new ≡ R.stream rng.old)) }
{
    if k == 0 || k > points.len() {
        return Err(SharingError::WrongThreshold);
    }
    check_points(points)?;
    let coeffs = drawn(alloc, k - 1, rng)?;
    values_of_sharing(alloc, secret, &coeffs, points)
}

/// Shares of a secret, one for each point, by coefficients of the caller's own: pairs of each point `x` and
/// the value there of `secret + coeffs[0] * x + coeffs[1] * x^2 + ..`. Any `coeffs.len() + 1` give the secret
/// back, by `reconstruct`. `WrongThreshold` exactly where these would be more than there are points, else
/// `ZeroPoint` exactly where a point is zero, else `RepeatedPoint` exactly where two of them are one.
///
/// Fewer shares hide the secret only from those to whom the coefficients are uniform and unknown; `share`
/// draws them.
///
/// It takes a product for each coefficient and the secret at each point, a comparison for each two points,
/// and memory for the coefficients, the values and the shares.
pub fn share_with<F: Field>(
    alloc: Global,
    secret: F,
    coeffs: &[F],
    points: &[F],
) -> Result<Vec<(F, F)>, SharingError>
    ensures points { IfOk result (λ shares. map (λ s. s.0) shares.items ≡ points.now) }
    ensures values { IfOk result (λ shares. AreShares F.field
        (of_list F.field (secret ∷ coeffs.now)) shares.items) }
    ensures sharing { IsSharing F.field (length coeffs.now + 1) secret (of_list F.field (secret ∷ coeffs.now)) }
    ensures threshold { IfOk result (λ _. length coeffs.now < length points.now) }
    ensures different { IfOk result (λ _. AreDifferent (length points.now) (of_list F.field points.now)) }
    ensures not_zero { IfOk result (λ _. AreNotZero F.field (length points.now) (of_list F.field points.now)) }
    ensures wrong_threshold { (result ≡ Err SharingError.WrongThreshold)
        ↔ (length points.now ≤ length coeffs.now) }
    ensures zero_point { (result ≡ Err SharingError.ZeroPoint)
        ↔ (length coeffs.now < length points.now)
        × HasZero F.field (length points.now) (of_list F.field points.now) }
    ensures repeated { (result ≡ Err SharingError.RepeatedPoint)
        ↔ (length coeffs.now < length points.now)
        × AreNotZero F.field (length points.now) (of_list F.field points.now)
        × HasRepeated (length points.now) (of_list F.field points.now) }
{
    if coeffs.len() >= points.len() {
        return Err(SharingError::WrongThreshold);
    }
    check_points(points)?;
    values_of_sharing(alloc, secret, coeffs, points)
}

// Whether shares may be at these points, and why not.
fn check_points<F: Field>(points: &[F]) -> Result<(), SharingError>
    ensures not_zero { OnOk result (AreNotZero F.field (length points.now) (of_list F.field points.now)) }
    ensures different { OnOk result (AreDifferent (length points.now) (of_list F.field points.now)) }
    ensures zero_point { (result ≡ Err SharingError.ZeroPoint)
        ↔ HasZero F.field (length points.now) (of_list F.field points.now) }
    ensures repeated { (result ≡ Err SharingError.RepeatedPoint)
        ↔ AreNotZero F.field (length points.now) (of_list F.field points.now)
        × HasRepeated (length points.now) (of_list F.field points.now) }
    ensures errors { IsOkUnlessEither result SharingError.ZeroPoint SharingError.RepeatedPoint }
{
    if has_zero(points) {
        return Err(SharingError::ZeroPoint);
    }
    if has_repeated(points) {
        return Err(SharingError::RepeatedPoint);
    }
    Ok(())
}

// Values drawn one after another.
fn drawn<F: Field, R: CryptoRng>(
    alloc: Global,
    count: usize,
    rng: &mut R,
) -> Result<Vec<F>, AllocError>
    ensures count { IfOk result (λ coeffs. length coeffs.items ≡ count) }
    ensures drawn { IfOk result (λ coeffs.
        AreDrawn F.draws (R.stream rng.old) coeffs.items (R.stream rng.new)) }
{
    let mut coeffs = Vec::with_capacity(alloc, count)?;
    for _ in 0..count {
        coeffs.push(F::rand(rng))?;
    }
    Ok(coeffs)
}

// The points with the values there of the polynomial of the secret and these further coefficients.
fn values_of_sharing<F: Field>(
    alloc: Global,
    secret: F,
    coeffs: &[F],
    points: &[F],
) -> Result<Vec<(F, F)>, SharingError>
    requires { length coeffs.now + 1 < 2 ^ 64 }
    ensures points { IfOk result (λ shares. map (λ s. s.0) shares.items ≡ points.now) }
    ensures values { IfOk result (λ shares. AreShares F.field
        (of_list F.field (secret ∷ coeffs.now)) shares.items) }
    ensures memory { IsOkUnless result SharingError.Memory }
{
    let mut all = Vec::with_capacity(alloc, coeffs.len() + 1)?;
    all.push(secret)?;
    all.extend_from_slice(coeffs)?;
    let polynomial = DensePolynomial::from_coefficients_vec(all);
    let values = naive_evaluate_at(alloc, &polynomial, points)?;
    Ok(paired(alloc, points, &values)?)
}
