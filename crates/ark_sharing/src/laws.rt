//! What shares tell, and what becomes of them in sums, stated as the contracts of functions that callers may
//! cite: they promise nothing but their contracts.

ghost use Rattle.std.specs.Prelude.{◌≡◌, ℕ, ◌+◌, ◌<◌, length, map};
ghost use Rattle.ark_math.specs.Univariate.{added, scaled};
ghost use Rattle.ark_math_points.specs.AtPoints.{AreDifferent, x_of};
ghost use Rattle.ark_sharing.specs.Sharing.{AreNotZero, AreOneToOne, AreShares, IsSharing, IsSharingWith};
ghost use Rattle.ark_sharing.specs.Sharing.{added_shares, scaled_shares};

use ark_traits::Field;

/// A law: for every `k - 1` shares at different points, none of them zero, and for every secret there is
/// exactly one polynomial below `k` with these shares and that secret. So `k - 1` shares exclude no secret,
/// and each secret has as many polynomials as each other.
pub fn one_sharing_for_each_secret<F: Field>(shares: &[(F, F)], secret: F)
    requires different { AreDifferent (length shares.now) (x_of F.field shares.now) }
    requires not_zero { AreNotZero F.field (length shares.now) (x_of F.field shares.now) }
    ensures some { (a : ℕ → F) × IsSharing F.field (length shares.now + 1) secret a
        × AreShares F.field a shares.now }
    ensures only { (a b : ℕ → F) → IsSharing F.field (length shares.now + 1) secret a
        → AreShares F.field a shares.now → IsSharing F.field (length shares.now + 1) secret b
        → AreShares F.field b shares.now → a ≡ b }
{}

/// A law: for any shares that are fewer than `k`, at different points, none of them zero, every secret has a
/// polynomial below `k` with these shares, and any two secrets have as many: theirs are one to one. So where
/// each polynomial below `k` with the secret is as likely as each other, these shares are as likely for every
/// secret.
pub fn as_many_sharings_for_each_secret<F: Field>(shares: &[(F, F)])
    requires different { AreDifferent (length shares.now) (x_of F.field shares.now) }
    requires not_zero { AreNotZero F.field (length shares.now) (x_of F.field shares.now) }
    ensures some { (k : ℕ) (secret : F) → length shares.now < k
        → (a : ℕ → F) × IsSharingWith F.field k secret shares.now a }
    ensures as_many { (k : ℕ) (secret other : F) → length shares.now < k
        → AreOneToOne (IsSharingWith F.field k secret shares.now) (IsSharingWith F.field k other shares.now) }
{}

/// A law: the sum of two sharings is a sharing of the sum, and the sums of their values at the same points
/// are its shares.
pub fn sum_of_sharings<F: Field>(left: &[(F, F)], right: &[(F, F)])
    requires points { map (λ s. s.0) left.now ≡ map (λ s. s.0) right.now }
    ensures sharing { (k : ℕ) (s t : F) (a b : ℕ → F) → IsSharing F.field k s a → IsSharing F.field k t b
        → IsSharing F.field k (F.field.plus s t) (added F.field a b) }
    ensures shares { (a b : ℕ → F) → AreShares F.field a left.now → AreShares F.field b right.now
        → AreShares F.field (added F.field a b) (added_shares F.field left.now right.now) }
{}

/// A law: a multiple of a sharing is a sharing of that multiple of the secret, and the same multiples of its
/// values are its shares.
pub fn multiple_of_sharing<F: Field>(factor: F, shares: &[(F, F)])
    ensures sharing { (k : ℕ) (s : F) (a : ℕ → F) → IsSharing F.field k s a
        → IsSharing F.field k (F.field.times factor s) (scaled F.field factor a) }
    ensures shares { (a : ℕ → F) → AreShares F.field a shares.now
        → AreShares F.field (scaled F.field factor a) (scaled_shares F.field factor shares.now) }
{}
