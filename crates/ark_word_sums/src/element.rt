//! Fields over whose numbers sums are checked.

ghost use Rattle.std.specs.Prelude.{◌≡◌, ◌*◌, ◌^◌, ◌≤◌, map};
ghost use Rattle.ark_bytes.specs.declared.compress.Compress.{Compress};
ghost use Rattle.ark_word_sums.specs.Challenges.{Checked, element_words};

use crate::challenge::ChallengeOf;
use ark_extension_fields::{BabyBear4, Goldilocks2, KoalaBear4};
use ark_fields::{BabyBear, Goldilocks, KoalaBear};
use ark_prime256::{Bls12_381Scalar, Bn254Scalar};
use ark_words::WordElement;

/// A field of numbers below a prime over which sums are checked, by challenges of one of its own size or
/// greater, so that a challenge is one of 2^123 or more.
pub trait SumElement: WordElement {
    /// The field of the challenges.
    type Challenge: ChallengeOf<Self>;

    ghost large_law: { 2 ^ 16 ≤ Self.modulus };

    ghost small_law: { Self.Challenge.element_size ≤ 64 };

    ghost few_law: { Self.Challenge.DEGREE * Self.WIDTH ≤ 4 };

    ghost wide_law: { 2 ^ 123 ≤ Self.modulus ^ Self.Challenge.DEGREE };
}

/// What contracts over words see of such a field.
pub trait SumNumbers: SumElement {
    // The field of the numbers, and that of the challenges.
    ghost checked: { Checked Self.Challenge };

    /// How many words spell an element of the field of the challenges: those of each coefficient, in the
    /// order in which its bytes have them.
    fn challenge_width() -> usize
        ensures { result ≡ element_words checked };
}

impl<F: SumElement> SumNumbers for F {
    ghost checked = { record {
      spelled = F.spelled;
      field = F.Challenge.field;
      format = F.Challenge.format Compress.Yes;
      size = F.Challenge.element_size;
      degree = F.Challenge.DEGREE;
      coefficients = λ x. map F.numbering.number (F.Challenge.coefficients x);
    } };

    fn challenge_width() -> usize {
        F::Challenge::DEGREE * F::WIDTH
    }
}

impl SumElement for BabyBear {
    ghost use Rattle.std.proofs.Common.{lit≤};

    type Challenge = BabyBear4;

    ghost large_law = { lit≤ tt };

    ghost small_law = { lit≤ tt };

    ghost few_law = { lit≤ tt };

    ghost wide_law = { lit≤ tt };
}

impl SumElement for KoalaBear {
    ghost use Rattle.std.proofs.Common.{lit≤};

    type Challenge = KoalaBear4;

    ghost large_law = { lit≤ tt };

    ghost small_law = { lit≤ tt };

    ghost few_law = { lit≤ tt };

    ghost wide_law = { lit≤ tt };
}

impl SumElement for Goldilocks {
    ghost use Rattle.std.proofs.Common.{lit≤};

    type Challenge = Goldilocks2;

    ghost large_law = { lit≤ tt };

    ghost small_law = { lit≤ tt };

    ghost few_law = { lit≤ tt };

    ghost wide_law = { lit≤ tt };
}

impl SumElement for Bls12_381Scalar {
    ghost use Rattle.std.proofs.Common.{lit≤};

    type Challenge = Bls12_381Scalar;

    ghost large_law = { lit≤ tt };

    ghost small_law = { lit≤ tt };

    ghost few_law = { lit≤ tt };

    ghost wide_law = { lit≤ tt };
}

impl SumElement for Bn254Scalar {
    ghost use Rattle.std.proofs.Common.{lit≤};

    type Challenge = Bn254Scalar;

    ghost large_law = { lit≤ tt };

    ghost small_law = { lit≤ tt };

    ghost few_law = { lit≤ tt };

    ghost wide_law = { lit≤ tt };
}
