//! The fields over which sums are checked, as contracts name them.

ghost use Rattle.std.specs.Prelude.{ℕ};
ghost use Rattle.ark_word_sums.specs.Challenges.{Checked};

use ark_fields::{BabyBear, Goldilocks, KoalaBear};
use ark_prime256::{Bls12_381Scalar, Bn254Scalar};
use ark_word_sums::SumNumbers;

/// What contracts say of the field that a number names.
pub trait NamedFields {
    ghost over: { ℕ → ((E : Type 0) → Checked E → Type 0) → Type 0 };
}

/// The fields over which sums are checked.
pub struct SumFields;

impl NamedFields for SumFields {
    ghost use Rattle.ark_c.specs.SumFields.{at_place, place_of};

    ghost over = { λ name says. at_place (place_of name) (says _ ⟦<BabyBear as SumNumbers>⟧.checked)
        (says _ ⟦<KoalaBear as SumNumbers>⟧.checked) (says _ ⟦<Goldilocks as SumNumbers>⟧.checked)
        (says _ ⟦<Bn254Scalar as SumNumbers>⟧.checked) (says _ ⟦<Bls12_381Scalar as SumNumbers>⟧.checked) };
}
