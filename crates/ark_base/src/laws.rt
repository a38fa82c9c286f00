//! What prime fields tell, stated as the contract of a function that callers may cite: it promises nothing
//! but its contract.

ghost use Rattle.std.specs.Prelude.{◌≢◌, ℕ, ◌<◌};
ghost use Rattle.ark_math.specs.Field.{natural};

use crate::prime_field::{PrimeField, PrimeModulus};
use crate::prime_field32::{PrimeField32, PrimeModulus32};
use ark_traits::Field;

/// A law: 0, 1, .., up to the modulus less one are different elements, and so all but 0 differ from zero.
pub fn small_numbers_are_different<M: PrimeModulus>()
    ensures { (i j : ℕ) → i < j → j < M.MODULUS → natural ⟦<PrimeField<M> as Field>⟧.field i
        ≢ natural ⟦<PrimeField<M> as Field>⟧.field j }
{}

/// The same law, of a field on words of 32 bits.
pub fn small_numbers_are_different32<M: PrimeModulus32>()
    ensures { (i j : ℕ) → i < j → j < M.MODULUS → natural ⟦<PrimeField32<M> as Field>⟧.field i
        ≢ natural ⟦<PrimeField32<M> as Field>⟧.field j }
{}
