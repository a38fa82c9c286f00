//! What prime fields of four words tell, stated as the contract of a function that callers may cite: it
//! promises nothing but its contract.

ghost use Rattle.std.specs.Prelude.{◌≢◌, ℕ, ◌<◌};
ghost use Rattle.ark_math.specs.Field.{natural};

use crate::prime_field::{PrimeField256, PrimeModulus256};
use ark_traits::Field;

/// A law: 0, 1, .., up to the modulus less one are different elements, and so all but 0 differ from zero.
pub fn small_numbers_are_different256<M: PrimeModulus256>()
    ensures { (i j : ℕ) → i < j → j < M.MODULUS → natural ⟦<PrimeField256<M> as Field>⟧.field i
        ≢ natural ⟦<PrimeField256<M> as Field>⟧.field j }
{}
