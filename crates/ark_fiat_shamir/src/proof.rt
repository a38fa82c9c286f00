//! What a prover sends of all rounds.

mod bytes;

use ark_traits::Field;
use std::alloc::AllocError;

/// A proof of a sum over the cube that needs no answers: each round's values. The challenges aren't sent,
/// since a verifier derives them. Of bytes that were read nothing is known of how many rounds there are, nor
/// how long they are: `verify_transcript` looks.
#[derive(Debug, PartialEq, Eq, Hash, Drop)]
pub struct SumCheckProof<F> {
    /// Each round's values at 0, 1, .., d.
    pub rounds: Vec<Vec<F>>,
}

impl<F: Field> Clone for SumCheckProof<F> {
    ghost use Rattle.std.specs.Prelude.{◌≡◌};
    ghost use Rattle.ark_fiat_shamir.specs.Sent.{sent};

    ghost is_clone = { λ p q. sent q ≡ sent p };

    /// A proof with the same values.
    fn clone(&self) -> Result<Self, AllocError> {
        Ok(SumCheckProof {
            rounds: self.rounds.clone()?,
        })
    }
}
