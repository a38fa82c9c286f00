//! Proofs in bytes: the list of the rounds, each of which is the list of its values.

use crate::proof::SumCheckProof;
use ark_bytes::{
    CanonicalDeserialize, CanonicalSerialize, Compress, SerializationError, Sink, Source, Spelled,
    Valid, list_size, read_list, write_list,
};
use ark_traits::Field;
use std::alloc::Global;

impl<F: Field> Spelled for SumCheckProof<F> {
    ghost use Rattle.std.specs.Prelude.{List, map};
    ghost use Rattle.ark_fiat_shamir.specs.ProofBytes.{proof_format, proof_is_format, proof_tells};

    ghost format = { λ mode. proof_format (F.format mode) };

    ghost format_law = { λ mode. proof_is_format (F.format mode) (F.format_law mode) };

    ghost Shown = { List (List F.Shown) };

    ghost shown = { λ p. map (λ v. map F.shown v.items) p.rounds.items };

    ghost tells = { λ mode. proof_tells (F.format mode) (F.format_law mode) F.shown (F.tells mode) };
}

impl<F: Field> CanonicalSerialize for SumCheckProof<F> {
    ghost use Rattle.ark_fiat_shamir.specs.ProofBytes.{proof_keeps};

    fn serialize_with_mode<W: Sink>(
        &self,
        writer: &mut W,
        mode: Compress,
    ) -> Result<(), SerializationError> {
        write_list(&self.rounds, writer, mode)
    }

    fn serialized_size(&self, mode: Compress) -> Option<usize> {
        list_size(&self.rounds, mode)
    }

    ghost both_modes = { λ mode other. proof_keeps (F.format mode) (F.format_law mode) (F.format other)
        (F.both_modes mode other) };
}

impl<F: Field> Valid for SumCheckProof<F> {
    fn check(&self) -> Result<(), SerializationError> {
        Ok(())
    }
}

impl<F: Field> CanonicalDeserialize for SumCheckProof<F> {
    ghost takes_memory = { Unit {0} };

    /// Of rounds with any numbers of values: whether these fit a claim, `verify_transcript` says.
    fn deserialize_with_mode<R: Source>(
        alloc: Global,
        reader: &mut R,
        mode: Compress,
    ) -> Result<Self, SerializationError> {
        let rounds = read_list::<Vec<F>, R>(alloc, reader, mode)?;
        Ok(SumCheckProof { rounds })
    }
}
