//! Pairs: the first, and then the second. A struct of more fields is read and written as pairs in pairs.

use crate::compress::Compress;
use crate::error::SerializationError;
use crate::sink::Sink;
use crate::source::Source;
use crate::traits::{CanonicalDeserialize, CanonicalSerialize, Spelled, Valid};
use std::alloc::Global;

impl<A: Spelled, B: Spelled> Spelled for (A, B) {
    ghost use Rattle.ark_math_formats.specs.Format.{◌⊗◌};
    ghost use Rattle.ark_math_formats.proofs.Formats.Ends.{pair_is_format};
    ghost use Rattle.ark_math_formats.proofs.Formats.OneToOne.{pair_shows};

    ghost format = { λ mode. A.format mode ⊗ B.format mode };

    ghost format_law = { λ mode. pair_is_format (A.format mode) (B.format mode)
        (A.format_law mode) (B.format_law mode) };

    ghost Shown = { A.Shown × B.Shown };

    ghost shown = { λ p. (A.shown p.0, B.shown p.1) };

    ghost tells = { λ mode. pair_shows (A.format mode) (B.format mode) (A.format_law mode)
        A.shown B.shown (A.tells mode) (B.tells mode) };
}

impl<A: CanonicalSerialize, B: CanonicalSerialize> CanonicalSerialize for (A, B) {
    ghost use Rattle.ark_math_formats.proofs.Formats.Modes.{keeps_in_pairs};

    fn serialize_with_mode<W: Sink>(
        &self,
        writer: &mut W,
        mode: Compress,
    ) -> Result<(), SerializationError> {
        self.0.serialize_with_mode(writer, mode)?;
        self.1.serialize_with_mode(writer, mode)
    }

    fn serialized_size(&self, mode: Compress) -> Option<usize> {
        let first = self.0.serialized_size(mode)?;
        let second = self.1.serialized_size(mode)?;
        first.checked_add(second)
    }

    ghost both_modes = { λ mode other. keeps_in_pairs (A.format mode) (A.format other)
        (B.format mode) (B.format other) (A.format_law mode) (A.both_modes mode other) (B.both_modes mode other) };
}

impl<A: Valid, B: Valid> Valid for (A, B) {
    fn check(&self) -> Result<(), SerializationError> {
        Ok(())
    }
}

impl<A: CanonicalDeserialize, B: CanonicalDeserialize> CanonicalDeserialize for (A, B) {
    ghost use Rattle.std.specs.Prelude.{◌⊎◌};

    ghost takes_memory = { A.takes_memory ⊎ B.takes_memory };

    fn deserialize_with_mode<R: Source>(
        alloc: Global,
        reader: &mut R,
        mode: Compress,
    ) -> Result<Self, SerializationError> {
        let first = A::deserialize_with_mode(alloc, reader, mode)?;
        let second = B::deserialize_with_mode(alloc, reader, mode)?;
        Ok((first, second))
    }
}
