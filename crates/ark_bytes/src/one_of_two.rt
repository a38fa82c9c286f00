//! One of two: a tag, and then what it tells.

use crate::compress::Compress;
use crate::error::SerializationError;
use crate::numbers::{read_number, write_number};
use crate::sink::Sink;
use crate::source::Source;
use crate::traits::{CanonicalDeserialize, CanonicalSerialize, Spelled, Valid};
use std::alloc::Global;

/// A value of one type or of another. An enum of two variants is read and written as this.
#[derive(Drop)]
pub enum Either<A, B> {
    /// After the tag 0.
    First(A),
    /// After the tag 1.
    Second(B),
}

impl<A: Spelled, B: Spelled> Spelled for Either<A, B> {
    ghost use Rattle.std.specs.Prelude.{◌⊎◌};
    ghost use Rattle.ark_math_formats.specs.Format.{either, shown_either, stored};
    ghost use Rattle.ark_math_formats.proofs.Formats.Ends.{either_is_format, lawful_is_format};
    ghost use Rattle.ark_math_formats.proofs.Formats.OneToOne.{either_shows, lawful_shows};
    ghost use Rattle.ark_bytes.specs.Either.{sum_of};

    ghost format = { λ mode. stored (either (A.format mode) (B.format mode)) sum_of };

    ghost format_law = { λ mode. lawful_is_format (either (A.format mode) (B.format mode)) sum_of
        (λ _. Unit {0})
        (either_is_format (A.format mode) (B.format mode) (A.format_law mode) (B.format_law mode)) };

    ghost Shown = { A.Shown ⊎ B.Shown };

    ghost shown = { λ v. shown_either A.shown B.shown (sum_of v) };

    ghost tells = { λ mode. lawful_shows (either (A.format mode) (B.format mode)) sum_of
        (λ _. Unit {0}) (shown_either A.shown B.shown) (λ v. shown_either A.shown B.shown (sum_of v))
        (either_shows (A.format mode) (B.format mode) A.shown B.shown (A.tells mode) (B.tells mode))
        (λ x y e. e) };
}

impl<A: CanonicalSerialize, B: CanonicalSerialize> CanonicalSerialize for Either<A, B> {
    ghost use Rattle.ark_math_formats.specs.Format.{either};
    ghost use Rattle.ark_math_formats.proofs.Formats.Modes.{keeps_by_fields, keeps_in_either};
    ghost use Rattle.ark_bytes.specs.Either.{sum_of};

    fn serialize_with_mode<W: Sink>(
        &self,
        writer: &mut W,
        mode: Compress,
    ) -> Result<(), SerializationError> {
        match self {
            Either::First(value) => {
                write_number(0, writer, 1)?;
                value.serialize_with_mode(writer, mode)
            }
            Either::Second(value) => {
                write_number(1, writer, 1)?;
                value.serialize_with_mode(writer, mode)
            }
        }
    }

    fn serialized_size(&self, mode: Compress) -> Option<usize> {
        let size = match self {
            Either::First(value) => value.serialized_size(mode)?,
            Either::Second(value) => value.serialized_size(mode)?,
        };
        size.checked_add(1)
    }

    ghost both_modes = { λ mode other. keeps_by_fields (either (A.format mode) (B.format mode))
        (either (A.format other) (B.format other)) sum_of (λ _. Unit {0})
        (keeps_in_either (A.format mode) (A.format other) (B.format mode) (B.format other)
        (A.both_modes mode other) (B.both_modes mode other)) };
}

impl<A: Valid, B: Valid> Valid for Either<A, B> {
    fn check(&self) -> Result<(), SerializationError> {
        Ok(())
    }
}

impl<A: CanonicalDeserialize, B: CanonicalDeserialize> CanonicalDeserialize for Either<A, B> {
    ghost use Rattle.std.specs.Prelude.{◌⊎◌};

    ghost takes_memory = { A.takes_memory ⊎ B.takes_memory };

    fn deserialize_with_mode<R: Source>(
        alloc: Global,
        reader: &mut R,
        mode: Compress,
    ) -> Result<Self, SerializationError> {
        let tag = read_number(reader, 1)?;
        match tag {
            0 => Ok(Either::First(A::deserialize_with_mode(alloc, reader, mode)?)),
            1 => Ok(Either::Second(B::deserialize_with_mode(alloc, reader, mode)?)),
            _ => Err(SerializationError::InvalidData),
        }
    }
}
