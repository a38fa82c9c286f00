//! Elements of prime fields of four words in bytes: the number below the modulus in 32, the low one first.

use crate::prime_field::{PrimeField256, PrimeModulus256};
use crate::words::{read_words, write_words};
use ark_bytes::{
    CanonicalDeserialize, CanonicalSerialize, Compress, SerializationError, Sink, Source, Spelled,
    Valid,
};
use std::alloc::Global;

impl<M: PrimeModulus256> Spelled for PrimeField256<M> {
    ghost use Rattle.ark_prime256.specs.ElementBytes.{residue_in_bytes, element_format, element_tells};

    ghost format = { λ _. residue_in_bytes };

    ghost format_law = { λ _. element_format };

    ghost Shown = { Self };

    ghost shown = { λ x. x };

    ghost tells = { λ _. element_tells M.modulus };
}

impl<M: PrimeModulus256> CanonicalSerialize for PrimeField256<M> {
    ghost use Rattle.ark_math_formats.proofs.Formats.Modes.{keeps_itself};
    ghost use Rattle.ark_prime256.specs.ElementBytes.{residue_in_bytes};

    fn serialize_with_mode<W: Sink>(
        &self,
        writer: &mut W,
        mode: Compress,
    ) -> Result<(), SerializationError> {
        write_words(self.into_bigint(), writer, mode)
    }

    fn serialized_size(&self, _mode: Compress) -> Option<usize> {
        Some(32)
    }

    ghost both_modes = { λ _ _. keeps_itself residue_in_bytes };
}

impl<M: PrimeModulus256> Valid for PrimeField256<M> {
    fn check(&self) -> Result<(), SerializationError> {
        Ok(())
    }
}

impl<M: PrimeModulus256> CanonicalDeserialize for PrimeField256<M> {
    ghost takes_memory = { ⊥ };

    fn deserialize_with_mode<R: Source>(
        alloc: Global,
        reader: &mut R,
        mode: Compress,
    ) -> Result<Self, SerializationError> {
        let value = read_words(alloc, reader, mode)?;
        match PrimeField256::from_bigint(value) {
            Some(element) => Ok(element),
            None => Err(SerializationError::InvalidData),
        }
    }
}
