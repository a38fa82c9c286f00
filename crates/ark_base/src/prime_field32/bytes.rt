//! Elements of prime fields on words of 32 bits in bytes: the number below the modulus, the low byte first.

ghost use Rattle.std.specs.Prelude.{◌≡◌};
ghost use Rattle.ark_base.specs.Widths.{width_of};

use crate::prime_field32::{PrimeField32, PrimeModulus32};
use ark_bytes::{
    CanonicalDeserialize, CanonicalSerialize, Compress, SerializationError, Sink, Source, Spelled,
    Valid, read_number, write_number,
};
use std::alloc::Global;

impl<M: PrimeModulus32> PrimeField32<M> {
    // How many bytes an element has: as many as the modulus.
    fn width() -> usize
        ensures { result ≡ width_of M.MODULUS }
    {
        if M::MODULUS < 1 << 8 {
            1
        } else if M::MODULUS < 1 << 16 {
            2
        } else if M::MODULUS < 1 << 24 {
            3
        } else {
            4
        }
    }
}

impl<M: PrimeModulus32> Spelled for PrimeField32<M> {
    ghost use Rattle.ark_base.specs.Widths.{residue};
    ghost use Rattle.ark_base.specs.Element32.{number, numbering};
    ghost use Rattle.ark_base.specs.ElementBytes.{residue_format, residue_tells};

    ghost format = { λ _. residue M.MODULUS number };

    ghost format_law = { λ _. residue_format (numbering M.modulus) };

    ghost Shown = { Self };

    ghost shown = { λ x. x };

    ghost tells = { λ _. residue_tells (numbering M.modulus) };
}

impl<M: PrimeModulus32> CanonicalSerialize for PrimeField32<M> {
    ghost use Rattle.ark_math_formats.proofs.Formats.Modes.{keeps_itself};
    ghost use Rattle.ark_base.specs.Widths.{residue};
    ghost use Rattle.ark_base.specs.Element32.{number};

    fn serialize_with_mode<W: Sink>(
        &self,
        writer: &mut W,
        _mode: Compress,
    ) -> Result<(), SerializationError> {
        write_number(self.value() as u64, writer, PrimeField32::<M>::width())
    }

    fn serialized_size(&self, _mode: Compress) -> Option<usize> {
        Some(PrimeField32::<M>::width())
    }

    ghost both_modes = { λ _ _. keeps_itself (residue M.MODULUS number) };
}

impl<M: PrimeModulus32> Valid for PrimeField32<M> {
    fn check(&self) -> Result<(), SerializationError> {
        Ok(())
    }
}

impl<M: PrimeModulus32> CanonicalDeserialize for PrimeField32<M> {
    ghost takes_memory = { ⊥ };

    fn deserialize_with_mode<R: Source>(
        _alloc: Global,
        reader: &mut R,
        _mode: Compress,
    ) -> Result<Self, SerializationError> {
        let value = read_number(reader, PrimeField32::<M>::width())?;
        if value < M::MODULUS as u64 {
            Ok(PrimeField32::reduce(value))
        } else {
            Err(SerializationError::InvalidData)
        }
    }
}
