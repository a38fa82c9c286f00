//! Elements of prime fields in bytes: the number below the modulus, the low byte first.

ghost use Rattle.std.specs.Prelude.{◌≡◌};
ghost use Rattle.ark_base.specs.Widths.{width_of};

use crate::prime_field::{PrimeField, PrimeModulus};
use ark_bytes::{
    CanonicalDeserialize, CanonicalSerialize, Compress, SerializationError, Sink, Source, Spelled,
    Valid, read_number, write_number,
};
use std::alloc::Global;
use std::marker::PhantomData;

impl<M: PrimeModulus> PrimeField<M> {
    // How many bytes an element has: as many as the modulus.
    fn width() -> usize
        ensures { result ≡ width_of M.MODULUS }
    {
        if M::MODULUS < 1 << 8 {
            1
        } else if M::MODULUS < 1 << 16 {
            2
        } else if M::MODULUS < 1 << 24 {
            3
        } else if M::MODULUS < 1 << 32 {
            4
        } else if M::MODULUS < 1 << 40 {
            5
        } else if M::MODULUS < 1 << 48 {
            6
        } else if M::MODULUS < 1 << 56 {
            7
        } else {
            8
        }
    }
}

impl<M: PrimeModulus> Spelled for PrimeField<M> {
    ghost use Rattle.ark_base.specs.Widths.{residue};
    ghost use Rattle.ark_base.specs.Element.{number, numbering};
    ghost use Rattle.ark_base.specs.ElementBytes.{residue_format, residue_tells};

    ghost format = { λ _. residue M.MODULUS number };

    ghost format_law = { λ _. residue_format numbering };

    ghost Shown = { Self };

    ghost shown = { λ x. x };

    ghost tells = { λ _. residue_tells numbering };
}

impl<M: PrimeModulus> CanonicalSerialize for PrimeField<M> {
    ghost use Rattle.ark_math_formats.proofs.Formats.Modes.{keeps_itself};
    ghost use Rattle.ark_base.specs.Widths.{residue};
    ghost use Rattle.ark_base.specs.Element.{number};

    fn serialize_with_mode<W: Sink>(
        &self,
        writer: &mut W,
        _mode: Compress,
    ) -> Result<(), SerializationError> {
        write_number(self.value, writer, PrimeField::<M>::width())
    }

    fn serialized_size(&self, _mode: Compress) -> Option<usize> {
        Some(PrimeField::<M>::width())
    }

    ghost both_modes = { λ _ _. keeps_itself (residue M.MODULUS number) };
}

impl<M: PrimeModulus> Valid for PrimeField<M> {
    fn check(&self) -> Result<(), SerializationError> {
        Ok(())
    }
}

impl<M: PrimeModulus> CanonicalDeserialize for PrimeField<M> {
    ghost takes_memory = { ⊥ };

    fn deserialize_with_mode<R: Source>(
        _alloc: Global,
        reader: &mut R,
        _mode: Compress,
    ) -> Result<Self, SerializationError> {
        let value = read_number(reader, PrimeField::<M>::width())?;
        if value < M::MODULUS {
            Ok(PrimeField {
                value,
                marker: PhantomData,
            })
        } else {
            Err(SerializationError::InvalidData)
        }
    }
}
