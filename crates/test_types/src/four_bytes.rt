//! The field of four elements in bytes: an element's number, below four, in one byte.

ghost use Rattle.std.specs.Prelude.{◌≡◌, ◌≤◌, IfSome, IsNone};
ghost use Rattle.ark_math_formats.specs.Format.{number, stored};
ghost use Rattle.test_types.specs.FourBytes.{four_number, four_format, four_tells};

use crate::four::Four;
use ark_base::{
    CanonicalDeserialize, CanonicalSerialize, Compress, SerializationError, Sink, Source, Spelled,
    Valid, read_number, write_number,
};
use std::alloc::Global;

impl Four {
    /// The element's number: the high bit counts two, and the low one one.
    pub fn to_number(self) -> u64
        ensures { result ≡ four_number self }
    {
        match (self.high, self.low) {
            (false, false) => 0,
            (false, true) => 1,
            (true, false) => 2,
            (true, true) => 3,
        }
    }

    /// The element with this number, where it is below four.
    pub fn with_number(number: u64) -> Option<Four>
        ensures some { IfSome result (λ x. number ≡ four_number x) }
        ensures none { IsNone result → 4 ≤ number }
    {
        if number < 4 {
            Some(Four {
                high: 1 < number,
                low: number % 2 == 1,
            })
        } else {
            None
        }
    }
}

impl Spelled for Four {
    ghost format = { λ _. stored (number 1) four_number };

    ghost format_law = { λ _. four_format };

    ghost Shown = { Self };

    ghost shown = { λ x. x };

    ghost tells = { λ _. four_tells };
}

impl CanonicalSerialize for Four {
    ghost use Rattle.ark_math_formats.proofs.Formats.Modes.{keeps_itself};

    fn serialize_with_mode<W: Sink>(
        &self,
        writer: &mut W,
        _mode: Compress,
    ) -> Result<(), SerializationError> {
        write_number(self.to_number(), writer, 1)
    }

    fn serialized_size(&self, _mode: Compress) -> Option<usize> {
        Some(1)
    }

    ghost both_modes = { λ _ _. keeps_itself (stored (number 1) four_number) };
}

impl Valid for Four {
    fn check(&self) -> Result<(), SerializationError> {
        Ok(())
    }
}

impl CanonicalDeserialize for Four {
    ghost takes_memory = { ⊥ };

    fn deserialize_with_mode<R: Source>(
        _alloc: Global,
        reader: &mut R,
        _mode: Compress,
    ) -> Result<Self, SerializationError> {
        match Four::with_number(read_number(reader, 1)?) {
            Some(value) => Ok(value),
            None => Err(SerializationError::InvalidData),
        }
    }
}
