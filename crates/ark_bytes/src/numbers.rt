//! Numbers, the low byte first.

ghost use Rattle.std.specs.Prelude.{◌≡◌, ◌<◌, ◌≤◌, ◌^◌, length};
ghost use Rattle.ark_math_formats.specs.Format.{number, little_endian};
ghost use Rattle.ark_bytes.specs.Reading.{source_state, Reads};
ghost use Rattle.ark_bytes.specs.Writing.{sink_state, Writes};

use crate::compress::Compress;
use crate::error::SerializationError;
use crate::sink::Sink;
use crate::source::Source;
use crate::traits::{CanonicalDeserialize, CanonicalSerialize, Spelled, Valid};
use std::alloc::Global;

// The number that these bytes spell.
fn number_of(bytes: &[u8]) -> u64
    requires { length bytes.now ≤ 8 }
    ensures spelled { little_endian (length bytes.now) result ≡ bytes.now }
    ensures below { result < 256 ^ length bytes.now }
{
    let mut value = 0;
    let mut i = bytes.len();
    while 0 < i {
        i -= 1;
        value = value * 256 + bytes[i] as u64;
    }
    value
}

/// Reads a number of so many bytes. `IoError` comes where the reader ends or fails before the last one, and
/// is the only error.
pub fn read_number<R: Source>(reader: &mut R, width: usize) -> Result<u64, SerializationError>
    requires { width ≤ 8 }
    ensures { Reads (number width) ⊥ (source_state R.remaining R.failures reader.old)
        (source_state R.remaining R.failures reader.new) result }
{
    let mut buffer = [0u8; 8];
    reader.take_all(&mut buffer[..width])?;
    Ok(number_of(&buffer[..width]))
}

/// Writes a number in so many bytes. `IoError` comes where the writer fails.
pub fn write_number<W: Sink>(
    value: u64,
    writer: &mut W,
    width: usize,
) -> Result<(), SerializationError>
    requires width { width ≤ 8 }
    requires fits { value < 256 ^ width }
    ensures { Writes (number width) value (sink_state W.contents W.failures writer.old)
        (sink_state W.contents W.failures writer.new) result }
{
    let bytes = value.to_le_bytes();
    match writer.put(&bytes[..width]) {
        Ok(()) => Ok(()),
        Err(_) => Err(SerializationError::IoError),
    }
}

impl Spelled for u8 {
    ghost use Rattle.std.specs.Prelude.{ℕ};
    ghost use Rattle.ark_math_formats.specs.Format.{number};
    ghost use Rattle.ark_math_formats.proofs.Formats.Ends.{number_is_format};
    ghost use Rattle.ark_math_formats.proofs.Formats.OneToOne.{number_tells};

    ghost format = { λ _. number 1 };

    ghost format_law = { λ _. number_is_format 1 };

    ghost Shown = { ℕ };

    ghost shown = { λ n. n };

    ghost tells = { λ _. number_tells 1 };
}

impl CanonicalSerialize for u8 {
    ghost use Rattle.ark_math_formats.specs.Format.{number};
    ghost use Rattle.ark_math_formats.proofs.Formats.Modes.{keeps_itself};

    fn serialize_with_mode<W: Sink>(
        &self,
        writer: &mut W,
        _mode: Compress,
    ) -> Result<(), SerializationError> {
        write_number(u64::from(*self), writer, 1)
    }

    fn serialized_size(&self, _mode: Compress) -> Option<usize> {
        Some(1)
    }

    ghost both_modes = { λ _ _. keeps_itself (number 1) };
}

impl Valid for u8 {
    fn check(&self) -> Result<(), SerializationError> {
        Ok(())
    }
}

impl CanonicalDeserialize for u8 {
    ghost takes_memory = { ⊥ };

    fn deserialize_with_mode<R: Source>(
        _alloc: Global,
        reader: &mut R,
        _mode: Compress,
    ) -> Result<Self, SerializationError> {
        Ok(read_number(reader, 1)? as u8)
    }
}

impl Spelled for u32 {
    ghost use Rattle.std.specs.Prelude.{ℕ};
    ghost use Rattle.ark_math_formats.specs.Format.{number};
    ghost use Rattle.ark_math_formats.proofs.Formats.Ends.{number_is_format};
    ghost use Rattle.ark_math_formats.proofs.Formats.OneToOne.{number_tells};

    ghost format = { λ _. number 4 };

    ghost format_law = { λ _. number_is_format 4 };

    ghost Shown = { ℕ };

    ghost shown = { λ n. n };

    ghost tells = { λ _. number_tells 4 };
}

impl CanonicalSerialize for u32 {
    ghost use Rattle.ark_math_formats.specs.Format.{number};
    ghost use Rattle.ark_math_formats.proofs.Formats.Modes.{keeps_itself};

    fn serialize_with_mode<W: Sink>(
        &self,
        writer: &mut W,
        _mode: Compress,
    ) -> Result<(), SerializationError> {
        write_number(u64::from(*self), writer, 4)
    }

    fn serialized_size(&self, _mode: Compress) -> Option<usize> {
        Some(4)
    }

    ghost both_modes = { λ _ _. keeps_itself (number 4) };
}

impl Valid for u32 {
    fn check(&self) -> Result<(), SerializationError> {
        Ok(())
    }
}

impl CanonicalDeserialize for u32 {
    ghost takes_memory = { ⊥ };

    fn deserialize_with_mode<R: Source>(
        _alloc: Global,
        reader: &mut R,
        _mode: Compress,
    ) -> Result<Self, SerializationError> {
        Ok(read_number(reader, 4)? as u32)
    }
}

impl Spelled for u64 {
    ghost use Rattle.std.specs.Prelude.{ℕ};
    ghost use Rattle.ark_math_formats.specs.Format.{number};
    ghost use Rattle.ark_math_formats.proofs.Formats.Ends.{number_is_format};
    ghost use Rattle.ark_math_formats.proofs.Formats.OneToOne.{number_tells};

    ghost format = { λ _. number 8 };

    ghost format_law = { λ _. number_is_format 8 };

    ghost Shown = { ℕ };

    ghost shown = { λ n. n };

    ghost tells = { λ _. number_tells 8 };
}

impl CanonicalSerialize for u64 {
    ghost use Rattle.ark_math_formats.specs.Format.{number};
    ghost use Rattle.ark_math_formats.proofs.Formats.Modes.{keeps_itself};

    fn serialize_with_mode<W: Sink>(
        &self,
        writer: &mut W,
        _mode: Compress,
    ) -> Result<(), SerializationError> {
        write_number(*self, writer, 8)
    }

    fn serialized_size(&self, _mode: Compress) -> Option<usize> {
        Some(8)
    }

    ghost both_modes = { λ _ _. keeps_itself (number 8) };
}

impl Valid for u64 {
    fn check(&self) -> Result<(), SerializationError> {
        Ok(())
    }
}

impl CanonicalDeserialize for u64 {
    ghost takes_memory = { ⊥ };

    fn deserialize_with_mode<R: Source>(
        _alloc: Global,
        reader: &mut R,
        _mode: Compress,
    ) -> Result<Self, SerializationError> {
        read_number(reader, 8)
    }
}

impl Spelled for usize {
    ghost use Rattle.std.specs.Prelude.{ℕ};
    ghost use Rattle.ark_math_formats.specs.Format.{number};
    ghost use Rattle.ark_math_formats.proofs.Formats.Ends.{number_is_format};
    ghost use Rattle.ark_math_formats.proofs.Formats.OneToOne.{number_tells};

    ghost format = { λ _. number 8 };

    ghost format_law = { λ _. number_is_format 8 };

    ghost Shown = { ℕ };

    ghost shown = { λ n. n };

    ghost tells = { λ _. number_tells 8 };
}

impl CanonicalSerialize for usize {
    ghost use Rattle.ark_math_formats.specs.Format.{number};
    ghost use Rattle.ark_math_formats.proofs.Formats.Modes.{keeps_itself};

    fn serialize_with_mode<W: Sink>(
        &self,
        writer: &mut W,
        _mode: Compress,
    ) -> Result<(), SerializationError> {
        write_number(*self as u64, writer, 8)
    }

    fn serialized_size(&self, _mode: Compress) -> Option<usize> {
        Some(8)
    }

    ghost both_modes = { λ _ _. keeps_itself (number 8) };
}

impl Valid for usize {
    fn check(&self) -> Result<(), SerializationError> {
        Ok(())
    }
}

impl CanonicalDeserialize for usize {
    ghost takes_memory = { ⊥ };

    fn deserialize_with_mode<R: Source>(
        _alloc: Global,
        reader: &mut R,
        _mode: Compress,
    ) -> Result<Self, SerializationError> {
        Ok(read_number(reader, 8)? as usize)
    }
}
