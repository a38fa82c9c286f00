//! Numbers of four words in 32 bytes, the low byte first.

ghost use Rattle.std.specs.Prelude.{◌≡◌};
ghost use Rattle.ark_math_formats.specs.Format.{number};
ghost use Rattle.ark_bytes.specs.Reading.{source_state, ReadsAs};
ghost use Rattle.ark_bytes.specs.Writing.{sink_state, Writes};
ghost use Rattle.ark_prime256.specs.Words.{integer};

use crate::words::BigInteger256;
use ark_bytes::{
    CanonicalDeserialize, CanonicalSerialize, Compress, SerializationError, Sink, Source,
};
use std::alloc::Global;

// Writes a number in 32 bytes. `IoError` comes where the writer fails.
pub fn write_words<W: Sink>(
    value: BigInteger256,
    writer: &mut W,
    mode: Compress,
) -> Result<(), SerializationError>
    ensures { Writes (number 32) (integer value) (sink_state W.contents W.failures writer.old)
        (sink_state W.contents W.failures writer.new) result }
{
    (value.w0, (value.w1, (value.w2, value.w3))).serialize_with_mode(writer, mode)
}

// Reads a number of 32 bytes. `IoError` comes where the reader ends or fails before the last one, and is the
// only error.
pub fn read_words<R: Source>(
    alloc: Global,
    reader: &mut R,
    mode: Compress,
) -> Result<BigInteger256, SerializationError>
    ensures { ReadsAs integer (number 32) ⊥ (source_state R.remaining R.failures reader.old)
        (source_state R.remaining R.failures reader.new) result }
{
    let (w0, (w1, (w2, w3))): (u64, (u64, (u64, u64))) =
        CanonicalDeserialize::deserialize_with_mode(alloc, reader, mode)?;
    Ok(BigInteger256 { w0, w1, w2, w3 })
}
