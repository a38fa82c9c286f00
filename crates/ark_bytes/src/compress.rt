//! The two modes, and the way from one to the other.

ghost use Rattle.ark_bytes.specs.Reading.{source_state};
ghost use Rattle.ark_bytes.specs.Writing.{sink_state};
ghost use Rattle.ark_bytes.specs.Recompressing.{Recompresses};

use crate::error::SerializationError;
use crate::sink::Sink;
use crate::source::Source;
use crate::traits::{CanonicalDeserialize, CanonicalSerialize};
use std::alloc::Global;

/// Whether a type that has a short spelling is spelled by it. Nothing in the bytes tells the mode.
#[derive(Clone, Copy, Debug, PartialEq, Eq, Hash)]
pub enum Compress {
    /// The short spelling.
    Yes,
    /// The full spelling.
    No,
}

/// Reads a value that is spelled in the mode `from`, and writes its spelling in the mode `to`. After a
/// refusal of reading nothing was written, and after one of writing a beginning of that spelling.
pub fn recompress<T: CanonicalSerialize + CanonicalDeserialize, R: Source, W: Sink>(
    alloc: Global,
    reader: &mut R,
    from: Compress,
    writer: &mut W,
    to: Compress,
) -> Result<(), SerializationError>
    ensures { Recompresses (T.format from) (T.format to) T.takes_memory
        (source_state R.remaining R.failures reader.old) (source_state R.remaining R.failures reader.new)
        (sink_state W.contents W.failures writer.old) (sink_state W.contents W.failures writer.new) result }
{
    let value = T::deserialize_with_mode(alloc, reader, from)?;
    value.serialize_with_mode(writer, to)
}
