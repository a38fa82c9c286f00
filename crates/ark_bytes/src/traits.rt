//! Types that are spelled in bytes.

ghost use Rattle.std.specs.Prelude.{◌≡◌, ◌≤◌, ◌^◌, length, IfSome, IsNone, IsOk};
ghost use Rattle.ark_math_formats.specs.Format.{Format, IsFormat, Tells};
ghost use Rattle.ark_bytes.specs.Reading.{source_state, Reads};
ghost use Rattle.ark_bytes.specs.Writing.{sink_state, Writes};

use crate::compress::Compress;
use crate::error::SerializationError;
use crate::sink::Sink;
use crate::source::Source;
use std::alloc::Global;

/// A type whose values are spelled in bytes, in each mode.
///
/// In a mode no value's spelling begins another's, and a spelling tells what the type shows of its value: the
/// value itself, but for a type that says less.
pub trait Spelled {
    ghost use Rattle.ark_bytes.specs.declared.compress.Compress.{Compress};

    // The spellings, and the bytes after which reading stops.
    ghost format: { Compress → Format Self };

    ghost format_law: { (mode : Compress) → IsFormat (format mode) };

    // What a spelling tells of its value.
    ghost Shown: { Type 0 };

    ghost shown: { Self → Shown };

    ghost tells: { (mode : Compress) → Tells shown (format mode) };
}

/// A type whose values are written. Both modes tell the same: values that are spelled alike in one are so in
/// the other.
pub trait CanonicalSerialize: Spelled {
    ghost use Rattle.ark_math_formats.specs.Format.{KeepsAlike};
    ghost use Rattle.ark_bytes.specs.declared.compress.Compress.{Compress};

    /// Appends the value's spelling in the mode. `IoError` comes only where the writer failed in this call,
    /// and then a beginning of the spelling was appended; it is the only error. No memory is taken.
    fn serialize_with_mode<W: Sink>(
        &self,
        writer: &mut W,
        mode: Compress,
    ) -> Result<(), SerializationError>
        ensures { Writes (Self.format mode) self.now (sink_state W.contents W.failures writer.old)
            (sink_state W.contents W.failures writer.new) result };

    /// How many bytes the spelling in the mode has, and `None` exactly where that is past `usize`.
    fn serialized_size(&self, mode: Compress) -> Option<usize>
        ensures some { IfSome result (λ n. n ≡ length ((Self.format mode).spelling self.now)) }
        ensures none { IsNone result → 2 ^ 64 ≤ length ((Self.format mode).spelling self.now) };

    /// `serialize_with_mode` in the mode `Yes`.
    final fn serialize_compressed<W: Sink>(&self, writer: &mut W) -> Result<(), SerializationError>
        ensures { Writes (Self.format Compress.Yes) self.now
            (sink_state W.contents W.failures writer.old) (sink_state W.contents W.failures writer.new) result }
    {
        self.serialize_with_mode(writer, Compress::Yes)
    }

    /// `serialize_with_mode` in the mode `No`.
    final fn serialize_uncompressed<W: Sink>(
        &self,
        writer: &mut W,
    ) -> Result<(), SerializationError>
        ensures { Writes (Self.format Compress.No) self.now
            (sink_state W.contents W.failures writer.old) (sink_state W.contents W.failures writer.new) result }
    {
        self.serialize_with_mode(writer, Compress::No)
    }

    ghost both_modes: { (mode other : Compress) → KeepsAlike (Self.format mode) (Self.format other) };
}

/// A type that can tell whether a value keeps its invariants, which always hold.
pub trait Valid {
    /// Always `Ok`.
    fn check(&self) -> Result<(), SerializationError>
        ensures { IsOk result };
}

/// A type whose values are read. Every value is checked.
pub trait CanonicalDeserialize: Spelled + Valid + Drop {
    // Whether reading takes memory, and so may answer `Memory`.
    ghost takes_memory: { Type 0 };

    /// Reads a value that is spelled in the mode. `Ok` took exactly a spelling of the value. `InvalidData`:
    /// the bytes that were taken begin no spelling. `IoError`: the reader ended or failed before that was
    /// seen. `Memory` comes where a growth was refused, and only of types whose reading takes memory; nothing
    /// is reserved by a length that was read.
    fn deserialize_with_mode<R: Source>(
        alloc: Global,
        reader: &mut R,
        mode: Compress,
    ) -> Result<Self, SerializationError>
        ensures { Reads (Self.format mode) takes_memory (source_state R.remaining R.failures reader.old)
            (source_state R.remaining R.failures reader.new) result };

    /// `deserialize_with_mode` in the mode `Yes`.
    final fn deserialize_compressed<R: Source>(
        alloc: Global,
        reader: &mut R,
    ) -> Result<Self, SerializationError>
        ensures { Reads (Self.format Compress.Yes) takes_memory (source_state R.remaining R.failures reader.old)
            (source_state R.remaining R.failures reader.new) result }
    {
        Self::deserialize_with_mode(alloc, reader, Compress::Yes)
    }

    /// `deserialize_with_mode` in the mode `No`.
    final fn deserialize_uncompressed<R: Source>(
        alloc: Global,
        reader: &mut R,
    ) -> Result<Self, SerializationError>
        ensures { Reads (Self.format Compress.No) takes_memory (source_state R.remaining R.failures reader.old)
            (source_state R.remaining R.failures reader.new) result }
    {
        Self::deserialize_with_mode(alloc, reader, Compress::No)
    }
}
