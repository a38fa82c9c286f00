//! What writing and reading give together.

ghost use Rattle.std.specs.Prelude.{◌≡◌, List, ℕ, ◌++◌, IfOk, IsOkUnless};
ghost use Rattle.ark_math_formats.specs.Format.{AreSpelledAlike, BeginsWithOneOfTwo};

use crate::compress::Compress;
use crate::error::SerializationError;
use crate::sink::IoSink;
use crate::traits::{CanonicalDeserialize, CanonicalSerialize};
use std::alloc::Global;

// The bytes that spell a value.
fn bytes_of<T: CanonicalSerialize>(
    alloc: Global,
    value: &T,
    mode: Compress,
) -> Result<Vec<u8>, SerializationError>
    ensures has { IfOk result (λ bytes. (T.format mode).HasSpelling value.now) }
    ensures spelled { IfOk result (λ bytes. bytes.items ≡ (T.format mode).spelling value.now) }
    ensures memory { IsOkUnless result SerializationError.Memory }
{
    let size = value.serialized_size(mode).unwrap_or(usize::MAX);
    let mut sink = IoSink::new(Vec::with_capacity(alloc, size)?);
    match value.serialize_with_mode(&mut sink, mode) {
        Ok(()) => Ok(sink.into_inner()),
        // A list of bytes fails only where it may not grow.
        Err(_) => Err(SerializationError::Memory),
    }
}

/// A value that is written, and read back from just these bytes, has the same spelling, and so is the same
/// one, as far as its type's spellings tell. `Memory` is the only error.
pub fn written_then_read<T: CanonicalSerialize + CanonicalDeserialize>(
    alloc: Global,
    value: &T,
    mode: Compress,
) -> Result<T, SerializationError>
    ensures alike { IfOk result (λ read. AreSpelledAlike (T.format mode) read value.now) }
    ensures same { IfOk result (λ read. T.shown read ≡ T.shown value.now) }
    ensures memory { IsOkUnless result SerializationError.Memory }
{
    let bytes = bytes_of(alloc, value, mode)?;
    let mut source = bytes.as_slice();
    T::deserialize_with_mode(alloc, &mut source, mode)
}

/// A round trip of a value between two modes. The bytes begin with its spelling in the mode `from`: the first
/// list is its spelling in the mode `to`, and the second what comes back from that one, in the mode `from`
/// again, which is just what the bytes begin with. `Memory` is the only error then; bytes that begin with no
/// spelling are refused.
pub fn recompressed_and_back<T: CanonicalSerialize + CanonicalDeserialize>(
    alloc: Global,
    bytes: &[u8],
    from: Compress,
    to: Compress,
) -> Result<(Vec<u8>, Vec<u8>), SerializationError>
    ensures same { IfOk result (λ lists.
        BeginsWithOneOfTwo (T.format from) (T.format to) bytes.now lists.1.items lists.0.items) }
    ensures memory { (value : T) (rest : List ℕ) → (T.format from).HasSpelling value
        → bytes.now ≡ (T.format from).spelling value ++ rest → IsOkUnless result SerializationError.Memory }
{
    let mut source = bytes;
    let value = T::deserialize_with_mode(alloc, &mut source, from)?;
    let there = bytes_of(alloc, &value, to)?;
    let mut turned = there.as_slice();
    let again = T::deserialize_with_mode(alloc, &mut turned, to)?;
    let back = bytes_of(alloc, &again, from)?;
    Ok((there, back))
}
