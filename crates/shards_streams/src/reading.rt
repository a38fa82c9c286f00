//! Bytes of a source.

ghost use Rattle.std.specs.Prelude.{◌≡◌, ◌⊎◌, ℕ, ◌+◌, ◌<◌, ◌≤◌, List, length, take, Err, IfOk, IfErr, OnOk, OnErr, IsOkUnless};
ghost use Rattle.std.specs.Io.KnownBytes.{IsAtEnd};
ghost use Rattle.ark_bytes.specs.Reading.{source_state, Takes, TakesFewer};
ghost use Rattle.shards_streams.specs.Streams.{GaveSome};

use crate::error::StreamError;
use ark_bytes::Source;
use std::alloc::Global;

/// The next so many bytes of a source; `Read` of this number where it ends or fails before.
pub fn take_bytes<R: Source>(
    alloc: Global,
    source: &mut R,
    number: usize,
    size: usize,
) -> Result<Vec<u8>, StreamError>
    ensures len { IfOk result (λ bytes. length bytes.items ≡ size) }
    ensures takes { IfOk result (λ bytes. Takes (source_state R.remaining R.failures source.old)
        (source_state R.remaining R.failures source.new) bytes.items) }
    ensures some { OnErr result (GaveSome (R.remaining source.old) (R.remaining source.new)) }
    ensures fewer { result ≡ Err (StreamError.Read number) → TakesFewer (source_state R.remaining R.failures source.old)
        (source_state R.remaining R.failures source.new) size }
    ensures errors { IfErr result (λ e. (e ≡ StreamError.Memory) ⊎ (e ≡ StreamError.Read number)) }
{
    let mut bytes = vec![in alloc; 0u8; size]?;
    fill(source, number, bytes.as_mut_slice())?;
    Ok(bytes)
}

// Fills the bytes.
fn fill<R: Source>(source: &mut R, number: usize, bytes: &mut [u8]) -> Result<(), StreamError>
    ensures takes { OnOk result (Takes (source_state R.remaining R.failures source.old)
        (source_state R.remaining R.failures source.new) bytes.new) }
    ensures some { OnErr result (GaveSome (R.remaining source.old) (R.remaining source.new)) }
    ensures fewer { OnErr result (TakesFewer (source_state R.remaining R.failures source.old)
        (source_state R.remaining R.failures source.new) (length bytes.old)) }
    ensures errors { IsOkUnless result (StreamError.Read number) }
{
    match source.take_all(bytes) {
        Ok(()) => Ok(()),
        Err(_) => Err(StreamError::Read(number)),
    }
}

/// The next bytes of a source, at most so many, and fewer only at its end.
pub fn take_block<R: Source>(
    alloc: Global,
    source: &mut R,
    size: usize,
) -> Result<Vec<u8>, StreamError>
    ensures few { IfOk result (λ bytes. length bytes.items ≤ size) }
    ensures takes { IfOk result (λ bytes. Takes (source_state R.remaining R.failures source.old)
        (source_state R.remaining R.failures source.new) bytes.items) }
    ensures end { IfOk result (λ bytes. length bytes.items < size → IsAtEnd (R.remaining source.new)) }
    ensures some { OnErr result (GaveSome (R.remaining source.old) (R.remaining source.new)) }
    ensures failed { result ≡ Err (StreamError.Read 0) → R.failures source.old < R.failures source.new }
    ensures errors { IfErr result (λ e. (e ≡ StreamError.Memory) ⊎ (e ≡ StreamError.Read 0)) }
{
    let mut bytes = vec![in alloc; 0u8; size]?;
    let count = fill_some(source, bytes.as_mut_slice())?;
    bytes.truncate(count);
    Ok(bytes)
}

// Fills the bytes as far as the source has some, and tells how far.
fn fill_some<R: Source>(source: &mut R, bytes: &mut [u8]) -> Result<usize, StreamError>
    ensures few { IfOk result (λ count. count ≤ length bytes.old) }
    ensures takes { IfOk result (λ count. Takes (source_state R.remaining R.failures source.old)
        (source_state R.remaining R.failures source.new) (take count bytes.new)) }
    ensures end { IfOk result (λ count. count < length bytes.old → IsAtEnd (R.remaining source.new)) }
    ensures some { OnErr result (GaveSome (R.remaining source.old) (R.remaining source.new)) }
    ensures failed { OnErr result (R.failures source.old < R.failures source.new) }
    ensures errors { IsOkUnless result (StreamError.Read 0) }
{
    let mut count = 0;
    while count < bytes.len() {
        match source.take(&mut bytes[count..]) {
            Ok(0) => return Ok(count),
            Ok(more) => count += more,
            Err(_) => return Err(StreamError::Read(0)),
        }
    }
    Ok(count)
}
