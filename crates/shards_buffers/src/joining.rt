//! Joining pieces.

ghost use Rattle.std.specs.Prelude.{◌≡◌, ◌≢◌, ◌⊎◌, ℕ, List, length, Err, IfOk, IfErr, OnOk, OnErr};
ghost use Rattle.shards_format.specs.Files.{AreDigests};
ghost use Rattle.shards_buffers.specs.Runs.{AreEnough, EndAsPieces, HasCollision, HasDamage, HasTrailer, IsFile};

use crate::ends::last_trailer;
use crate::error::BufferError;
use crate::opening::open_pieces;
use shards_format::{StripeCode, Trailer};
use shards_streams::{ChosenPieces, ListSink, StreamError, join_into};
use std::alloc::Global;

/// Writes the file of `k` pieces or more, which stand whole in the list of pieces, one after another in any
/// order: `file_size` tells how many bytes it has. The first `k` pieces are read, and the last trailer.
///
/// `Length` comes where `bytes` has another length than this trailer says, `NotPieces` where the list doesn't begin
/// with `k` pieces of this code at places that differ, or has no trailer, and `Damaged` where one of them has not
/// its digest of the trailer.
pub fn join<C: StripeCode>(
    alloc: Global,
    code: &C,
    pieces: &[u8],
    bytes: &mut [u8],
) -> Result<(), BufferError>
    // Pieces of a file give this file.
    ensures same { OnOk result ((label file : List ℕ)
        → AreEnough C.number (C.k_of code.now) (C.n_of code.now) label file pieces.now → bytes.new ≡ file) }
    // They are never refused but for memory, or a list of bytes of another length.
    ensures refused { IfErr result (λ e. (label file : List ℕ)
        → AreEnough C.number (C.k_of code.now) (C.n_of code.now) label file pieces.now
        → (e ≡ BufferError.Memory) ⊎ ((e ≡ BufferError.Length) × (length file ≢ length bytes.old))) }
    // Whatever stands before the trailer of a file's pieces, it gives this file, or else a piece there differs from
    // the file's piece at its place, but has its digest.
    ensures trusted { OnOk result ((label file : List ℕ)
        → EndAsPieces C.number (C.k_of code.now) (C.n_of code.now) label file pieces.now
        → (bytes.new ≡ file) ⊎ HasCollision C.number (C.k_of code.now) (C.n_of code.now) label file pieces.now) }
    ensures kept { OnErr result (bytes.new ≡ bytes.old) }
    ensures length { result ≡ Err BufferError.Length → (digests : List ℕ) × (len : ℕ)
        × HasTrailer (C.n_of code.now) digests len pieces.now × (len ≢ length bytes.old) }
    ensures damaged { result ≡ Err BufferError.Damaged → (digests : List ℕ)
        × HasTrailer (C.n_of code.now) digests (length bytes.old) pieces.now
        × HasDamage (C.k_of code.now) (C.n_of code.now) (length bytes.old) digests pieces.now }
{
    let _ = code.k();
    let trailer = last_trailer(alloc, code.n(), pieces)?;
    if trailer.len as usize != bytes.len() {
        return Err(BufferError::Length);
    }
    let joined = joined(alloc, code, &trailer, pieces)?;
    bytes.copy_from_slice(&joined);
    Ok(())
}

// The file of the first `k` pieces with this trailer.
fn joined<C: StripeCode>(
    alloc: Global,
    code: &C,
    trailer: &Trailer,
    pieces: &[u8],
) -> Result<Vec<u8>, BufferError>
    ensures len { IfOk result (λ joined. length joined.items ≡ trailer.now.len) }
    ensures same { IfOk result (λ joined. (label file : List ℕ)
        → AreEnough C.number (C.k_of code.now) (C.n_of code.now) label file pieces.now
        → length file ≡ trailer.now.len → joined.items ≡ file) }
    ensures trusted { IfOk result (λ joined. (label file : List ℕ) → IsFile label file
        → AreDigests C.number (C.k_of code.now) (C.n_of code.now) label file trailer.now.digests.items
        → length file ≡ trailer.now.len → (joined.items ≡ file)
        ⊎ HasCollision C.number (C.k_of code.now) (C.n_of code.now) label file pieces.now) }
    ensures refused { IfErr result (λ e. (label file : List ℕ)
        (p : AreEnough C.number (C.k_of code.now) (C.n_of code.now) label file pieces.now)
        → p.digests ≡ trailer.now.digests.items → length file ≡ trailer.now.len → e ≡ BufferError.Memory) }
    ensures damaged { result ≡ Err BufferError.Damaged → HasDamage (C.k_of code.now) (C.n_of code.now)
        trailer.now.len trailer.now.digests.items pieces.now }
    ensures length { result ≢ Err BufferError.Length }
{
    let (places, mut readers) = open_pieces(alloc, code, trailer.len as usize, pieces)?;
    let chosen = ChosenPieces {
        places: &places,
        trailer,
    };
    let mut sink = ListSink::new(alloc);
    match join_into(alloc, code, &chosen, readers.as_mut_slice(), &mut sink) {
        Ok(()) => Ok(sink.bytes),
        Err(error) => Err(in_buffers(error)),
    }
}

// An error, where a sink into memory fails only as a growth is refused.
fn in_buffers(error: StreamError) -> BufferError
    ensures sink { (i : ℕ) → error ≡ StreamError.Write i → result ≡ BufferError.Memory }
    ensures memory { error ≡ StreamError.Memory → result ≡ BufferError.Memory }
    ensures damaged { result ≡ BufferError.Damaged → (i : ℕ) × (error ≡ StreamError.Damaged i) }
    ensures length { result ≢ BufferError.Length }
{
    match error {
        StreamError::Memory | StreamError::Write(_) => BufferError::Memory,
        StreamError::Damaged(_) => BufferError::Damaged,
        _ => BufferError::NotPieces,
    }
}
