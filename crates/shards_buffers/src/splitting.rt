//! Splitting bytes.

ghost use Rattle.std.specs.Prelude.{◌≡◌, ◌⊎◌, ◌↔◌, ℕ, ◌+◌, ◌<◌, ◌≤◌, length, flat_map, Err, IfErr, OnOk, OnErr, IsTrue};
ghost use Rattle.shards_buffers.specs.Sizes.{FitRun};
ghost use Rattle.shards_buffers.specs.Runs.{AreAllPieces, contents_of};

use crate::error::BufferError;
use crate::sizes::piece_start;
use shards_format::StripeCode;
use shards_streams::{ListSink, PieceWriter, pieces_of};
use std::alloc::Global;

/// Writes all pieces of these bytes with this label, one after another: `piece_start` tells where each begins, and
/// how many bytes they have in all.
///
/// `Length` comes where `pieces` has another length than that, or at a label of 2^16 bytes or a file of 2^62.
pub fn split<C: StripeCode>(
    alloc: Global,
    code: &C,
    label: &[u8],
    bytes: &[u8],
    pieces: &mut [u8],
) -> Result<(), BufferError>
    ensures pieces { OnOk result (AreAllPieces C.number (C.k_of code.now) (C.n_of code.now)
        label.now bytes.now pieces.new) }
    ensures kept { OnErr result (pieces.new ≡ pieces.old) }
    ensures taken { OnOk result (FitRun (C.k_of code.now) (C.n_of code.now)
        (length label.now) (length bytes.now) (length pieces.old)) }
    ensures length { (result ≡ Err BufferError.Length) ↔ (¬ FitRun (C.k_of code.now) (C.n_of code.now)
        (length label.now) (length bytes.now) (length pieces.old)) }
    ensures errors { IfErr result (λ e. (e ≡ BufferError.Memory) ⊎ (e ≡ BufferError.Length)) }
{
    if !is_room(code, label.len(), bytes.len(), pieces.len()) {
        return Err(BufferError::Length);
    }
    match pieces_of(alloc, code, label, bytes) {
        Ok(made) => {
            copy_pieces(&made.0, pieces);
            Ok(())
        }
        Err(_) => Err(BufferError::Memory),
    }
}

// Whether a list of so many bytes is as long as all pieces.
fn is_room<C: StripeCode>(code: &C, label_len: usize, len: usize, size: usize) -> bool
    ensures { IsTrue result ↔ FitRun (C.k_of code.now) (C.n_of code.now) label_len len size }
{
    match piece_start(code.k(), code.n(), code.n(), label_len, len) {
        Some(end) => end == size,
        None => false,
    }
}

// Writes what the sinks took, one after another.
fn copy_pieces(writers: &[PieceWriter<ListSink>], pieces: &mut [u8])
    requires { length pieces.old ≡ length (flat_map contents_of writers.now) }
    ensures { pieces.new ≡ flat_map contents_of writers.now }
{
    let mut end = 0;
    for writer in writers {
        let piece = writer.sink().bytes.as_slice();
        let start = end;
        end += piece.len();
        pieces[start..end].copy_from_slice(piece);
    }
}
