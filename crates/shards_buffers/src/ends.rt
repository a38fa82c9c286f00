//! What pieces in memory begin and end with.

ghost use Rattle.std.specs.Prelude.{◌≡◌, ◌≢◌, ◌⊎◌, ℕ, ◌+◌, ◌*◌, ◌<◌, ◌≤◌, ◌^◌, List, ◌++◌, length, Some, IfOk, IfErr, IfSome, IsNone};
ghost use Rattle.std.specs.Int.{w64, to_le_bytes};
ghost use Rattle.shards_format.specs.Headers.{header_bytes};
ghost use Rattle.shards_format.specs.Trailers.{trailer_bytes};
ghost use Rattle.shards_format.specs.declared.header.Header.{Header};
ghost use Rattle.shards_buffers.specs.Runs.{HasTrailer};

use crate::error::BufferError;
use shards_format::{HEADER, Header, Trailer, trailer_size};
use std::alloc::Global;

/// The header that the bytes begin with: it tells `k`, `n`, the first piece's place and the label's length.
pub fn first_header(pieces: &[u8]) -> Option<Header>
    ensures header { IfSome result (λ h. (rest : List ℕ)
        × (pieces.now ≡ header_bytes h.k h.n h.number h.label_len ++ rest)) }
    ensures none { IsNone result → (h : Header) (rest : List ℕ)
        → pieces.now ≢ header_bytes h.k h.n h.number h.label_len ++ rest }
{
    if pieces.len() < HEADER {
        return None;
    }
    let (head, _) = pieces.split_at(HEADER);
    match Header::from_bytes(head) {
        Ok(header) => Some(header),
        Err(_) => None,
    }
}

/// The length of the file whose pieces these are, as the trailer has it that they end with.
pub fn file_size(pieces: &[u8]) -> Option<u64>
    ensures { (front digests : List ℕ) (len : ℕ) → len < 2 ^ 62
        → pieces.now ≡ front ++ trailer_bytes digests len → result ≡ Some len }
{
    if pieces.len() < 40 {
        return None;
    }
    let (_, end) = pieces.split_at(pieces.len() - 40);
    let (number, _) = end.split_at(8);
    Some(number_of(number))
}

// The number that eight bytes spell.
fn number_of(bytes: &[u8]) -> u64
    requires { length bytes.now ≡ 8 }
    ensures { bytes.now ≡ to_le_bytes w64 result }
{
    u64::from_le_bytes([
        bytes[0], bytes[1], bytes[2], bytes[3], bytes[4], bytes[5], bytes[6], bytes[7],
    ])
}

/// The trailer of one of `n` pieces that the bytes end with: it has the file's length, and the digests of all its
/// pieces. `NotPieces` where there is none.
pub fn last_trailer(alloc: Global, n: usize, pieces: &[u8]) -> Result<Trailer, BufferError>
    requires { n ≤ 65536 }
    ensures trailer { IfOk result (λ t. HasTrailer n t.digests.items t.len pieces.now) }
    ensures errors { IfErr result (λ e. (e ≡ BufferError.Memory) ⊎ ((e ≡ BufferError.NotPieces)
        × ((digests : List ℕ) (len : ℕ) → ¬ HasTrailer n digests len pieces.now))) }
{
    let size = trailer_size(n);
    if pieces.len() < size {
        return Err(BufferError::NotPieces);
    }
    let (_, end) = pieces.split_at(pieces.len() - size);
    match Trailer::from_bytes(alloc, n, end)? {
        Some(trailer) => Ok(trailer),
        None => Err(BufferError::NotPieces),
    }
}
