//! The pieces that a list of bytes begins with, one after another.

ghost use Rattle.std.specs.Prelude.{◌≡◌, ◌≢◌, ◌⊎◌, ◌↔◌, ℕ, ◌+◌, ◌*◌, ◌<◌, ◌≤◌, ◌^◌, List, ◌++◌, length, get_or, true, false, IfOk, IfErr, IfSome, IsNone, IsTrue};
ghost use Rattle.shards_format.specs.Files.{AreApart};
ghost use Rattle.shards_format.specs.Headers.{header_bytes};
ghost use Rattle.shards_streams.specs.Laws.{HasPassed};
ghost use Rattle.shards_streams.specs.Readers.{piece_source};
ghost use Rattle.shards_buffers.specs.Runs.{AreSized, IsSized};
ghost use Rattle.shards_buffers.specs.Opened.{HaveOpened};

use crate::ends::first_header;
use crate::error::BufferError;
use crate::sizes::piece_size;
use shards_format::{HEADER, Header, StripeCode};
use shards_streams::PieceReader;
use std::alloc::{AllocError, Global};

/// The places of the first `k` pieces of a file of so many bytes, which differ, and for each a reader that has read
/// its header and the label.
pub(crate) fn open_pieces<'a, C: StripeCode>(
    alloc: Global,
    code: &C,
    len: usize,
    pieces: &'a [u8],
) -> Result<(Vec<usize>, Vec<PieceReader<&'a [u8]>>), BufferError>
    requires { len < 2 ^ 62 }
    ensures opened { IfOk result (λ opened. (left : List ℕ)
        × HaveOpened (C.k_of code.now) (C.n_of code.now) len (C.k_of code.now) pieces.entry.now left
        opened.0.items opened.1.items) }
    ensures apart { IfOk result (λ opened. AreApart opened.0.items) }
    ensures few { C.n_of code.now ≤ 65536 }
    ensures errors { IfErr result (λ e. (e ≡ BufferError.Memory) ⊎ ((e ≡ BufferError.NotPieces)
        × (¬ AreSized (C.k_of code.now) (C.n_of code.now) len pieces.entry.now))) }
{
    let n = code.n();
    let opened = open_each(alloc, code, len, pieces)?;
    if are_apart(alloc, n, &opened.0)? {
        Ok(opened)
    } else {
        Err(BufferError::NotPieces)
    }
}

// The same, whether the places differ or not.
fn open_each<'a, C: StripeCode>(
    alloc: Global,
    code: &C,
    len: usize,
    pieces: &'a [u8],
) -> Result<(Vec<usize>, Vec<PieceReader<&'a [u8]>>), BufferError>
    requires { len < 2 ^ 62 }
    ensures opened { IfOk result (λ opened. (left : List ℕ)
        × HaveOpened (C.k_of code.now) (C.n_of code.now) len (C.k_of code.now) pieces.entry.now left
        opened.0.items opened.1.items) }
    ensures errors { IfErr result (λ e. (e ≡ BufferError.Memory) ⊎ ((e ≡ BufferError.NotPieces)
        × (¬ AreSized (C.k_of code.now) (C.n_of code.now) len pieces.entry.now))) }
{
    let mut places = Vec::new(alloc);
    let mut readers = Vec::new(alloc);
    let mut rest = pieces;
    let _ = code.n();
    for _ in 0..code.k() {
        match first_piece(code, len, rest) {
            Some((header, piece, behind)) => {
                let reader = opened(alloc, &header, piece)?;
                if places.push(header.number as usize).is_err() {
                    return Err(BufferError::Memory);
                }
                if readers.push(reader).is_err() {
                    return Err(BufferError::Memory);
                }
                rest = behind;
            }
            None => return Err(BufferError::NotPieces),
        }
    }
    Ok((places, readers))
}

// The piece that the bytes begin with, with its header, and what is behind it.
fn first_piece<'a, C: StripeCode>(
    code: &C,
    len: usize,
    pieces: &'a [u8],
) -> Option<(Header, &'a [u8], &'a [u8])>
    requires { len < 2 ^ 62 }
    ensures piece { IfSome result (λ x. IsSized (C.k_of code.now) (C.n_of code.now) len
        x.0.number x.0.label_len x.1.now) }
    ensures is { IfSome result (λ x. pieces.entry.now ≡ x.1.now ++ x.2.now) }
    ensures none { IsNone result → (i label_len : ℕ) (piece rest : List ℕ)
        → IsSized (C.k_of code.now) (C.n_of code.now) len i label_len piece
        → pieces.entry.now ≢ piece ++ rest }
{
    let header = own_header(code, pieces)?;
    let (number, label_len) = (header.number as usize, header.label_len as usize);
    let size = piece_size(code.k(), code.n(), number, label_len, len)?;
    if pieces.len() < size {
        return None;
    }
    let (piece, behind) = pieces.split_at(size);
    Some((header, piece, behind))
}

// The header that the bytes begin with, if it is one of this code.
fn own_header<C: StripeCode>(code: &C, pieces: &[u8]) -> Option<Header>
    ensures header { IfSome result (λ h. (rest : List ℕ)
        × (pieces.now ≡ header_bytes (C.k_of code.now) (C.n_of code.now) h.number h.label_len ++ rest)) }
    ensures below { IfSome result (λ h. h.number < C.n_of code.now) }
    ensures none { IsNone result → (i label_len : ℕ) (rest : List ℕ) → i < C.n_of code.now → label_len < 65536
        → pieces.now ≢ header_bytes (C.k_of code.now) (C.n_of code.now) i label_len ++ rest }
{
    let (k, n) = (code.k(), code.n());
    let header = first_header(pieces)?;
    if header.k as usize == k && header.n as usize == n {
        Some(header)
    } else {
        None
    }
}

// A reader of a piece with this header, which has read the header and the label. It never fails but for memory,
// since the piece is that long.
fn opened<'a>(
    alloc: Global,
    header: &Header,
    piece: &'a [u8],
) -> Result<PieceReader<&'a [u8]>, BufferError>
    requires { 24 + header.now.label_len ≤ length piece.now }
    ensures passed { IfOk result (λ reader. HasPassed piece.now (24 + header.now.label_len) reader
        (piece_source reader).now) }
    ensures memory { IfErr result (λ e. e ≡ BufferError.Memory) }
{
    let mut reader = PieceReader::new(piece);
    match reader.take(alloc, 0, HEADER + header.label_len as usize) {
        Ok(_) => Ok(reader),
        Err(_) => Err(BufferError::Memory),
    }
}

// Whether no two of these places are the same.
fn are_apart(alloc: Global, n: usize, places: &[usize]) -> Result<bool, AllocError>
    requires { (a : ℕ) → a < length places.now → get_or places.now a 0 < n }
    ensures { IfOk result (λ apart. IsTrue apart ↔ AreApart places.now) }
{
    let mut seen = vec![in alloc; false; n]?;
    Ok(mark_each(seen.as_mut_slice(), places))
}

// Marks these places, and tells whether each had no mark before.
fn mark_each(seen: &mut [bool], places: &[usize]) -> bool
    requires below { (a : ℕ) → a < length places.now → get_or places.now a 0 < length seen.old }
    requires none { (j : ℕ) → get_or seen.old j false ≡ false }
    ensures { IsTrue result ↔ AreApart places.now }
{
    for place in places {
        if seen[*place] {
            return false;
        }
        seen[*place] = true;
    }
    true
}
