//! Whether a source has a whole piece.

ghost use Rattle.std.specs.Prelude.{◌≡◌, ◌⊎◌, ℕ, ◌+◌, ◌*◌, ◌<◌, ◌≤◌, [], List, ◌++◌, length, Err, IfOk, IfErr, IsOk, IsErr, OnErr};
ghost use Rattle.std.specs.Io.KnownBytes.{IsAtEnd};
ghost use Rattle.ark_bytes.specs.Reading.{Takes};
ghost use Rattle.shards_format.specs.Headers.{header_bytes};
ghost use Rattle.shards_format.specs.Trailers.{trailer_bytes};
ghost use Rattle.shards_format.specs.Pieces.{body_size, chunk};
ghost use Rattle.shards_streams.specs.Readers.{Gave, HasRead, reader_state};
ghost use Rattle.shards_streams.specs.Checking.{GavePiece, GaveRest, LacksHeader, LacksPiece, LacksRest, LacksTrailer};

use crate::error::StreamError;
use crate::reader::PieceReader;
use ark_bytes::Source;
use shards_format::{Damage, HEADER, Header, Trailer, are_same, body_size, trailer_size};
use std::alloc::Global;

/// What a piece says before its body and behind it.
#[derive(Debug, Drop)]
pub struct PieceEnds {
    /// Its header.
    pub header: Header,
    /// What is known of the file.
    pub label: Vec<u8>,
    /// Its trailer.
    pub trailer: Trailer,
}

/// The header of a piece of which nothing was read yet, and the label. What is no piece is told by `Damage`.
///
/// `Read` comes where the source ends or fails before their end, `Memory` where a growth was refused.
pub fn take_header<R: Source + Drop>(
    alloc: Global,
    reader: &mut PieceReader<R>,
) -> Result<Result<(Header, Vec<u8>), Damage>, StreamError>
    ensures header { IfOk result (λ found. IfOk found (λ head. Gave R.Source reader.old reader.new
        (header_bytes head.0.k head.0.n head.0.number head.0.label_len ++ head.1.items))) }
    ensures label { IfOk result (λ found. IfOk found (λ head. length head.1.items ≡ head.0.label_len)) }
    ensures damage { IfOk result (λ found. OnErr found
        (LacksHeader (reader_state R.Source reader.old) (reader_state R.Source reader.new))) }
    ensures unread { result ≡ Err (StreamError.Read 0)
        → LacksHeader (reader_state R.Source reader.old) (reader_state R.Source reader.new) }
    ensures errors { IfErr result (λ e. (e ≡ StreamError.Memory) ⊎ (e ≡ StreamError.Read 0)) }
{
    let head = reader.take(alloc, 0, HEADER)?;
    match Header::from_bytes(&head) {
        Ok(header) => {
            let label = reader.take(alloc, 0, header.label_len as usize)?;
            Ok(Ok((header, label)))
        }
        Err(damage) => Ok(Err(damage)),
    }
}

/// The trailer of one of `n` pieces, where nothing else is left of it to be read. What is none is told by `NoPiece`.
///
/// `Read` comes where the source ends before the trailer's end or fails, `Memory` where a growth was refused.
pub fn take_trailer<R: Source + Drop>(
    alloc: Global,
    reader: &mut PieceReader<R>,
    n: usize,
) -> Result<Result<Trailer, Damage>, StreamError>
    requires { n ≤ 65536 }
    ensures trailer { IfOk result (λ found. IfOk found (λ trailer. Takes (reader_state R.Source reader.old)
        (reader_state R.Source reader.new) (trailer_bytes trailer.digests.items trailer.len))) }
    ensures count { IfOk result (λ found. IfOk found (λ trailer. length trailer.digests.items ≡ 32 * n)) }
    ensures end { IfOk result (λ found. IfOk found (λ trailer. IsAtEnd (reader_state R.Source reader.new).remaining)) }
    ensures damage { IfOk result (λ found. OnErr found
        (LacksTrailer n (reader_state R.Source reader.old) (reader_state R.Source reader.new))) }
    ensures unread { result ≡ Err (StreamError.Read 0)
        → LacksTrailer n (reader_state R.Source reader.old) (reader_state R.Source reader.new) }
    ensures errors { IfErr result (λ e. (e ≡ StreamError.Memory) ⊎ (e ≡ StreamError.Read 0)) }
{
    let bytes = reader.take_behind(alloc, 0, trailer_size(n))?;
    let ended = reader.is_at_end()?;
    if !ended {
        return Ok(Err(Damage::NoPiece));
    }
    let found = Trailer::from_bytes(alloc, n, &bytes)?;
    Ok(found.ok_or(Damage::NoPiece))
}

/// What a piece of so many bytes says, of which nothing was read yet and whose digest is the one in its trailer.
///
/// `Read` comes where the source ends or fails, `Memory` where a growth was refused. `Damage` is answered, and `Read` too, only
/// where the bytes are no whole piece of so many bytes, or a call of the source failed.
pub fn check_piece<R: Source + Drop>(
    alloc: Global,
    reader: &mut PieceReader<R>,
    size: usize,
) -> Result<Result<PieceEnds, Damage>, StreamError>
    requires { HasRead reader.old [] }
    ensures piece { IfOk result (λ found. IfOk found (λ ends. GavePiece ends.header ends.label.items
        ends.trailer.digests.items ends.trailer.len size
        (reader_state R.Source reader.old) (reader_state R.Source reader.new))) }
    ensures damage { IfOk result (λ found. OnErr found
        (LacksPiece size (reader_state R.Source reader.old) (reader_state R.Source reader.new))) }
    ensures unread { result ≡ Err (StreamError.Read 0)
        → LacksPiece size (reader_state R.Source reader.old) (reader_state R.Source reader.new) }
    ensures errors { IfErr result (λ e. (e ≡ StreamError.Memory) ⊎ (e ≡ StreamError.Read 0)) }
{
    match take_header(alloc, reader)? {
        Ok((header, label)) => check_rest(alloc, reader, header, label, size),
        Err(damage) => Ok(Err(damage)),
    }
}

// The same, once header and label were read.
fn check_rest<R: Source + Drop>(
    alloc: Global,
    reader: &mut PieceReader<R>,
    header: Header,
    label: Vec<u8>,
    size: usize,
) -> Result<Result<PieceEnds, Damage>, StreamError>
    requires head { HasRead reader.old (header_bytes header.k header.n header.number header.label_len ++ label.items) }
    requires label { length label.items ≡ header.label_len }
    ensures piece { IfOk result (λ found. IfOk found (λ ends. GaveRest ends.header ends.label.items
        ends.trailer.digests.items ends.trailer.len size
        (reader_state R.Source reader.old) (reader_state R.Source reader.new))) }
    ensures header { IfOk result (λ found. IfOk found (λ ends. ends.header ≡ header)) }
    ensures label { IfOk result (λ found. IfOk found (λ ends. ends.label.items ≡ label.items)) }
    ensures damage { IfOk result (λ found. OnErr found
        (LacksRest header label.items size (reader_state R.Source reader.old) (reader_state R.Source reader.new))) }
    ensures unread { result ≡ Err (StreamError.Read 0)
        → LacksRest header label.items size (reader_state R.Source reader.old) (reader_state R.Source reader.new) }
    ensures errors { IfErr result (λ e. (e ≡ StreamError.Memory) ⊎ (e ≡ StreamError.Read 0)) }
{
    let n = header.n as usize;
    let around = HEADER + label.len() + trailer_size(n);
    if size < around {
        return Ok(Err(Damage::NoPiece));
    }
    reader.pass(alloc, 0, size - around)?;
    let digest = reader.digest();
    match take_trailer(alloc, reader, n)? {
        Ok(trailer) => match judge(&header, &trailer, size - around, &digest) {
            Ok(()) => Ok(Ok(PieceEnds {
                header,
                label,
                trailer,
            })),
            Err(damage) => Ok(Err(damage)),
        },
        Err(damage) => Ok(Err(damage)),
    }
}

// Whether a body of so many bytes with this digest is that of a piece with this header and trailer.
fn judge(
    header: &Header,
    trailer: &Trailer,
    body_len: usize,
    digest: &[u8; 32],
) -> Result<(), Damage>
    ensures size { IsOk result → body_len ≡ body_size header.now.k header.now.number trailer.now.len }
    ensures listed { IsOk result → chunk 32 header.now.number trailer.now.digests.items ≡ digest.now }
    ensures damage { IsErr result → body_len ≡ body_size header.now.k header.now.number trailer.now.len
        → chunk 32 header.now.number trailer.now.digests.items ≡ digest.now → ⊥ }
{
    let number = header.number as usize;
    if body_len != body_size(header.k as usize, number, trailer.len as usize) {
        return Err(Damage::NoPiece);
    }
    if !are_same(trailer.digest(number), digest) {
        return Err(Damage::Changed);
    }
    Ok(())
}
