//! Splitting the bytes of a source.

ghost use Rattle.std.specs.Prelude.{◌≡◌, ℕ, ◌+◌, ◌-◌, ◌*◌, ◌<◌, ◌≤◌, ◌^◌, ◌⊎◌, List, [], ◌++◌, get_or, length, map, Err, IfOk, IfErr, OnOk, OnErr};
ghost use Rattle.std.specs.List.{range_with_len};
ghost use Rattle.std.specs.Io.KnownBytes.{Appends};
ghost use Rattle.sha2.specs.Sha256.{sha256};
ghost use Rattle.ark_bytes.specs.Reading.{source_state};
ghost use Rattle.ark_bytes.specs.Transfer.{AppendsBeginning};
ghost use Rattle.shards_format.specs.Stripes.{numbers_at};
ghost use Rattle.shards_format.specs.Headers.{head_bytes};
ghost use Rattle.shards_format.specs.Pieces.{block_size, chunk};
ghost use Rattle.shards_streams.specs.declared.writer.PieceWriter.{PieceWriter};
ghost use Rattle.shards_streams.specs.Writers.{piece_sink, HasHashed, Took, TookSome};
ghost use Rattle.shards_streams.specs.Streams.{GaveLong};
ghost use Rattle.shards_streams.specs.Splitting.{TookParts, TookPartsSome, HasSplit, HasBegun, TookBlock, TookBlockSome, TookBodies, TookBodiesSome};

use crate::error::StreamError;
use crate::reading::take_block;
use crate::writer::PieceWriter;
use ark_bytes::{Sink, Source};
use shards_format::{
    Header, PART, PlacedExtender, StripeCode, Trailer, parity_extender, parts_of_block, places_from,
};
use std::alloc::{AllocError, Global};

/// Splits a file: each writer gets the piece at its place of all bytes that the source has left, with this label. The trailer
/// is that of all pieces.
///
/// `Read` comes where the source fails, `TooLong` at 2^62 bytes, `Write` with the number of the writer that failed, and
/// `Memory` where a growth was refused. Each sink then has a beginning of its piece, as far as the file was read.
pub fn split_into<C: StripeCode, R: Source, W: Sink + Drop>(
    alloc: Global,
    code: &C,
    label: &[u8],
    source: &mut R,
    writers: &mut [PieceWriter<W>],
) -> Result<Trailer, StreamError>
    requires label { length label.now < 65536 }
    requires writers { length writers.old ≡ C.n_of code.now }
    requires new { (i : ℕ) (d : PieceWriter W) → i < length writers.old → HasHashed (get_or writers.old i d) [] }
    ensures pieces { IfOk result (λ trailer. HasSplit W.Sink C.number (C.k_of code.now) (C.n_of code.now) label.now
        trailer.digests.items trailer.len (source_state R.remaining R.failures source.old)
        (source_state R.remaining R.failures source.new) writers.old writers.new) }
    ensures beginnings { OnErr result ((writers.new ≡ writers.old) ⊎ HasBegun W.Sink C.number (C.k_of code.now)
        (C.n_of code.now) label.now (R.remaining source.old) (R.remaining source.new) writers.old writers.new) }
    ensures read { result ≡ Err (StreamError.Read 0) → R.failures source.old < R.failures source.new }
    ensures too_long { result ≡ Err StreamError.TooLong → GaveLong (source_state R.remaining R.failures source.old)
        (source_state R.remaining R.failures source.new) }
    ensures errors { IfErr result (λ e. (e ≡ StreamError.Memory) ⊎ ((e ≡ StreamError.Read 0) ⊎ ((e ≡ StreamError.TooLong)
        ⊎ ((i : ℕ) × (i < length writers.old) × (e ≡ StreamError.Write i))))) }
{
    let heads = heads_of(alloc, code, label)?;
    put_each(writers, &heads)?;
    let len = put_bodies(alloc, code, source, writers)?;
    let trailer = Trailer {
        digests: digests_of(alloc, writers)?,
        len: len as u64,
    };
    let end = trailer.to_bytes(alloc)?;
    put_behind_each(writers, &end)?;
    Ok(trailer)
}

// What the pieces begin with.
fn heads_of<C: StripeCode>(
    alloc: Global,
    code: &C,
    label: &[u8],
) -> Result<Vec<Vec<u8>>, AllocError>
    requires { length label.now < 65536 }
    ensures some { OnOk result (0 < C.k_of code.now) }
    ensures fits { OnOk result (C.k_of code.now ≤ C.n_of code.now) }
    ensures len { IfOk result (λ heads. length heads.items ≡ C.n_of code.now) }
    ensures heads { IfOk result (λ heads. (i : ℕ) → i < C.n_of code.now → get_or (map (λ head. head.items) heads.items) i []
        ≡ head_bytes (C.k_of code.now) (C.n_of code.now) i label.now) }
{
    let places = places_from(alloc, 0, code.n())?;
    heads_at(alloc, code, label, &places)
}

// What the pieces at these places begin with.
pub(crate) fn heads_at<C: StripeCode>(
    alloc: Global,
    code: &C,
    label: &[u8],
    places: &[usize],
) -> Result<Vec<Vec<u8>>, AllocError>
    requires label { length label.now < 65536 }
    requires below { (b : ℕ) → b < length places.now → get_or places.now b 0 < C.n_of code.now }
    ensures some { 0 < C.k_of code.now }
    ensures fits { C.k_of code.now ≤ C.n_of code.now }
    ensures len { IfOk result (λ heads. length heads.items ≡ length places.now) }
    ensures heads { IfOk result (λ heads. (b : ℕ) → b < length places.now
        → get_or (map (λ head. head.items) heads.items) b []
        ≡ head_bytes (C.k_of code.now) (C.n_of code.now) (get_or places.now b 0) label.now) }
{
    let k = code.k() as u32;
    let n = code.n();
    let mut heads = Vec::new(alloc);
    for b in 0..places.len() {
        let header = Header {
            k,
            n: n as u32,
            number: places[b] as u32,
            label_len: label.len() as u32,
        };
        let mut head = header.to_bytes(alloc)?;
        head.extend_from_slice(label)?;
        heads.push(head)?;
    }
    Ok(heads)
}

// Writes to each writer the bytes at its place.
pub(crate) fn put_each<W: Sink + Drop>(
    writers: &mut [PieceWriter<W>],
    parts: &[Vec<u8>],
) -> Result<(), StreamError>
    requires { length writers.old ≡ length parts.now }
    ensures len { length writers.new ≡ length writers.old }
    ensures took { OnOk result ((i : ℕ) (d : PieceWriter W) → i < length parts.now
        → Took W.Sink (get_or writers.old i d) (get_or writers.new i d) (get_or (map (λ part. part.items) parts.now) i [])) }
    ensures some { OnErr result ((i : ℕ) (d : PieceWriter W) → i < length parts.now
        → TookSome W.Sink (get_or writers.old i d) (get_or writers.new i d) (get_or (map (λ part. part.items) parts.now) i [])) }
    ensures errors { IfErr result (λ e. (i : ℕ) × (i < length writers.old) × (e ≡ StreamError.Write i)) }
{
    for i in 0..writers.len() {
        match writers[i].put(&parts[i]) {
            Ok(()) => {}
            Err(_) => return Err(StreamError::Write(i)),
        }
    }
    Ok(())
}

// The digests of what the writers took, one after another.
fn digests_of<W: Sink + Drop>(
    alloc: Global,
    writers: &mut [PieceWriter<W>],
) -> Result<Vec<u8>, AllocError>
    ensures kept { (i : ℕ) (d : PieceWriter W) → i < length writers.old
        → piece_sink (get_or writers.new i d) ≡ piece_sink (get_or writers.old i d) }
    ensures len { length writers.new ≡ length writers.old }
    ensures count { IfOk result (λ digests. length digests.items ≡ 32 * length writers.old) }
    ensures digests { IfOk result (λ digests. (i : ℕ) (d : PieceWriter W) (text : List ℕ) → i < length writers.old
        → HasHashed (get_or writers.old i d) text → chunk 32 i digests.items ≡ sha256 text) }
{
    let mut digests = Vec::new(alloc);
    for i in 0..writers.len() {
        let digest = writers[i].digest();
        digests.extend_from_slice(&digest)?;
    }
    Ok(digests)
}

// Writes the same bytes behind what each writer took.
pub(crate) fn put_behind_each<W: Sink + Drop>(
    writers: &mut [PieceWriter<W>],
    end: &[u8],
) -> Result<(), StreamError>
    ensures took { OnOk result ((i : ℕ) (d : PieceWriter W) → i < length writers.old
        → Appends (W.contents (piece_sink (get_or writers.old i d))) (W.contents (piece_sink (get_or writers.new i d)))
        end.now) }
    ensures some { OnErr result ((i : ℕ) (d : PieceWriter W) → i < length writers.old
        → AppendsBeginning (W.contents (piece_sink (get_or writers.old i d)))
        (W.contents (piece_sink (get_or writers.new i d))) end.now) }
    ensures errors { IfErr result (λ e. (i : ℕ) × (i < length writers.old) × (e ≡ StreamError.Write i)) }
{
    for i in 0..writers.len() {
        match writers[i].put_behind(end) {
            Ok(()) => {}
            Err(_) => return Err(StreamError::Write(i)),
        }
    }
    Ok(())
}

// Writes the parts of a block.
fn put_block<C: StripeCode, W: Sink + Drop>(
    alloc: Global,
    code: &C,
    extender: &PlacedExtender<C>,
    block: &[u8],
    writers: &mut [PieceWriter<W>],
) -> Result<(), StreamError>
    requires code { C.is_of code.now extender.now.extender }
    requires given { extender.now.given.items ≡ range_with_len 0 (C.k_of code.now) }
    requires wanted { extender.now.wanted.items
        ≡ range_with_len (C.k_of code.now) (C.n_of code.now - C.k_of code.now) }
    requires block { length block.now ≤ block_size (C.k_of code.now) }
    requires writers { length writers.old ≡ C.n_of code.now }
    ensures len { length writers.new ≡ length writers.old }
    ensures took { OnOk result (TookParts W.Sink C.number (C.k_of code.now) (C.n_of code.now) block.now writers.old writers.new) }
    ensures some { OnErr result ((writers.new ≡ writers.old)
        ⊎ TookPartsSome W.Sink C.number (C.k_of code.now) (C.n_of code.now) block.now writers.old writers.new) }
    ensures errors { IfErr result (λ e. (e ≡ StreamError.Memory)
        ⊎ ((i : ℕ) × (i < length writers.old) × (e ≡ StreamError.Write i))) }
{
    let parts = parts_of_block(alloc, code, extender, block)?;
    put_each(writers, &parts)
}

// Writes the bodies of the pieces of all bytes that the source has left, and tells how many these are.
fn put_bodies<C: StripeCode, R: Source, W: Sink + Drop>(
    alloc: Global,
    code: &C,
    source: &mut R,
    writers: &mut [PieceWriter<W>],
) -> Result<usize, StreamError>
    requires writers { length writers.old ≡ C.n_of code.now }
    ensures len { length writers.new ≡ length writers.old }
    ensures took { IfOk result (λ len. TookBodies W.Sink C.number (C.k_of code.now) (C.n_of code.now) len
        (source_state R.remaining R.failures source.old) (source_state R.remaining R.failures source.new)
        writers.old writers.new) }
    ensures some { OnErr result (TookBodiesSome W.Sink C.number (C.k_of code.now) (C.n_of code.now)
        (R.remaining source.old) (R.remaining source.new) writers.old writers.new) }
    ensures read { result ≡ Err (StreamError.Read 0) → R.failures source.old < R.failures source.new }
    ensures too_long { result ≡ Err StreamError.TooLong → GaveLong (source_state R.remaining R.failures source.old)
        (source_state R.remaining R.failures source.new) }
    ensures errors { IfErr result (λ e. (e ≡ StreamError.Memory) ⊎ ((e ≡ StreamError.Read 0) ⊎ ((e ≡ StreamError.TooLong)
        ⊎ ((i : ℕ) × (i < length writers.old) × (e ≡ StreamError.Write i))))) }
{
    let size = 2 * code.k() * PART;
    let extender = parity_extender(alloc, code)?;
    let mut len: usize = 0;
    let mut more = true;
    while more && len < 1 << 62 {
        let count = put_next_block(alloc, code, &extender, source, writers)?;
        len += count;
        more = count == size;
    }
    if len < 1 << 62 {
        Ok(len)
    } else {
        Err(StreamError::TooLong)
    }
}

// Writes the parts of the source's next block, and tells how many bytes it has: fewer than a whole one only at the end.
fn put_next_block<C: StripeCode, R: Source, W: Sink + Drop>(
    alloc: Global,
    code: &C,
    extender: &PlacedExtender<C>,
    source: &mut R,
    writers: &mut [PieceWriter<W>],
) -> Result<usize, StreamError>
    requires code { C.is_of code.now extender.now.extender }
    requires given { extender.now.given.items ≡ range_with_len 0 (C.k_of code.now) }
    requires wanted { extender.now.wanted.items
        ≡ range_with_len (C.k_of code.now) (C.n_of code.now - C.k_of code.now) }
    requires writers { length writers.old ≡ C.n_of code.now }
    ensures len { length writers.new ≡ length writers.old }
    ensures few { IfOk result (λ count. count ≤ block_size (C.k_of code.now)) }
    ensures took { IfOk result (λ count. TookBlock W.Sink C.number (C.k_of code.now) (C.n_of code.now) count
        (source_state R.remaining R.failures source.old) (source_state R.remaining R.failures source.new)
        writers.old writers.new) }
    ensures some { OnErr result (TookBlockSome W.Sink C.number (C.k_of code.now) (C.n_of code.now)
        (R.remaining source.old) (R.remaining source.new) writers.old writers.new) }
    ensures read { result ≡ Err (StreamError.Read 0) → R.failures source.old < R.failures source.new }
    ensures errors { IfErr result (λ e. (e ≡ StreamError.Memory) ⊎ ((e ≡ StreamError.Read 0)
        ⊎ ((i : ℕ) × (i < length writers.old) × (e ≡ StreamError.Write i)))) }
{
    let bytes = take_block(alloc, source, 2 * code.k() * PART)?;
    let block = bytes.as_slice();
    let count = block.len();
    if 0 < count {
        put_block(alloc, code, extender, block, writers)?;
    }
    Ok(count)
}
