//! What splitting and joining give together.

ghost use Rattle.std.specs.Prelude.{◌≡◌, ℕ, ◌+◌, ◌*◌, ◌<◌, ◌≤◌, ◌^◌, List, [], Some, get_or, length, take, IfOk, IfErr};
ghost use Rattle.shards_format.specs.Stripes.{stripes};
ghost use Rattle.shards_format.specs.Pieces.{IsBody, block_size, blocks, chunk, part_size};
ghost use Rattle.shards_format.specs.Files.{AreApart, AreDigests};
ghost use Rattle.shards_streams.specs.Writers.{piece_sink, HasHashed};
ghost use Rattle.shards_streams.specs.Readers.{piece_source};
ghost use Rattle.shards_streams.specs.Laws.{HasPassed, HavePieces};

use crate::error::StreamError;
use crate::joining::{ChosenPieces, join_into};
use crate::reader::PieceReader;
use crate::splitting::split_into;
use crate::writer::PieceWriter;
use ark_bytes::counter::Counter;
use ark_bytes::{Failed, Sink};
use shards_format::{HEADER, StripeCode, Trailer};
use std::alloc::{AllocError, Global};

/// A sink into memory.
#[derive(Drop)]
pub struct ListSink {
    /// What it has taken.
    pub bytes: Vec<u8>,
    failures: Counter,
}

impl ListSink {
    /// A sink that has taken nothing yet.
    pub fn new(alloc: Global) -> ListSink
        ensures { result.bytes.items ≡ [] }
    {
        ListSink {
            bytes: Vec::new(alloc),
            failures: Counter::zero(),
        }
    }
}

impl Sink for ListSink {
    ghost contents = { λ sink. Some sink.bytes.items };

    ghost failures = { λ sink. sink.failures.count };

    fn put(&mut self, bytes: &[u8]) -> Result<(), Failed> {
        match self.bytes.extend_from_slice(bytes) {
            Ok(()) => Ok(()),
            Err(_) => {
                self.failures.add_one();
                Err(Failed)
            }
        }
    }
}

/// Any `k` of the pieces that splitting gave, in any order, give the bytes back; the only error is refused memory.
pub fn split_then_join<C: StripeCode>(
    alloc: Global,
    code: &C,
    label: &[u8],
    bytes: &[u8],
    chosen: &[usize],
) -> Result<Vec<u8>, StreamError>
    requires label { length label.now < 65536 }
    requires len { length bytes.now < 2 ^ 62 }
    requires enough { length chosen.now ≡ C.k_of code.now }
    requires below { (a : ℕ) → a < length chosen.now → get_or chosen.now a 0 < C.n_of code.now }
    requires apart { AreApart chosen.now }
    ensures same { IfOk result (λ joined. joined.items ≡ bytes.now) }
    ensures memory { IfErr result (λ e. e ≡ StreamError.Memory) }
{
    let made = pieces_of(alloc, code, label, bytes)?;
    let _ = code.n();
    let pieces = ChosenPieces {
        places: chosen,
        trailer: &made.1,
    };
    join_pieces(alloc, code, label, made.0.as_slice(), &pieces)
}

/// The first `k` pieces have the file's own bytes: of piece `i`, part `b` begins with run `i` of `k` equal runs of the bytes of
/// block `b`. Runs are shorter only at the file's end, where zeros stand for what is missing.
pub fn first_pieces_are_the_file<C: StripeCode>(
    code: &C,
    bytes: &[u8],
    body: &[u8],
    i: usize,
    b: usize,
)
    requires data { i < C.k_of code.now }
    requires body { IsBody C.number (C.k_of code.now) (C.n_of code.now) bytes.now i body.now }
    requires block { b < blocks (C.k_of code.now) (length bytes.now) }
    ensures { let k = C.k_of code.now in let block = chunk (block_size k) b bytes.now in
        let run = chunk (2 * stripes k (length block)) i block in
        take (length run) (chunk (part_size k i) b body.now) ≡ run }
{
    let _ = code.k();
}

/// The pieces of these bytes in memory, and the trailer of all; the only error is refused memory.
pub fn pieces_of<C: StripeCode>(
    alloc: Global,
    code: &C,
    label: &[u8],
    bytes: &[u8],
) -> Result<(Vec<PieceWriter<ListSink>>, Trailer), StreamError>
    requires label { length label.now < 65536 }
    requires len { length bytes.now < 2 ^ 62 }
    ensures count { IfOk result (λ made. length made.0.items ≡ C.n_of code.now) }
    ensures len { IfOk result (λ made. made.1.len ≡ length bytes.now) }
    ensures pieces { IfOk result (λ made. HavePieces C.number (C.k_of code.now) (C.n_of code.now) label.now bytes.now
        made.1.digests.items made.0.items) }
    ensures digests { IfOk result (λ made. AreDigests C.number (C.k_of code.now) (C.n_of code.now) label.now bytes.now
        made.1.digests.items) }
    ensures memory { IfErr result (λ e. e ≡ StreamError.Memory) }
{
    let mut writers = list_writers(alloc, code.n())?;
    let mut source = bytes;
    match split_into(alloc, code, label, &mut source, writers.as_mut_slice()) {
        Ok(trailer) => Ok((writers, trailer)),
        Err(error) => Err(in_memory(error)),
    }
}

// Joins the chosen pieces.
fn join_pieces<C: StripeCode>(
    alloc: Global,
    code: &C,
    label: &[u8],
    writers: &[PieceWriter<ListSink>],
    pieces: &ChosenPieces<'_>,
) -> Result<Vec<u8>, StreamError>
    requires label { length label.now < 65536 }
    requires count { length writers.now ≡ C.n_of code.now }
    requires room { (i : ℕ) (w : _) → i < length writers.now
        → 24 + length label.now ≤ length (piece_sink (get_or writers.now i w)).bytes.items }
    requires enough { length pieces.now.places.now ≡ C.k_of code.now }
    requires below { (a : ℕ) → a < length pieces.now.places.now
        → get_or pieces.now.places.now a 0 < C.n_of code.now }
    ensures same { IfOk result (λ joined. (bytes : List ℕ) → ((i : ℕ) → get_or bytes i 0 < 256)
        → length bytes ≡ pieces.now.trailer.now.len
        → HavePieces C.number (C.k_of code.now) (C.n_of code.now) label.now bytes
        pieces.now.trailer.now.digests.items writers.now
        → joined.items ≡ bytes) }
    ensures memory { IfErr result (λ e. (bytes : List ℕ) → ((i : ℕ) → get_or bytes i 0 < 256)
        → length bytes ≡ pieces.now.trailer.now.len
        → HavePieces C.number (C.k_of code.now) (C.n_of code.now) label.now bytes
        pieces.now.trailer.now.digests.items writers.now
        → e ≡ StreamError.Memory) }
{
    let mut readers = readers_of(alloc, writers, pieces.places, HEADER + label.len())?;
    let mut sink = ListSink::new(alloc);
    match join_into(alloc, code, pieces, readers.as_mut_slice(), &mut sink) {
        Ok(()) => Ok(sink.bytes),
        Err(error) => Err(in_memory(error)),
    }
}

// An error, where a sink into memory fails only as a growth is refused.
fn in_memory(error: StreamError) -> StreamError
    ensures sink { (i : ℕ) → error ≡ StreamError.Write i → result ≡ StreamError.Memory }
    ensures memory { error ≡ StreamError.Memory → result ≡ StreamError.Memory }
{
    match error {
        StreamError::Write(_) => StreamError::Memory,
        other => other,
    }
}

// So many writers of pieces into memory.
fn list_writers(alloc: Global, n: usize) -> Result<Vec<PieceWriter<ListSink>>, AllocError>
    ensures len { IfOk result (λ writers. length writers.items ≡ n) }
    ensures new { IfOk result (λ writers. (i : ℕ) (d : _) → i < length writers.items
        → HasHashed (get_or writers.items i d) []) }
    ensures empty { IfOk result (λ writers. (i : ℕ) (d : _) → i < length writers.items
        → (piece_sink (get_or writers.items i d)).bytes.items ≡ []) }
{
    let mut writers = Vec::new(alloc);
    for _ in 0..n {
        writers.push(PieceWriter::new(ListSink::new(alloc)))?;
    }
    Ok(writers)
}

// A reader of each chosen piece, of which it has read so many bytes.
fn readers_of<'a>(
    alloc: Global,
    writers: &'a [PieceWriter<ListSink>],
    chosen: &[usize],
    size: usize,
) -> Result<Vec<PieceReader<&'a [u8]>>, StreamError>
    requires below { (a : ℕ) → a < length chosen.now → get_or chosen.now a 0 < length writers.now }
    requires room { (i : ℕ) (w : _) → i < length writers.now
        → size ≤ length (piece_sink (get_or writers.now i w)).bytes.items }
    ensures len { IfOk result (λ readers. length readers.items ≡ length chosen.now) }
    ensures each { IfOk result (λ readers. (a : ℕ) (w : _) (d : _) → a < length chosen.now
        → HasPassed (piece_sink (get_or writers.now (get_or chosen.now a 0) w)).bytes.items size
        (get_or readers.items a d) (piece_source (get_or readers.items a d)).now) }
    ensures memory { IfErr result (λ e. e ≡ StreamError.Memory) }
{
    let mut readers = Vec::new(alloc);
    for place in chosen {
        let reader = reader_of(alloc, &writers[*place], size)?;
        if readers.push(reader).is_err() {
            return Err(StreamError::Memory);
        }
    }
    Ok(readers)
}

// A reader of a piece, of which it has read so many bytes.
fn reader_of<'a>(
    alloc: Global,
    writer: &'a PieceWriter<ListSink>,
    size: usize,
) -> Result<PieceReader<&'a [u8]>, StreamError>
    requires { size ≤ length (piece_sink writer.now).bytes.items }
    ensures passed { IfOk result (λ reader. HasPassed (piece_sink writer.now).bytes.items size reader (piece_source reader).now) }
    ensures memory { IfErr result (λ e. e ≡ StreamError.Memory) }
{
    let mut reader = PieceReader::new(writer.sink().bytes.as_slice());
    reader.take(alloc, 0, size)?;
    Ok(reader)
}
