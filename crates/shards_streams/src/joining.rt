//! Joining what sources have.

ghost use Rattle.std.specs.Prelude.{◌≡◌, ◌≢◌, ◌⊎◌, ℕ, ◌+◌, ◌*◌, ◌<◌, ◌≤◌, ◌^◌, List, ◌++◌, length, get_or, Some, Err, IfOk, IfErr, OnOk, OnErr, IsOkUnless};
ghost use Rattle.std.specs.Io.KnownBytes.{Appends};
ghost use Rattle.sha2.specs.Sha256.{sha256};
ghost use Rattle.ark_bytes.specs.Transfer.{AppendsBeginning};
ghost use Rattle.ark_bytes.specs.Reading.{TakesFewer};
ghost use Rattle.shards_format.specs.Files.{AreApart, AreDigests};
ghost use Rattle.shards_format.specs.Parts.{number_in};
ghost use Rattle.shards_format.specs.Pieces.{body_size, chunk, mark_size};
ghost use Rattle.shards_streams.specs.declared.reader.PieceReader.{PieceReader};
ghost use Rattle.shards_streams.specs.Readers.{HasRead, piece_source, reader_state};
ghost use Rattle.shards_streams.specs.Joining.{GaveCollision, GavePart, HasJoined, HasRestored, HaveBodies, HaveHeads};

use crate::error::StreamError;
use crate::reader::PieceReader;
use ark_bytes::{Sink, Source};
use shards_format::{
    PART, StripeCode, Trailer, are_same, block_of, blocks, data_extender, mark_size, read_part,
    stripes,
};
use std::alloc::Global;

/// The pieces that a file is joined of: their places, which differ, and the trailer that all of them have.
#[derive(Clone, Copy, Debug)]
pub struct ChosenPieces<'a> {
    /// The places.
    pub places: &'a [usize],
    /// What they end with.
    pub trailer: &'a Trailer,
    ghost apart: { AreApart places.now },
    ghost small: { (a : ℕ) → a < length places.now → get_or places.now a 0 < 65536 },
}

/// Joins `k` pieces, of which each reader has read the header with its label and no more: the file's bytes go to the sink.
///
/// `Damaged` comes with the number of a reader whose piece has not its digest of the trailer, `Read` with that of one that
/// ended or failed, `Write` where the sink failed, and `Memory` where a growth was refused. The sink then has some of
/// the bytes, or at `Damaged` as many as the file has.
pub fn join_into<C: StripeCode, R: Source + Drop, W: Sink>(
    alloc: Global,
    code: &C,
    chosen: &ChosenPieces<'_>,
    readers: &mut [PieceReader<R>],
    sink: &mut W,
) -> Result<(), StreamError>
    requires places { length chosen.now.places.now ≡ C.k_of code.now }
    requires below { (a : ℕ) → a < length chosen.now.places.now → get_or chosen.now.places.now a 0 < C.n_of code.now }
    requires readers { length readers.old ≡ C.k_of code.now }
    ensures joined { OnOk result (HasJoined R.Source C.number (C.k_of code.now) (C.n_of code.now) chosen.now.places.now
        chosen.now.trailer.now.digests.items chosen.now.trailer.now.len readers.old
        (W.contents sink.old) (W.contents sink.new)) }

    // Readers that have the bodies of a file's pieces give this file.
    ensures known { OnOk result ((bytes : List ℕ) → ((i : ℕ) → get_or bytes i 0 < 256)
        → length bytes ≡ chosen.now.trailer.now.len
        → HaveBodies R.Source C.number (C.k_of code.now) (C.n_of code.now) bytes chosen.now.places.now readers.old
        → Appends (W.contents sink.old) (W.contents sink.new) bytes) }

    // Where the trailer is that of a file's pieces, they give this file, whatever the sources have, or else what some
    // reader had read and gave differs from the file's piece at its place, but has its digest.
    ensures file { OnOk result ((label bytes : List ℕ) → ((i : ℕ) → get_or bytes i 0 < 256)
        → AreDigests C.number (C.k_of code.now) (C.n_of code.now) label bytes chosen.now.trailer.now.digests.items
        → length label < 65536 → length bytes ≡ chosen.now.trailer.now.len
        → (heads : HaveHeads (C.k_of code.now) (C.n_of code.now) chosen.now.places.now readers.old)
        → Appends (W.contents sink.old) (W.contents sink.new) bytes
        ⊎ GaveCollision R.Source C.number (C.k_of code.now) (C.n_of code.now) label bytes chosen.now.places.now
        readers.old readers.new heads) }
    ensures beginning { OnErr result ((bytes : List ℕ) → ((i : ℕ) → get_or bytes i 0 < 256)
        → length bytes ≡ chosen.now.trailer.now.len
        → HaveBodies R.Source C.number (C.k_of code.now) (C.n_of code.now) bytes chosen.now.places.now readers.old
        → AppendsBeginning (W.contents sink.old) (W.contents sink.new) bytes) }
    ensures errors { IfErr result (λ e. (e ≡ StreamError.Memory) ⊎ ((e ≡ StreamError.Write 0)
        ⊎ (((a : ℕ) × (a < length readers.old) × (e ≡ StreamError.Read a))
        ⊎ ((a : ℕ) × (a < length readers.old) × (e ≡ StreamError.Damaged a))))) }

    // A reader of a piece with its digest is never the one of `Damaged`.
    ensures whole { (a : ℕ) (d : PieceReader R) (head body rest : List ℕ) → a < C.k_of code.now
        → HasRead (get_or readers.old a d) head
        → (reader_state R.Source (get_or readers.old a d)).remaining ≡ Some (body ++ rest)
        → length body ≡ body_size (C.k_of code.now) (get_or chosen.now.places.now a 0) chosen.now.trailer.now.len
        → chunk 32 (get_or chosen.now.places.now a 0) chosen.now.trailer.now.digests.items ≡ sha256 (head ++ body)
        → result ≢ Err (StreamError.Damaged a) }

    // Of a source with its body a call failed, where it is the one that `Read` tells.
    ensures read { (bytes : List ℕ) (a : ℕ) (d : PieceReader R) → a < C.k_of code.now → result ≡ Err (StreamError.Read a)
        → ((i : ℕ) → get_or bytes i 0 < 256) → length bytes ≡ chosen.now.trailer.now.len
        → HaveBodies R.Source C.number (C.k_of code.now) (C.n_of code.now) bytes chosen.now.places.now readers.old
        → (reader_state R.Source (get_or readers.old a d)).failures < (reader_state R.Source (get_or readers.new a d)).failures }
{
    join_bodies(alloc, code, chosen, readers, sink)?;
    check_digests(chosen, readers)
}

// Joins the bodies, and compares none with its digest.
fn join_bodies<C: StripeCode, R: Source + Drop, W: Sink>(
    alloc: Global,
    code: &C,
    chosen: &ChosenPieces<'_>,
    readers: &mut [PieceReader<R>],
    sink: &mut W,
) -> Result<(), StreamError>
    requires places { length chosen.now.places.now ≡ C.k_of code.now }
    requires below { (a : ℕ) → a < length chosen.now.places.now → get_or chosen.now.places.now a 0 < C.n_of code.now }
    requires readers { length readers.old ≡ C.k_of code.now }
    ensures some { 0 < C.k_of code.now }
    ensures kept { OnOk result (length readers.new ≡ length readers.old) }
    ensures restored { OnOk result (HasRestored R.Source C.number (C.k_of code.now) (C.n_of code.now) chosen.now.places.now
        chosen.now.trailer.now.len readers.old readers.new (W.contents sink.old) (W.contents sink.new)) }
    ensures beginning { OnErr result ((bytes : List ℕ) → ((i : ℕ) → get_or bytes i 0 < 256)
        → length bytes ≡ chosen.now.trailer.now.len
        → HaveBodies R.Source C.number (C.k_of code.now) (C.n_of code.now) bytes chosen.now.places.now readers.old
        → AppendsBeginning (W.contents sink.old) (W.contents sink.new) bytes) }
    ensures errors { IfErr result (λ e. (e ≡ StreamError.Memory) ⊎ ((e ≡ StreamError.Write 0)
        ⊎ ((a : ℕ) × (a < length readers.old) × (e ≡ StreamError.Read a)))) }
    ensures read { (bytes : List ℕ) (a : ℕ) (d : PieceReader R) → a < C.k_of code.now → result ≡ Err (StreamError.Read a)
        → ((i : ℕ) → get_or bytes i 0 < 256) → length bytes ≡ chosen.now.trailer.now.len
        → HaveBodies R.Source C.number (C.k_of code.now) (C.n_of code.now) bytes chosen.now.places.now readers.old
        → (reader_state R.Source (get_or readers.old a d)).failures < (reader_state R.Source (get_or readers.new a d)).failures }
{
    let k = code.k();
    let len = chosen.trailer.len as usize;
    let size = 2 * k * PART;
    let extender = data_extender(alloc, code, chosen.places)?;
    for b in 0..blocks(k, len) {
        let want = size.min(len - b * size);
        let count = stripes(k, want);
        let numbers = take_parts(alloc, chosen.places, readers, count)?;
        let block = block_of(alloc, code, &extender, count, &numbers)?;
        put(sink, &block[..want])?;
    }
    Ok(())
}

// Writes bytes.
fn put<W: Sink>(sink: &mut W, bytes: &[u8]) -> Result<(), StreamError>
    ensures took { OnOk result (Appends (W.contents sink.old) (W.contents sink.new) bytes.now) }
    ensures some { OnErr result (AppendsBeginning (W.contents sink.old) (W.contents sink.new) bytes.now) }
    ensures errors { IsOkUnless result (StreamError.Write 0) }
{
    match sink.put(bytes) {
        Ok(()) => Ok(()),
        Err(_) => Err(StreamError::Write(0)),
    }
}

// Compares what was read of each piece with its digest.
pub(crate) fn check_digests<R: Source + Drop>(
    chosen: &ChosenPieces<'_>,
    readers: &mut [PieceReader<R>],
) -> Result<(), StreamError>
    requires { length readers.old ≡ length chosen.now.places.now }
    ensures kept { (a : ℕ) (d : PieceReader R) → a < length readers.old
        → piece_source (get_or readers.new a d) ≡ piece_source (get_or readers.old a d) }
    ensures listed { OnOk result ((a : ℕ) (d : PieceReader R) (text : List ℕ) → a < length readers.old
        → HasRead (get_or readers.old a d) text
        → chunk 32 (get_or chosen.now.places.now a 0) chosen.now.trailer.now.digests.items ≡ sha256 text) }
    ensures differs { (a : ℕ) (d : PieceReader R) (text : List ℕ) → result ≡ Err (StreamError.Damaged a)
        → HasRead (get_or readers.old a d) text
        → chunk 32 (get_or chosen.now.places.now a 0) chosen.now.trailer.now.digests.items ≢ sha256 text }
    ensures errors { IfErr result (λ e. (a : ℕ) × (a < length readers.old) × (e ≡ StreamError.Damaged a)) }
{
    for a in 0..readers.len() {
        let digest = readers[a].digest();
        if !are_same(chosen.trailer.digest(chosen.places[a]), &digest) {
            return Err(StreamError::Damaged(a));
        }
    }
    Ok(())
}

// The numbers in the next part of each piece, of which there are so many. The pieces are as many as give a file back.
pub(crate) fn take_parts<R: Source + Drop>(
    alloc: Global,
    places: &[usize],
    readers: &mut [PieceReader<R>],
    count: usize,
) -> Result<Vec<u32>, StreamError>
    requires few { count ≤ PART }
    requires places { length places.now ≤ 65536 }
    requires readers { length readers.old ≡ length places.now }
    ensures len { IfOk result (λ numbers. length numbers.items ≡ length places.now * count) }
    ensures small { IfOk result (λ numbers. (p : ℕ) → get_or numbers.items p 0 ≤ 65536) }
    ensures kept { length readers.new ≡ length readers.old }
    ensures parts { IfOk result (λ numbers. (a : ℕ) (d : PieceReader R) → a < length places.now
        → GavePart R.Source (length places.now) (get_or places.now a 0) count numbers.items a
        (get_or readers.old a d) (get_or readers.new a d)) }
    ensures fewer { (a : ℕ) (d : PieceReader R) → result ≡ Err (StreamError.Read a)
        → TakesFewer (reader_state R.Source (get_or readers.old a d)) (reader_state R.Source (get_or readers.new a d))
        (mark_size (length places.now) (get_or places.now a 0) + 2 * count) }
    ensures errors { IfErr result (λ e. (e ≡ StreamError.Memory)
        ⊎ ((a : ℕ) × (a < length readers.old) × (e ≡ StreamError.Read a))) }
{
    let mut numbers = vec![in alloc; 0u32; places.len() * count]?;
    take_rows(alloc, places, readers, count, numbers.as_mut_slice())?;
    Ok(numbers)
}

// Reads the next part of each piece into a row of the numbers.
fn take_rows<R: Source + Drop>(
    alloc: Global,
    places: &[usize],
    readers: &mut [PieceReader<R>],
    count: usize,
    numbers: &mut [u32],
) -> Result<(), StreamError>
    requires few { count ≤ PART }
    requires places { length places.now ≤ 65536 }
    requires readers { length readers.old ≡ length places.now }
    requires len { length numbers.old ≡ length places.now * count }
    ensures small { OnOk result ((a s : ℕ) → a < length places.now → s < count
        → get_or numbers.new (a * count + s) 0 ≤ 65536) }
    ensures kept { length readers.new ≡ length readers.old }
    ensures parts { OnOk result ((a : ℕ) (d : PieceReader R) → a < length places.now
        → GavePart R.Source (length places.now) (get_or places.now a 0) count numbers.new a
        (get_or readers.old a d) (get_or readers.new a d)) }
    ensures fewer { (a : ℕ) (d : PieceReader R) → result ≡ Err (StreamError.Read a)
        → TakesFewer (reader_state R.Source (get_or readers.old a d)) (reader_state R.Source (get_or readers.new a d))
        (mark_size (length places.now) (get_or places.now a 0) + 2 * count) }
    ensures errors { IfErr result (λ e. (e ≡ StreamError.Memory)
        ⊎ ((a : ℕ) × (a < length readers.old) × (e ≡ StreamError.Read a))) }
{
    for a in 0..places.len() {
        let size = mark_size(places.len(), places[a]) + 2 * count;
        let part = readers[a].take(alloc, a, size)?;
        read_row(places, a, &part, count, numbers);
    }
    Ok(())
}

// Reads a part of the piece at place `a` of these into row `a` of the numbers.
fn read_row(places: &[usize], a: usize, part: &[u8], count: usize, numbers: &mut [u32])
    requires few { count ≤ PART }
    requires place { a < length places.now }
    requires row { a * count + count ≤ length numbers.old }
    ensures before { (i : ℕ) → i < a * count → get_or numbers.new i 0 ≡ get_or numbers.old i 0 }
    ensures row { (s : ℕ) → s < count → get_or numbers.new (a * count + s) 0
        ≡ number_in (length places.now) (get_or places.now a 0) part.now s }
    ensures small { (s : ℕ) → s < count → get_or numbers.new (a * count + s) 0 ≤ 65536 }
{
    let start = a * count;
    let row = &mut numbers[start..start + count];
    read_part(places.len(), places[a], part, row);
}
