//! Writing lost pieces anew.

ghost use Rattle.std.specs.Prelude.{◌≡◌, ◌≢◌, ◌⊎◌, ℕ, ◌<◌, ◌≤◌, List, [], ◌++◌, length, get_or, map, Some, Err, IfOk, IfErr, OnOk, OnErr, IsOkUnless};
ghost use Rattle.std.specs.Io.KnownBytes.{Appends};
ghost use Rattle.sha2.specs.Sha256.{sha256};
ghost use Rattle.shards_format.specs.Files.{AreDigests, IsListed};
ghost use Rattle.shards_format.specs.Headers.{head_bytes};
ghost use Rattle.shards_format.specs.Trailers.{trailer_bytes};
ghost use Rattle.shards_format.specs.Pieces.{body_size, chunk};
ghost use Rattle.shards_streams.specs.declared.reader.PieceReader.{PieceReader};
ghost use Rattle.shards_streams.specs.declared.writer.PieceWriter.{PieceWriter};
ghost use Rattle.shards_streams.specs.Readers.{HasRead, reader_state};
ghost use Rattle.shards_streams.specs.Writers.{piece_sink, HasHashed, Took};
ghost use Rattle.shards_streams.specs.Streams.{TookPiece};
ghost use Rattle.shards_streams.specs.Joining.{HaveBodies};
ghost use Rattle.shards_streams.specs.Repairing.{HasRemade, HaveFilePieces, TellsNoDamage, TookCollision, TookListed};

use crate::error::StreamError;
use crate::joining::{ChosenPieces, check_digests, take_parts};
use crate::reader::PieceReader;
use crate::splitting::{heads_at, put_behind_each, put_each};
use crate::writer::PieceWriter;
use ark_bytes::{Sink, Source};
use shards_format::{
    Header, PART, StripeCode, are_same, blocks, parts_at, repair_extender, stripes,
};
use std::alloc::{AllocError, Global};

/// Pieces that are lost, and what they are made anew of.
#[derive(Clone, Copy, Debug)]
pub struct LostPieces<'a> {
    /// The pieces that they are made of.
    pub chosen: ChosenPieces<'a>,
    /// What is known of the file.
    pub label: &'a [u8],
    /// Their places.
    pub places: &'a [usize],
    ghost few: { length places.now ≤ 65536 },
    ghost small: { (b : ℕ) → b < length places.now → get_or places.now b 0 < 65536 },
}

/// Makes lost pieces anew of `k` others, of which each reader has read the header with its label and no more: each
/// writer gets the piece at its place.
///
/// `Damaged` comes with the number of a reader whose piece has not its digest of the trailer, `Forged` where what was
/// made has not its digest though what was read has, `Read` with the number of a reader that ended or failed, `Write`
/// with that of a writer that failed, and `Memory` where a growth was refused. Nothing is said of what the sinks then
/// have.
pub fn repair_into<C: StripeCode, R: Source + Drop, W: Sink + Drop>(
    alloc: Global,
    code: &C,
    lost: &LostPieces<'_>,
    readers: &mut [PieceReader<R>],
    writers: &mut [PieceWriter<W>],
) -> Result<(), StreamError>
    requires places { length lost.now.chosen.places.now ≡ C.k_of code.now }
    requires below { (a : ℕ) → a < length lost.now.chosen.places.now
        → get_or lost.now.chosen.places.now a 0 < C.n_of code.now }
    requires readers { length readers.old ≡ C.k_of code.now }
    requires label { length lost.now.label.now < 65536 }
    requires lost { (b : ℕ) → b < length lost.now.places.now → get_or lost.now.places.now b 0 < C.n_of code.now }
    requires writers { length writers.old ≡ length lost.now.places.now }
    requires new { (b : ℕ) (d : PieceWriter W) → b < length writers.old → HasHashed (get_or writers.old b d) [] }
    ensures repaired { OnOk result ((b : ℕ) (d : PieceWriter W) → b < length lost.now.places.now
        → TookListed (C.k_of code.now) (C.n_of code.now) lost.now.label.now
        lost.now.chosen.trailer.now.digests.items lost.now.chosen.trailer.now.len (get_or lost.now.places.now b 0)
        (W.contents (piece_sink (get_or writers.old b d))) (W.contents (piece_sink (get_or writers.new b d)))) }

    // Where the trailer is that of a file's pieces, they are made anew, or else what a sink took differs from the
    // file's piece at its place, but has its digest.
    ensures pieces { OnOk result ((label bytes : List ℕ)
        → AreDigests C.number (C.k_of code.now) (C.n_of code.now) label bytes lost.now.chosen.trailer.now.digests.items
        → length bytes ≡ lost.now.chosen.trailer.now.len → (b : ℕ) (d : PieceWriter W) → b < length lost.now.places.now
        → TookPiece C.number (C.k_of code.now) (C.n_of code.now) label bytes
        lost.now.chosen.trailer.now.digests.items (get_or lost.now.places.now b 0)
        (W.contents (piece_sink (get_or writers.old b d))) (W.contents (piece_sink (get_or writers.new b d)))
        ⊎ TookCollision C.number (C.k_of code.now) (C.n_of code.now) lost.now.label.now label bytes
        lost.now.chosen.trailer.now.digests.items (get_or lost.now.places.now b 0)
        (W.contents (piece_sink (get_or writers.old b d))) (W.contents (piece_sink (get_or writers.new b d)))) }

    // The pieces of a file are never refused for what they are.
    ensures whole { IfErr result (λ e. HaveFilePieces R.Source C.number (C.k_of code.now) (C.n_of code.now)
        lost.now.chosen.places.now lost.now.label.now lost.now.chosen.trailer.now.digests.items
        lost.now.chosen.trailer.now.len readers.old → TellsNoDamage e) }

    // A reader of a piece with its digest is never the one of `Damaged`.
    ensures damaged { (a : ℕ) (d : PieceReader R) (head body rest : List ℕ) → a < C.k_of code.now
        → HasRead (get_or readers.old a d) head
        → (reader_state R.Source (get_or readers.old a d)).remaining ≡ Some (body ++ rest)
        → length body ≡ body_size (C.k_of code.now) (get_or lost.now.chosen.places.now a 0)
        lost.now.chosen.trailer.now.len
        → chunk 32 (get_or lost.now.chosen.places.now a 0) lost.now.chosen.trailer.now.digests.items
        ≡ sha256 (head ++ body) → result ≢ Err (StreamError.Damaged a) }

    // At `Forged` each piece that was read has its digest, but some lost piece of the same file has not.
    ensures listed { (a : ℕ) (d : PieceReader R) (head body rest : List ℕ) → a < C.k_of code.now
        → HasRead (get_or readers.old a d) head
        → (reader_state R.Source (get_or readers.old a d)).remaining ≡ Some (body ++ rest)
        → length body ≡ body_size (C.k_of code.now) (get_or lost.now.chosen.places.now a 0)
        lost.now.chosen.trailer.now.len
        → result ≡ Err StreamError.Forged
        → chunk 32 (get_or lost.now.chosen.places.now a 0) lost.now.chosen.trailer.now.digests.items
        ≡ sha256 (head ++ body) }
    ensures forged { (bytes : List ℕ) → ((i : ℕ) → get_or bytes i 0 < 256)
        → length bytes ≡ lost.now.chosen.trailer.now.len
        → HaveBodies R.Source C.number (C.k_of code.now) (C.n_of code.now) bytes lost.now.chosen.places.now readers.old
        → result ≡ Err StreamError.Forged
        → (b : ℕ) × (b < length lost.now.places.now) × (IsListed C.number (C.k_of code.now) (C.n_of code.now)
        lost.now.label.now bytes lost.now.chosen.trailer.now.digests.items (get_or lost.now.places.now b 0) → ⊥) }
    ensures errors { IfErr result (λ e. (e ≡ StreamError.Memory) ⊎ ((e ≡ StreamError.Forged)
        ⊎ (((b : ℕ) × (b < length writers.old) × (e ≡ StreamError.Write b))
        ⊎ (((a : ℕ) × (a < length readers.old) × (e ≡ StreamError.Read a))
        ⊎ ((a : ℕ) × (a < length readers.old) × (e ≡ StreamError.Damaged a)))))) }

    // Of a source with its piece of a file a call failed, where it is the one that `Read` tells.
    ensures read { (a : ℕ) (d : PieceReader R) → a < C.k_of code.now → result ≡ Err (StreamError.Read a)
        → HaveFilePieces R.Source C.number (C.k_of code.now) (C.n_of code.now)
        lost.now.chosen.places.now lost.now.label.now lost.now.chosen.trailer.now.digests.items
        lost.now.chosen.trailer.now.len readers.old
        → (reader_state R.Source (get_or readers.old a d)).failures < (reader_state R.Source (get_or readers.new a d)).failures }
{
    put_heads(alloc, code, lost, writers)?;
    remake_bodies(alloc, code, lost, readers, writers)?;
    check_digests(&lost.chosen, readers)?;
    check_made(lost, writers)?;
    put_trailers(alloc, lost, writers)
}

// Writes what each lost piece begins with.
fn put_heads<C: StripeCode, W: Sink + Drop>(
    alloc: Global,
    code: &C,
    lost: &LostPieces<'_>,
    writers: &mut [PieceWriter<W>],
) -> Result<(), StreamError>
    requires label { length lost.now.label.now < 65536 }
    requires lost { (b : ℕ) → b < length lost.now.places.now → get_or lost.now.places.now b 0 < C.n_of code.now }
    requires writers { length writers.old ≡ length lost.now.places.now }
    ensures len { length writers.new ≡ length writers.old }
    ensures took { OnOk result ((b : ℕ) (d : PieceWriter W) → b < length lost.now.places.now
        → Took W.Sink (get_or writers.old b d) (get_or writers.new b d)
        (head_bytes (C.k_of code.now) (C.n_of code.now) (get_or lost.now.places.now b 0) lost.now.label.now)) }
    ensures errors { IfErr result (λ e. (e ≡ StreamError.Memory)
        ⊎ ((b : ℕ) × (b < length writers.old) × (e ≡ StreamError.Write b))) }
{
    let heads = heads_at(alloc, code, lost.label, lost.places)?;
    put_each(writers, &heads)
}

// Writes the bodies of the lost pieces, and compares none with its digest.
fn remake_bodies<C: StripeCode, R: Source + Drop, W: Sink + Drop>(
    alloc: Global,
    code: &C,
    lost: &LostPieces<'_>,
    readers: &mut [PieceReader<R>],
    writers: &mut [PieceWriter<W>],
) -> Result<(), StreamError>
    requires places { length lost.now.chosen.places.now ≡ C.k_of code.now }
    requires below { (a : ℕ) → a < length lost.now.chosen.places.now
        → get_or lost.now.chosen.places.now a 0 < C.n_of code.now }
    requires readers { length readers.old ≡ C.k_of code.now }
    requires lost { (b : ℕ) → b < length lost.now.places.now → get_or lost.now.places.now b 0 < C.n_of code.now }
    requires writers { length writers.old ≡ length lost.now.places.now }
    ensures some { 0 < C.k_of code.now }
    ensures kept { OnOk result (length readers.new ≡ length readers.old) }
    ensures len { OnOk result (length writers.new ≡ length writers.old) }
    ensures remade { OnOk result (HasRemade R.Source W.Sink C.number (C.k_of code.now) (C.n_of code.now)
        lost.now.chosen.places.now lost.now.places.now lost.now.chosen.trailer.now.len
        readers.old readers.new writers.old writers.new) }
    ensures errors { IfErr result (λ e. (e ≡ StreamError.Memory)
        ⊎ (((b : ℕ) × (b < length writers.old) × (e ≡ StreamError.Write b))
        ⊎ ((a : ℕ) × (a < length readers.old) × (e ≡ StreamError.Read a)))) }
    ensures read { (bytes : List ℕ) (a : ℕ) (d : PieceReader R) → a < C.k_of code.now → result ≡ Err (StreamError.Read a)
        → ((i : ℕ) → get_or bytes i 0 < 256) → length bytes ≡ lost.now.chosen.trailer.now.len
        → HaveBodies R.Source C.number (C.k_of code.now) (C.n_of code.now) bytes lost.now.chosen.places.now readers.old
        → (reader_state R.Source (get_or readers.old a d)).failures < (reader_state R.Source (get_or readers.new a d)).failures }
{
    let k = code.k();
    let len = lost.chosen.trailer.len as usize;
    let size = 2 * k * PART;
    let extender = repair_extender(alloc, code, lost.chosen.places, lost.places)?;
    for b in 0..blocks(k, len) {
        let want = size.min(len - b * size);
        let count = stripes(k, want);
        let numbers = take_parts(alloc, lost.chosen.places, readers, count)?;
        let parts = parts_at(alloc, code, &extender, count, &numbers)?;
        put_each(writers, &parts)?;
    }
    Ok(())
}

// Compares what was written of each piece with its digest.
fn check_made<W: Sink + Drop>(
    lost: &LostPieces<'_>,
    writers: &mut [PieceWriter<W>],
) -> Result<(), StreamError>
    requires { length writers.old ≡ length lost.now.places.now }
    ensures len { length writers.new ≡ length writers.old }
    ensures kept { OnOk result ((b : ℕ) (d : PieceWriter W) → b < length writers.old
        → piece_sink (get_or writers.new b d) ≡ piece_sink (get_or writers.old b d)) }
    ensures listed { OnOk result ((b : ℕ) (d : PieceWriter W) (text : List ℕ) → b < length writers.old
        → HasHashed (get_or writers.old b d) text
        → chunk 32 (get_or lost.now.places.now b 0) lost.now.chosen.trailer.now.digests.items ≡ sha256 text) }
    ensures differs { OnErr result ((b : ℕ) × (b < length writers.old) × ((d : PieceWriter W) (text : List ℕ)
        → HasHashed (get_or writers.old b d) text
        → chunk 32 (get_or lost.now.places.now b 0) lost.now.chosen.trailer.now.digests.items ≢ sha256 text)) }
    ensures errors { IsOkUnless result StreamError.Forged }
{
    for b in 0..writers.len() {
        let digest = writers[b].digest();
        if !are_same(lost.chosen.trailer.digest(lost.places[b]), &digest) {
            return Err(StreamError::Forged);
        }
    }
    Ok(())
}

// Writes the trailer behind each piece.
fn put_trailers<W: Sink + Drop>(
    alloc: Global,
    lost: &LostPieces<'_>,
    writers: &mut [PieceWriter<W>],
) -> Result<(), StreamError>
    ensures took { OnOk result ((b : ℕ) (d : PieceWriter W) → b < length writers.old
        → Appends (W.contents (piece_sink (get_or writers.old b d))) (W.contents (piece_sink (get_or writers.new b d)))
        (trailer_bytes lost.now.chosen.trailer.now.digests.items lost.now.chosen.trailer.now.len)) }
    ensures errors { IfErr result (λ e. (e ≡ StreamError.Memory)
        ⊎ ((b : ℕ) × (b < length writers.old) × (e ≡ StreamError.Write b))) }
{
    let end = lost.chosen.trailer.to_bytes(alloc)?;
    put_behind_each(writers, &end)
}
