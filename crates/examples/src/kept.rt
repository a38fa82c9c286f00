//! Bytes in pieces, of which as many as are needed give them back.

ghost use Rattle.std.specs.Prelude.{◌≡◌, ◌⊎◌, ℕ, ◌<◌, ◌^◌, List, length, get_or, IfOk, IfErr};
ghost use Rattle.shards_format.specs.Files.{AreApart, AreDigests};
ghost use Rattle.shards_streams.specs.Joining.{GaveCollision, HaveHeads};

use ark_bytes::{IoSink, Source};
use shards_format::StripeCode;
use shards_streams::{ChosenPieces, PieceReader, StreamError, join_into, split_then_join};
use std::alloc::{AllocError, Global};

/// The bytes from the last of the pieces that they are split into: the same ones, or memory was refused.
pub fn from_last_pieces<C: StripeCode>(
    alloc: Global,
    code: &C,
    bytes: &[u8],
) -> Result<Vec<u8>, StreamError>
    requires { length bytes.now < 2 ^ 62 }
    ensures same { IfOk result (λ back. back.items ≡ bytes.now) }
    ensures memory { IfErr result (λ e. e ≡ StreamError.Memory) }
{
    let places = last_places(alloc, code)?;
    split_then_join(alloc, code, &[], bytes, &places)
}

// The last places, as many as are needed.
fn last_places<C: StripeCode>(alloc: Global, code: &C) -> Result<Vec<usize>, AllocError>
    ensures len { IfOk result (λ places. length places.items ≡ C.k_of code.now) }
    ensures below { IfOk result (λ places. (a : ℕ) → a < length places.items
        → get_or places.items a 0 < C.n_of code.now) }
    ensures apart { IfOk result (λ places. AreApart places.items) }
{
    let first = code.n() - code.k();
    let mut places = Vec::new(alloc);
    for a in 0..code.k() {
        places.push(first + a)?;
    }
    Ok(places)
}

/// What pieces give that come from anywhere: where they end with the trailer of a file's pieces this file, unless one of them
/// differs from the file's piece at its place, but has its digest.
pub fn joined<C: StripeCode, R: Source + Drop>(
    alloc: Global,
    code: &C,
    chosen: &ChosenPieces<'_>,
    readers: &mut [PieceReader<R>],
) -> Result<Vec<u8>, StreamError>
    requires places { length chosen.now.places.now ≡ C.k_of code.now }
    requires below { (a : ℕ) → a < length chosen.now.places.now → get_or chosen.now.places.now a 0 < C.n_of code.now }
    requires readers { length readers.old ≡ C.k_of code.now }
    ensures file { IfOk result (λ given. (label bytes : List ℕ) → ((i : ℕ) → get_or bytes i 0 < 256)
        → AreDigests C.number (C.k_of code.now) (C.n_of code.now) label bytes chosen.now.trailer.now.digests.items
        → length label < 65536 → length bytes ≡ chosen.now.trailer.now.len
        → (heads : HaveHeads (C.k_of code.now) (C.n_of code.now) chosen.now.places.now readers.old)
        → (given.items ≡ bytes) ⊎ GaveCollision R.Source C.number (C.k_of code.now) (C.n_of code.now) label bytes
        chosen.now.places.now readers.old readers.new heads) }
{
    let mut sink = IoSink::new(Vec::new(alloc));
    join_into(alloc, code, chosen, readers, &mut sink)?;
    Ok(sink.into_inner())
}
