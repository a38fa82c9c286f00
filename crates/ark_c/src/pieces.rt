//! Files in pieces. The code is `FileCode`: any `k` of `n` pieces give a file back, for `0 < k ≤ n ≤ 2^16`.

ghost use Rattle.std.specs.Prelude.{◌≡◌, ◌≢◌, ◌↔◌, ◌⊎◌, ℕ, ◌<◌, ◌≤◌, List, length, Err, IfOk, IfErr, OnOk};
ghost use Rattle.std.specs.Prelude.{OnErr};
ghost use Rattle.shards_buffers.specs.Sizes.{FitPieces, FitRun, piece_size};
ghost use Rattle.shards_buffers.specs.Runs.{AreAllPieces, AreEnough, EndAsPieces, HasCollision, HasDamage};
ghost use Rattle.shards_buffers.specs.Runs.{HasTrailer};
ghost use Rattle.ark_c.specs.Pieces.{HasFileCode};

use crate::status::piece_status;
use shards_buffers::{BufferError, join, last_trailer, piece_size, split};
use shards_lib::{FileCode, StripeCode};
use std::alloc::Global;

/// Writes how many bytes the piece of this number has, of a file of `len` bytes whose label has `label_len`.
#[unsafe(no_mangle)]
pub extern "C" fn ark_piece_size(
    k: u64,
    n: u64,
    number: u64,
    label_len: u64,
    len: u64,
    size: &mut u64,
) -> u32
    ensures size { result ≡ 0 → size.new ≡ piece_size k n number label_len len }
    ensures kept { result ≢ 0 → size.new ≡ size.old }
    ensures taken { result ≡ 0 → FitPieces k n label_len len × (number < n) }
    ensures length { (result ≡ 3) ↔ (¬ (FitPieces k n label_len len × (number < n))) }
    ensures no_other { (result ≡ 0) ⊎ (result ≡ 3) }
{
    match piece_size(
        k as usize,
        n as usize,
        number as usize,
        label_len as usize,
        len as usize,
    ) {
        Some(found) => {
            *size = found as u64;
            0
        }
        None => 3,
    }
}

/// Writes all `n` pieces of a file with this label, one after another, of which any `k` give the file back.
#[unsafe(no_mangle)]
pub extern "C" fn ark_split(
    alloc: Global,
    k: u64,
    n: u64,
    label: &[u8],
    file: &[u8],
    pieces: &mut [u8],
) -> u32
    ensures pieces { result ≡ 0
        → AreAllPieces ⟦<FileCode as StripeCode>⟧.number k n label.now file.now pieces.new }
    ensures kept { result ≢ 0 → pieces.new ≡ pieces.old }
    ensures taken { result ≡ 0 → FitRun k n (length label.now) (length file.now) (length pieces.old) }
    ensures length { (result ≡ 3)
        ↔ (¬ FitRun k n (length label.now) (length file.now) (length pieces.old)) }
    ensures no_other { (result ≡ 0) ⊎ ((result ≡ 1) ⊎ (result ≡ 3)) }
{
    piece_status(split_by::<FileCode>(alloc, k, n, label, file, pieces))
}

/// Writes how many bytes the file has whose pieces these are, as the trailer of one of `n` pieces has it that the
/// bytes end with.
#[unsafe(no_mangle)]
pub extern "C" fn ark_file_size(alloc: Global, n: u64, pieces: &[u8], len: &mut u64) -> u32
    ensures len { result ≡ 0 → (digests : List ℕ) × HasTrailer n digests len.new pieces.now }
    ensures kept { result ≢ 0 → len.new ≡ len.old }
    ensures length { (result ≡ 3) ↔ (65536 < n) }
    ensures not_pieces { result ≡ 10 → (digests : List ℕ) (m : ℕ) → ¬ HasTrailer n digests m pieces.now }
    ensures no_other { (result ≡ 0) ⊎ ((result ≡ 1) ⊎ ((result ≡ 3) ⊎ (result ≡ 10))) }
{
    piece_status(write_file_size(alloc, n, pieces, len))
}

/// Writes the file of `k` pieces or more, which stand whole in the list of pieces, one after another in any order.
/// The first `k` of them are read, and the trailer that the list ends with.
#[unsafe(no_mangle)]
pub extern "C" fn ark_join(alloc: Global, k: u64, n: u64, pieces: &[u8], file: &mut [u8]) -> u32
    // Pieces of a file give this file.
    ensures file { result ≡ 0 → (label bytes : List ℕ)
        → AreEnough ⟦<FileCode as StripeCode>⟧.number k n label bytes pieces.now → file.new ≡ bytes }
    // Whatever stands before the trailer of a file's pieces, it gives this file, or else a piece there differs from
    // the file's piece at its place, but has its digest.
    ensures trusted { result ≡ 0 → (label bytes : List ℕ)
        → EndAsPieces ⟦<FileCode as StripeCode>⟧.number k n label bytes pieces.now
        → (file.new ≡ bytes)
        ⊎ HasCollision ⟦<FileCode as StripeCode>⟧.number k n label bytes pieces.now }
    ensures kept { result ≢ 0 → file.new ≡ file.old }
    ensures code { result ≢ 3 → HasFileCode k n }
    // Pieces of a file are never refused, but for memory, where there is room for as many bytes as it has.
    ensures refused { (label bytes : List ℕ) → HasFileCode k n → length bytes ≡ length file.old
        → AreEnough ⟦<FileCode as StripeCode>⟧.number k n label bytes pieces.now
        → (result ≡ 0) ⊎ (result ≡ 1) }
    ensures length { result ≡ 3 → (¬ HasFileCode k n) ⊎ ((digests : List ℕ) × (len : ℕ)
        × HasTrailer n digests len pieces.now × (len ≢ length file.old)) }
    ensures not_pieces { result ≡ 10 → (label bytes : List ℕ)
        → ¬ AreEnough ⟦<FileCode as StripeCode>⟧.number k n label bytes pieces.now }
    ensures damaged { result ≡ 11 → (digests : List ℕ)
        × HasTrailer n digests (length file.old) pieces.now
        × HasDamage k n (length file.old) digests pieces.now }
    ensures no_other { (result ≡ 0) ⊎ ((result ≡ 1) ⊎ ((result ≡ 3) ⊎ ((result ≡ 10) ⊎ (result ≡ 11)))) }
{
    piece_status(join_by::<FileCode>(alloc, k, n, pieces, file))
}

// The code for these numbers.
fn code_for<C: StripeCode>(k: u64, n: u64) -> Result<C, BufferError>
    ensures k { IfOk result (λ code. C.k_of code ≡ k) }
    ensures n { IfOk result (λ code. C.n_of code ≡ n) }
    ensures has { IfOk result (λ code. C.has k n) }
    ensures none { IfErr result (λ e. (e ≡ BufferError.Length) × (¬ C.has k n)) }
{
    C::new(k as usize, n as usize).ok_or(BufferError::Length)
}

// `ark_split` by any code, with its error.
fn split_by<C: StripeCode>(
    alloc: Global,
    k: u64,
    n: u64,
    label: &[u8],
    file: &[u8],
    pieces: &mut [u8],
) -> Result<(), BufferError>
    ensures pieces { OnOk result (AreAllPieces C.number k n label.now file.now pieces.new) }
    ensures kept { OnErr result (pieces.new ≡ pieces.old) }
    ensures taken { OnOk result (FitRun k n (length label.now) (length file.now) (length pieces.old)) }
    ensures length { (result ≡ Err BufferError.Length) ↔ (¬ (C.has k n
        × FitRun k n (length label.now) (length file.now) (length pieces.old))) }
    ensures errors { IfErr result (λ e. (e ≡ BufferError.Memory) ⊎ (e ≡ BufferError.Length)) }
{
    let code = code_for::<C>(k, n)?;
    split(alloc, &code, label, file, pieces)
}

// `ark_file_size`, with its error.
fn write_file_size(alloc: Global, n: u64, pieces: &[u8], len: &mut u64) -> Result<(), BufferError>
    ensures len { OnOk result ((digests : List ℕ) × HasTrailer n digests len.new pieces.now) }
    ensures kept { OnErr result (len.new ≡ len.old) }
    ensures length { (result ≡ Err BufferError.Length) ↔ (65536 < n) }
    ensures not_pieces { result ≡ Err BufferError.NotPieces → (digests : List ℕ) (m : ℕ)
        → ¬ HasTrailer n digests m pieces.now }
    ensures whole { result ≢ Err BufferError.Damaged }
{
    if n > 65536 {
        return Err(BufferError::Length);
    }
    let trailer = last_trailer(alloc, n as usize, pieces)?;
    *len = trailer.len;
    Ok(())
}

// `ark_join` by any code, with its error.
fn join_by<C: StripeCode>(
    alloc: Global,
    k: u64,
    n: u64,
    pieces: &[u8],
    file: &mut [u8],
) -> Result<(), BufferError>
    ensures file { OnOk result ((label bytes : List ℕ)
        → AreEnough C.number k n label bytes pieces.now → file.new ≡ bytes) }
    ensures trusted { OnOk result ((label bytes : List ℕ)
        → EndAsPieces C.number k n label bytes pieces.now
        → (file.new ≡ bytes) ⊎ HasCollision C.number k n label bytes pieces.now) }
    ensures kept { OnErr result (file.new ≡ file.old) }
    ensures refused { IfErr result (λ e. (label bytes : List ℕ) → C.has k n
        → AreEnough C.number k n label bytes pieces.now
        → (e ≡ BufferError.Memory) ⊎ ((e ≡ BufferError.Length) × (length bytes ≢ length file.old))) }
    ensures code { result ≢ Err BufferError.Length → C.has k n }
    ensures length { result ≡ Err BufferError.Length → (¬ C.has k n) ⊎ ((digests : List ℕ) × (len : ℕ)
        × HasTrailer n digests len pieces.now × (len ≢ length file.old)) }
    ensures damaged { result ≡ Err BufferError.Damaged → (digests : List ℕ)
        × HasTrailer n digests (length file.old) pieces.now
        × HasDamage k n (length file.old) digests pieces.now }
{
    let code = code_for::<C>(k, n)?;
    join(alloc, &code, pieces, file)
}
