//! Pieces that are being read.

ghost use Rattle.std.specs.Prelude.{◌≡◌, ◌⊎◌, ℕ, ◌+◌, ◌-◌, ◌<◌, ◌≤◌, List, [], ◌++◌, length, true, false, Err, IfOk, IfErr, IsOkUnless, OnOk, OnErr};
ghost use Rattle.std.specs.Io.KnownBytes.{IsAtEnd};
ghost use Rattle.sha2.specs.Sha256.{sha256};
ghost use Rattle.ark_bytes.specs.Reading.{Takes, TakesFewer};

use crate::error::StreamError;
use crate::reading::take_bytes;
use ark_bytes::Source;
use sha2::{Digest, Sha256};
use std::alloc::Global;

// How many bytes are passed over at a time.
const CHUNK: usize = 65536;

/// A piece that is being read, with the digest of what was.
#[derive(Drop)]
pub struct PieceReader<R: Source + Drop> {
    source: R,
    hasher: Sha256,
}

impl<R: Source + Drop> PieceReader<R> {
    ghost use Rattle.shards_streams.specs.Readers.{Gave, HasRead, piece_source, reader_state};

    /// A piece of which nothing was read yet.
    pub fn new(source: R) -> Self
        ensures source { piece_source result ≡ source }
        ensures none { HasRead result [] }
    {
        PieceReader {
            source,
            hasher: Sha256::new(),
        }
    }

    /// The source, as the calls left it.
    pub fn into_source(self) -> R
        ensures { result ≡ piece_source self }
    {
        self.source
    }

    /// The next so many bytes; `Read` of this number where the source ends or fails before.
    pub fn take(
        &mut self,
        alloc: Global,
        number: usize,
        size: usize,
    ) -> Result<Vec<u8>, StreamError>
        ensures len { IfOk result (λ bytes. length bytes.items ≡ size) }
        ensures gave { IfOk result (λ bytes. Gave R.Source self.old self.new bytes.items) }
        ensures fewer { result ≡ Err (StreamError.Read number)
            → TakesFewer (reader_state R.Source self.old) (reader_state R.Source self.new) size }
        ensures errors { IfErr result (λ e. (e ≡ StreamError.Memory) ⊎ (e ≡ StreamError.Read number)) }
    {
        let bytes = take_bytes(alloc, &mut self.source, number, size)?;
        self.hasher.update(&bytes);
        Ok(bytes)
    }

    /// Passes over so many bytes; `Read` of this number where the source ends or fails before.
    pub fn pass(&mut self, alloc: Global, number: usize, size: usize) -> Result<(), StreamError>
        ensures gave { OnOk result ((bytes : List ℕ) × (length bytes ≡ size) × Gave R.Source self.old self.new bytes) }
        ensures fewer { result ≡ Err (StreamError.Read number)
            → TakesFewer (reader_state R.Source self.old) (reader_state R.Source self.new) size }
        ensures errors { IfErr result (λ e. (e ≡ StreamError.Memory) ⊎ (e ≡ StreamError.Read number)) }
    {
        let mut left = size;
        while left != 0 {
            let want = left.min(CHUNK);
            self.take(alloc, number, want)?;
            left -= want;
        }
        Ok(())
    }

    /// The SHA-256 of what was read since the last call.
    pub fn digest(&mut self) -> [u8; 32]
        ensures digest { (text : List ℕ) → HasRead self.old text → result ≡ sha256 text }
        ensures kept { piece_source self.new ≡ piece_source self.old }
    {
        self.hasher.finalize_reset()
    }

    /// The next so many bytes, which no digest is made of; `Read` of this number where the source ends or fails before.
    pub fn take_behind(
        &mut self,
        alloc: Global,
        number: usize,
        size: usize,
    ) -> Result<Vec<u8>, StreamError>
        ensures len { IfOk result (λ bytes. length bytes.items ≡ size) }
        ensures takes { IfOk result (λ bytes. Takes (reader_state R.Source self.old) (reader_state R.Source self.new)
            bytes.items) }
        ensures fewer { result ≡ Err (StreamError.Read number)
            → TakesFewer (reader_state R.Source self.old) (reader_state R.Source self.new) size }
        ensures errors { IfErr result (λ e. (e ≡ StreamError.Memory) ⊎ (e ≡ StreamError.Read number)) }
    {
        take_bytes(alloc, &mut self.source, number, size)
    }

    /// Whether there are no more bytes.
    pub fn is_at_end(&mut self) -> Result<bool, StreamError>
        ensures end { IfOk result (λ ended. ended ≡ true → IsAtEnd (reader_state R.Source self.new).remaining) }
        ensures none { IfOk result (λ ended. ended ≡ true
            → Takes (reader_state R.Source self.old) (reader_state R.Source self.new) []) }
        ensures more { IfOk result (λ ended. ended ≡ false → (bytes : List ℕ) × (0 < length bytes)
            × Takes (reader_state R.Source self.old) (reader_state R.Source self.new) bytes) }
        ensures failed { OnErr result ((reader_state R.Source self.old).failures
            < (reader_state R.Source self.new).failures) }
        ensures errors { IsOkUnless result (StreamError.Read 0) }
    {
        let mut more = [0u8; 1];
        match self.source.take(&mut more) {
            Ok(count) => Ok(count == 0),
            Err(_) => Err(StreamError::Read(0)),
        }
    }
}
