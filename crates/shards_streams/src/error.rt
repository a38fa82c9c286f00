//! Why calls over sources and sinks stop.

ghost use Rattle.std.specs.Prelude.{◌≡◌};

use std::alloc::AllocError;
use thiserror::Error;

/// Why a call over sources and sinks stopped. The number tells which of them it was.
#[derive(Clone, Copy, Debug, PartialEq, Eq, Hash, Error)]
pub enum StreamError {
    /// A growth of memory was refused.
    #[error("not enough memory")]
    Memory,
    /// A source failed, or ended too early.
    #[error("reading failed")]
    Read(usize),
    /// A sink failed.
    #[error("writing failed")]
    Write(usize),
    /// A file has 2^62 bytes or more.
    #[error("the file is too long")]
    TooLong,
    /// What a source gave has not the digest that is listed for it.
    #[error("a piece is damaged")]
    Damaged(usize),
    /// What the trailer lists are the digests of no file's pieces.
    #[error("the pieces are of no file: their digests do not agree")]
    Forged,
}

impl From<AllocError> for StreamError {
    ghost use Rattle.shards_streams.specs.declared.error.StreamError.TheVariants.{Memory};

    ghost from_gives = { λ _ error. error ≡ Memory };

    fn from(_refused: AllocError) -> StreamError {
        StreamError::Memory
    }
}
