//! Why calls over pieces in memory stop.

ghost use Rattle.std.specs.Prelude.{◌≡◌};

use std::alloc::AllocError;
use thiserror::Error;

/// Why a call over pieces in memory stopped.
#[derive(Clone, Copy, Debug, PartialEq, Eq, Hash, Error)]
pub enum BufferError {
    /// A growth of memory was refused.
    #[error("not enough memory")]
    Memory,
    /// A list of bytes has another length than is written to it, or a label or a file is too long.
    #[error("a list of another length")]
    Length,
    /// The bytes are not as many pieces as give a file back, of this code and at places that differ.
    #[error("not the pieces of a file")]
    NotPieces,
    /// A piece has not the digest that is listed for it.
    #[error("a piece is damaged")]
    Damaged,
}

impl From<AllocError> for BufferError {
    ghost use Rattle.shards_buffers.specs.declared.error.BufferError.TheVariants.{Memory};

    ghost from_gives = { λ _ error. error ≡ Memory };

    fn from(_refused: AllocError) -> BufferError {
        BufferError::Memory
    }
}
