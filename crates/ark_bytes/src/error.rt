//! Why a call on bytes refuses.

ghost use Rattle.std.specs.Prelude.{◌≡◌};

use std::alloc::{AllocError, AllocFailed};
use thiserror::Error;

/// The writer or the reader of a call failed.
#[derive(Clone, Copy, Debug, PartialEq, Eq, Hash, Error)]
#[error("Failed")]
pub struct Failed;

/// Why reading or writing of a value refused. `Display` shows the variant's name.
#[derive(Clone, Copy, Debug, PartialEq, Eq, Hash, Error)]
pub enum SerializationError {
    /// The reader ended or failed, or the writer failed.
    #[error("IoError")]
    IoError = 1,
    /// The bytes that were taken begin no spelling.
    #[error("InvalidData")]
    InvalidData = 2,
    /// A growth of memory was refused.
    #[error("Memory")]
    Memory = 3,
}

impl From<AllocError> for SerializationError {
    ghost use Rattle.ark_bytes.specs.declared.error.SerializationError.TheVariants.{Memory};

    ghost from_gives = { λ _ error. error ≡ Memory };

    fn from(_refused: AllocError) -> SerializationError {
        SerializationError::Memory
    }
}

impl<T: Drop> From<AllocFailed<T>> for SerializationError {
    ghost use Rattle.ark_bytes.specs.declared.error.SerializationError.TheVariants.{Memory};

    ghost from_gives = { λ _ error. error ≡ Memory };

    fn from(_refused: AllocFailed<T>) -> SerializationError {
        SerializationError::Memory
    }
}
