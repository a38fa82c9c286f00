//! Why a call on codes refuses.

ghost use Rattle.std.specs.Prelude.{◌≡◌};

use ark_traits::PolyError;
use std::alloc::{AllocError, AllocFailed};
use thiserror::Error;

/// Why a call on a code refused. `Display` shows the variant's name.
#[derive(Clone, Copy, Debug, PartialEq, Eq, Hash, Error)]
pub enum RsError {
    /// A growth of memory was refused.
    #[error("Memory")]
    Memory = 1,
    /// The word hasn't as many places as the code, or the message has more items than the code's messages.
    #[error("WrongLength")]
    WrongLength = 2,
    /// More places are erased than a code with so long a message can restore.
    #[error("TooManyErased")]
    TooManyErased = 3,
    /// No codeword agrees with the word at the places that aren't erased.
    #[error("NoCodeword")]
    NoCodeword = 4,
}

impl From<AllocError> for RsError {
    ghost use Rattle.rs_code.specs.declared.error.RsError.TheVariants.{Memory};

    ghost from_gives = { λ _ error. error ≡ Memory };

    fn from(_refused: AllocError) -> RsError {
        RsError::Memory
    }
}

impl<T: Drop> From<AllocFailed<T>> for RsError {
    ghost use Rattle.rs_code.specs.declared.error.RsError.TheVariants.{Memory};

    ghost from_gives = { λ _ error. error ≡ Memory };

    fn from(_refused: AllocFailed<T>) -> RsError {
        RsError::Memory
    }
}

// Memory is the only error of the transforms and of the other calls that are made here.
impl From<PolyError> for RsError {
    ghost use Rattle.rs_code.specs.declared.error.RsError.TheVariants.{Memory};

    ghost from_gives = { λ _ error. error ≡ Memory };

    fn from(_refused: PolyError) -> RsError {
        RsError::Memory
    }
}
