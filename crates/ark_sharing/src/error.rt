//! Why a call on shares refuses.

ghost use Rattle.std.specs.Prelude.{◌≡◌};

use ark_points::PointsError;
use ark_traits::PolyError;
use std::alloc::{AllocError, AllocFailed};
use thiserror::Error;

/// Why a call on shares refused. `Display` shows the variant's name.
#[derive(Clone, Copy, Debug, PartialEq, Eq, Hash, Error)]
pub enum SharingError {
    /// A growth of memory was refused.
    #[error("Memory")]
    Memory = 1,
    /// No shares, or more than all of them, would be needed to give the secret back.
    #[error("WrongThreshold")]
    WrongThreshold = 2,
    /// One of the points is zero, where the value is the secret itself.
    #[error("ZeroPoint")]
    ZeroPoint = 3,
    /// Two of the points are one.
    #[error("RepeatedPoint")]
    RepeatedPoint = 4,
}

impl From<AllocError> for SharingError {
    ghost use Rattle.ark_sharing.specs.declared.error.SharingError.TheVariants.{Memory};

    ghost from_gives = { λ _ error. error ≡ Memory };

    fn from(_refused: AllocError) -> SharingError {
        SharingError::Memory
    }
}

impl<T: Drop> From<AllocFailed<T>> for SharingError {
    ghost use Rattle.ark_sharing.specs.declared.error.SharingError.TheVariants.{Memory};

    ghost from_gives = { λ _ error. error ≡ Memory };

    fn from(_refused: AllocFailed<T>) -> SharingError {
        SharingError::Memory
    }
}

// Memory is the only error of the values of a polynomial.
impl From<PolyError> for SharingError {
    ghost use Rattle.ark_sharing.specs.declared.error.SharingError.TheVariants.{Memory};

    ghost from_gives = { λ _ error. error ≡ Memory };

    fn from(_refused: PolyError) -> SharingError {
        SharingError::Memory
    }
}
