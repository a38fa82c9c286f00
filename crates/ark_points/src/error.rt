//! Why a call at points refuses.

ghost use Rattle.std.specs.Prelude.{◌≡◌};

use ark_traits::PolyError;
use std::alloc::{AllocError, AllocFailed};
use thiserror::Error;

/// Why a call at points of a caller's own refused. `Display` shows the variant's name.
#[derive(Clone, Copy, Debug, PartialEq, Eq, Hash, Error)]
pub enum PointsError {
    /// A growth of memory was refused.
    #[error("Memory")]
    Memory = 1,
    /// Two of the points are one.
    #[error("RepeatedPoint")]
    RepeatedPoint = 2,
}

impl From<AllocError> for PointsError {
    ghost use Rattle.ark_points.specs.declared.error.PointsError.TheVariants.{Memory};

    ghost from_gives = { λ _ error. error ≡ Memory };

    fn from(_refused: AllocError) -> PointsError {
        PointsError::Memory
    }
}

impl<T: Drop> From<AllocFailed<T>> for PointsError {
    ghost use Rattle.ark_points.specs.declared.error.PointsError.TheVariants.{Memory};

    ghost from_gives = { λ _ error. error ≡ Memory };

    fn from(_refused: AllocFailed<T>) -> PointsError {
        PointsError::Memory
    }
}

// Memory is the only error that the calls on polynomials come to here.
impl From<PolyError> for PointsError {
    ghost use Rattle.ark_points.specs.declared.error.PointsError.TheVariants.{Memory};

    ghost from_gives = { λ _ error. error ≡ Memory };

    fn from(_refused: PolyError) -> PointsError {
        PointsError::Memory
    }
}
