//! Why a call refuses.

ghost use Rattle.std.specs.Prelude.{◌≡◌};

use std::alloc::{AllocError, AllocFailed};
use thiserror::Error;

/// Why a call on sum-checks refused. `Display` shows the variant's name.
#[derive(Clone, Copy, Debug, PartialEq, Eq, Hash, Error)]
pub enum SumCheckError {
    /// A growth of memory was refused.
    #[error("Memory")]
    Memory = 1,
    /// The field's characteristic is so small that 0, 1, .., d are not different elements, and values at
    /// these don't tell a polynomial of degree d.
    #[error("SmallCharacteristic")]
    SmallCharacteristic = 2,
}

impl From<AllocError> for SumCheckError {
    ghost use Rattle.ark_sum_check.specs.declared.error.SumCheckError.TheVariants.{Memory};

    ghost from_gives = { λ _ error. error ≡ Memory };

    fn from(_refused: AllocError) -> SumCheckError {
        SumCheckError::Memory
    }
}

impl<T: Drop> From<AllocFailed<T>> for SumCheckError {
    ghost use Rattle.ark_sum_check.specs.declared.error.SumCheckError.TheVariants.{Memory};

    ghost from_gives = { λ _ error. error ≡ Memory };

    fn from(_refused: AllocFailed<T>) -> SumCheckError {
        SumCheckError::Memory
    }
}
