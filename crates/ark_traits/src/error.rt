//! Why a call refuses.

ghost use Rattle.std.specs.Prelude.{◌≡◌};

use std::alloc::{AllocError, AllocFailed};
use thiserror::Error;

/// Why a call on polynomials, domains or evaluations refused. `Display` shows the variant's name.
#[derive(Clone, Copy, Debug, PartialEq, Eq, Hash, Error)]
pub enum PolyError {
    /// A growth of memory was refused.
    #[error("Memory")]
    Memory = 1,
    /// The field has no domain of the needed size.
    #[error("NoDomain")]
    NoDomain = 2,
    /// A degree, a length or a total is past `usize::MAX`.
    #[error("Overflow")]
    Overflow = 3,
    /// The other domain is not contained in this one.
    #[error("ForeignSubdomain")]
    ForeignSubdomain = 4,
    /// Something nonzero was divided by zero.
    #[error("ZeroDivisor")]
    ZeroDivisor = 5,
    /// The polynomial is held in dense form.
    #[error("NotSparse")]
    NotSparse = 6,
}

impl From<AllocError> for PolyError {
    ghost use Rattle.ark_traits.specs.declared.error.PolyError.TheVariants.{Memory};

    ghost from_gives = { λ _ error. error ≡ Memory };

    fn from(_refused: AllocError) -> PolyError {
        PolyError::Memory
    }
}

impl<T: Drop> From<AllocFailed<T>> for PolyError {
    ghost use Rattle.ark_traits.specs.declared.error.PolyError.TheVariants.{Memory};

    ghost from_gives = { λ _ error. error ≡ Memory };

    fn from(_refused: AllocFailed<T>) -> PolyError {
        PolyError::Memory
    }
}
