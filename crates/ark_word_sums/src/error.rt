//! Why a call over sums gives no answer.

ghost use Rattle.std.specs.Prelude.{◌≡◌};

use ark_sum_check::SumCheckError;
use ark_words::WordsError;
use std::alloc::{AllocError, AllocFailed};
use thiserror::Error;

/// Why a call over sums gives no answer. It has then changed nothing. `Display` shows the variant's name.
#[derive(Clone, Copy, Debug, PartialEq, Eq, Hash, Error)]
pub enum SumsError {
    /// Memory was refused.
    #[error("Memory")]
    Memory,
    /// A length doesn't fit, or there are more variables than 63, or the degree is none of 1 to 65535.
    #[error("Length")]
    Length,
    /// The words of the addends spell no products of these tables, or the longest has not as many factors as
    /// the degree.
    #[error("Addends")]
    Addends,
    /// A number isn't below the modulus.
    #[error("NotReduced")]
    NotReduced,
    /// The bytes are no proof of the claim.
    #[error("Refused")]
    Refused,
}

impl From<AllocError> for SumsError {
    ghost use Rattle.ark_word_sums.specs.declared.error.SumsError.TheVariants.{Memory};

    ghost from_gives = { λ _ error. error ≡ Memory };

    fn from(_refused: AllocError) -> SumsError {
        SumsError::Memory
    }
}

impl<T: Drop> From<AllocFailed<T>> for SumsError {
    ghost use Rattle.ark_word_sums.specs.declared.error.SumsError.TheVariants.{Memory};

    ghost from_gives = { λ _ error. error ≡ Memory };

    fn from(_refused: AllocFailed<T>) -> SumsError {
        SumsError::Memory
    }
}

// What is read of words has no other errors.
impl From<WordsError> for SumsError {
    ghost use Rattle.ark_word_sums.specs.Faults.{of_words};

    ghost from_gives = { λ refused error. error ≡ of_words refused };

    fn from(refused: WordsError) -> SumsError {
        match refused {
            WordsError::NotReduced => SumsError::NotReduced,
            _ => SumsError::Memory,
        }
    }
}

// Memory is the only error of the calls that are made here.
impl From<SumCheckError> for SumsError {
    ghost use Rattle.ark_word_sums.specs.declared.error.SumsError.TheVariants.{Memory};

    ghost from_gives = { λ _ error. error ≡ Memory };

    fn from(_refused: SumCheckError) -> SumsError {
        SumsError::Memory
    }
}
