//! The number of each outcome.

ghost use Rattle.std.specs.Prelude.{◌≡◌};
ghost use Rattle.ark_c.specs.Pieces.{piece_status_of};
ghost use Rattle.ark_c.specs.Statuses.{status_of};
ghost use Rattle.ark_c.specs.SumFields.{sum_status_of};

use ark_word_sums::SumsError;
use ark_words::WordsError;
use shards_buffers::BufferError;

/// The number of a call's outcome, `None` standing for a field that has no such name.
pub fn status(outcome: Option<Result<(), WordsError>>) -> u32
    ensures { result ≡ status_of outcome }
{
    match outcome {
        Some(Ok(())) => 0,
        Some(Err(WordsError::Memory)) => 1,
        None => 2,
        Some(Err(WordsError::Length)) => 3,
        Some(Err(WordsError::NotReduced)) => 4,
        Some(Err(WordsError::NoDomain)) => 5,
        Some(Err(WordsError::ZeroDivisor)) => 6,
        Some(Err(WordsError::EqualPoints)) => 7,
        Some(Err(WordsError::TooFew)) => 8,
        Some(Err(WordsError::NoCodeword)) => 9,
    }
}

/// The number of the outcome of a call over pieces.
pub fn piece_status(outcome: Result<(), BufferError>) -> u32
    ensures { result ≡ piece_status_of outcome }
{
    match outcome {
        Ok(()) => 0,
        Err(BufferError::Memory) => 1,
        Err(BufferError::Length) => 3,
        Err(BufferError::NotPieces) => 10,
        Err(BufferError::Damaged) => 11,
    }
}

/// The number of the outcome of a call over sums, `None` standing for a field that has no such name.
pub fn sum_status(outcome: Option<Result<(), SumsError>>) -> u32
    ensures { result ≡ sum_status_of outcome }
{
    match outcome {
        Some(Ok(())) => 0,
        Some(Err(SumsError::Memory)) => 1,
        None => 2,
        Some(Err(SumsError::Length)) => 3,
        Some(Err(SumsError::NotReduced)) => 4,
        Some(Err(SumsError::Addends)) => 12,
        Some(Err(SumsError::Refused)) => 13,
    }
}
