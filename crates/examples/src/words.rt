//! Calls over words, by a caller that knows no type of a field: values between given ones, and a transform
//! in parts.

ghost use Rattle.std.specs.Prelude.{◌≡◌, ℕ, ◌*◌, ◌/◌, ◌^◌, List, length, OnOk, OnErr};
ghost use Rattle.ark_math.specs.Words.{number_of_words};
ghost use Rattle.ark_numbers.specs.Answers.{coset_of, AreValues};
ghost use Rattle.ark_words.specs.Interpolations.{AreInterpolating};
ghost use Rattle.ark_words.specs.Numbers.{numbers, AreEvaluated};
ghost use Rattle.ark_words.specs.Parts.{row_at, AreOrdered};

use ark_words::{
    WordElement, WordsError, evaluate, fft_columns, fft_rows, interpolate, parts_make_the_transform,
};
use std::alloc::Global;

/// Writes the values at other points of the polynomial that has these values at these points, the only one of
/// a degree below their number. Each number is as many words as an element of the field has.
pub fn values_between<F: WordElement>(
    alloc: Global,
    points: &[u64],
    values: &[u64],
    others: &[u64],
    found: &mut [u64],
) -> Result<(), WordsError>
    ensures values { OnOk result ((coefficients : List ℕ)
        × AreInterpolating F.spelled points.now values.now coefficients
        × AreEvaluated F.spelled coefficients others.now found.new) }
    ensures kept { OnErr result (found.new ≡ found.old) }
{
    let Ok(mut room) = Vec::from_slice(alloc, points) else {
        return Err(WordsError::Memory);
    };
    let coefficients = room.as_mut_slice();
    interpolate::<F>(alloc, points, values, coefficients)?;
    evaluate::<F>(alloc, coefficients, others, found)
}

/// Replaces a list of exactly as many numbers as there are places by its values over the domain, by all
/// columns and then all rows: number `j` of row `i` is value `i + 2^log_rows * j`.
pub fn transformed_by_parts<F: WordElement>(
    alloc: Global,
    words: &mut [u64],
    log_rows: u32,
    log_columns: u32,
    offset: &[u64],
) -> Result<(), WordsError>
    requires { length words.old / F.spelled.width ≡ 2 ^ log_rows * 2 ^ log_columns }
    ensures { OnOk result ((values : List ℕ) → AreValues F.spelled.known
        (coset_of F.spelled.known (2 ^ log_rows * 2 ^ log_columns) (number_of_words offset.now))
        (numbers F.spelled.width words.old) values
        → AreOrdered F.spelled.known log_rows log_columns values (row_at F.spelled log_columns words.new)) }
{
    fft_columns::<F>(alloc, words, log_rows, log_columns, offset)?;
    fft_rows::<F>(alloc, words, log_rows, log_columns, 0, offset)?;
    parts_make_the_transform::<F>();
    Ok(())
}
