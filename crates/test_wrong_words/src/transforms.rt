//! Calls of transforms.

ghost use Rattle.std.specs.Prelude.{OnOk};
ghost use Rattle.ark_words.specs.Numbers.{AreTransformed, AreTransformedBack};

use ark_words::{WordElement, WordsError, fft, ifft};
use std::alloc::Global;

/// The values of a polynomial in place of its coefficients.
pub fn transformed<F: WordElement>(
    alloc: Global,
    words: &mut [u64],
    offset: &[u64],
) -> Result<(), WordsError>
    ensures { OnOk result (AreTransformed F.spelled words.old offset.now words.new) }
{
    fft::<F>(alloc, words, offset)
}

/// The coefficients of a polynomial in place of its values.
pub fn transformed_back<F: WordElement>(
    alloc: Global,
    words: &mut [u64],
    offset: &[u64],
) -> Result<(), WordsError>
    ensures { OnOk result (AreTransformedBack F.spelled words.old offset.now words.new) }
{
    ifft::<F>(alloc, words, offset)
}
