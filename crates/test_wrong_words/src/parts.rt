//! Calls of transforms in parts.

ghost use Rattle.std.specs.Prelude.{OnOk};
ghost use Rattle.ark_words.specs.Parts.{AreColumnsTransformedBack, AreRowsTransformed};

use ark_words::{WordElement, WordsError, fft_rows, ifft_columns};
use std::alloc::Global;

/// Each row of a block transformed.
pub fn rows<F: WordElement>(
    alloc: Global,
    words: &mut [u64],
    log_rows: u32,
    log_columns: u32,
    first: u64,
    offset: &[u64],
) -> Result<(), WordsError>
    ensures { OnOk result (AreRowsTransformed F.spelled log_rows log_columns first words.old
        offset.now words.new) }
{
    fft_rows::<F>(alloc, words, log_rows, log_columns, first, offset)
}

/// Each column of a block transformed back.
pub fn columns_back<F: WordElement>(
    alloc: Global,
    words: &mut [u64],
    log_rows: u32,
    log_columns: u32,
    offset: &[u64],
) -> Result<(), WordsError>
    ensures { OnOk result (AreColumnsTransformedBack F.spelled log_rows log_columns words.old
        offset.now words.new) }
{
    ifft_columns::<F>(alloc, words, log_rows, log_columns, offset)
}
