//! Transforms in parts, in place: a list of `2^(log_rows + log_columns)` numbers as `2^log_rows` rows of
//! `2^log_columns` numbers each, its columns transformed and then its rows, in blocks of any size and in
//! any order. Item `j` of row `i` is then item `i + 2^log_rows * j` of the list's transform.

ghost use Rattle.std.specs.Prelude.{◌≡◌, ◌≢◌, ◌↔◌, ◌+◌, ◌*◌, ◌/◌, ◌%◌, ◌<◌, ◌≤◌, ◌^◌, map, length};
ghost use Rattle.std.specs.Prelude.{OnOk, OnErr, IfOk, IfErr, IfSome, IsSome, IsTrue};
ghost use Rattle.ark_math.specs.Domain.{IsDomain, radix2};
ghost use Rattle.ark_math.specs.Words.{number_of_words};
ghost use Rattle.ark_fft.specs.Coset.{coset_domain};
ghost use Rattle.ark_words.specs.Faults.{IsFault, IsOfDomains};
ghost use Rattle.ark_words.specs.Numbers.{numbers, HaveReduced};
ghost use Rattle.ark_words.specs.Parts.{FitColumns, FitRows, HaveParts};
ghost use Rattle.ark_words.specs.Parts.{AreColumnsTransformed, AreRowsTransformed};
ghost use Rattle.ark_words.specs.Parts.{AreColumnsTransformedBack, AreRowsTransformedBack};

use crate::element::WordElement;
use crate::error::WordsError;
use crate::lists::refusal;
use crate::scaled::{put_scaled, scaled_elements};
use ark_fft::domain::Coset;
use ark_fft_parts::Parts;
use ark_traits::{FftField, Work};
use std::alloc::Global;

/// Transforms each column of a block of any columns: `words` are `2^log_rows` rows of as many numbers as
/// there are columns. The domain of a column has `2^log_rows` elements, and as offset that of the whole to
/// the power `2^log_columns`. The call takes memory for twice the block, and a column.
///
/// The errors are judged in this order: `Length` where the words aren't whole elements, or those of the
/// offset not one, where the numbers are no multiple of `2^log_rows`, or where `log_rows + log_columns` is
/// 64 or more; `NotReduced` where a number isn't below the modulus; `NoDomain` where no domain of the field
/// has `2^(log_rows + log_columns)` elements, or the offset is zero; `Memory` where none of these holds.
pub fn fft_columns<F: WordElement>(
    alloc: Global,
    words: &mut [u64],
    log_rows: u32,
    log_columns: u32,
    offset: &[u64],
) -> Result<(), WordsError>
    ensures values { OnOk result (AreColumnsTransformed F.spelled log_rows log_columns words.old offset.now
        words.new) }
    ensures kept { OnErr result (words.new ≡ words.old) }
    ensures taken { OnOk result (FitColumns F.spelled log_rows log_columns words.old offset.now
        × HaveReduced F.spelled words.old offset.now × HaveParts F.spelled log_rows log_columns offset.now) }
    ensures length { (result ≡ Err WordsError.Length)
        ↔ (¬ FitColumns F.spelled log_rows log_columns words.old offset.now) }
    ensures not_reduced { (result ≡ Err WordsError.NotReduced)
        ↔ (FitColumns F.spelled log_rows log_columns words.old offset.now
        × (¬ HaveReduced F.spelled words.old offset.now)) }
    ensures no_domain { (result ≡ Err WordsError.NoDomain)
        ↔ (FitColumns F.spelled log_rows log_columns words.old offset.now
        × HaveReduced F.spelled words.old offset.now
        × (¬ HaveParts F.spelled log_rows log_columns offset.now)) }
    ensures no_other { IfErr result IsOfDomains }
{
    let (parts, items) = columns_judged::<F>(alloc, words, log_rows, log_columns, offset)?;
    let count = words.len() / F::WIDTH >> log_rows;
    let Ok(made) = parts.columns(alloc, &items, count, &mut Work::new()) else {
        return Err(WordsError::Memory);
    };
    put_scaled(words, &made);
    Ok(())
}

/// Transforms each row of a block of any rows, of which the first is row `first` of all, after the columns:
/// `words` are rows of `2^log_columns` numbers. The domain of a row has `2^log_columns` elements, and as
/// offset that element of the whole which has the row's number: this makes the twiddles. The call takes
/// memory for twice the block.
///
/// The errors are those of `fft_columns`, in its order, but that `Length` is where the numbers are no
/// multiple of `2^log_columns`, or a row would have the number `2^log_rows` or more.
pub fn fft_rows<F: WordElement>(
    alloc: Global,
    words: &mut [u64],
    log_rows: u32,
    log_columns: u32,
    first: u64,
    offset: &[u64],
) -> Result<(), WordsError>
    ensures values { OnOk result (AreRowsTransformed F.spelled log_rows log_columns first words.old offset.now
        words.new) }
    ensures kept { OnErr result (words.new ≡ words.old) }
    ensures taken { OnOk result (FitRows F.spelled log_rows log_columns first words.old offset.now
        × HaveReduced F.spelled words.old offset.now × HaveParts F.spelled log_rows log_columns offset.now) }
    ensures length { (result ≡ Err WordsError.Length)
        ↔ (¬ FitRows F.spelled log_rows log_columns first words.old offset.now) }
    ensures not_reduced { (result ≡ Err WordsError.NotReduced)
        ↔ (FitRows F.spelled log_rows log_columns first words.old offset.now
        × (¬ HaveReduced F.spelled words.old offset.now)) }
    ensures no_domain { (result ≡ Err WordsError.NoDomain)
        ↔ (FitRows F.spelled log_rows log_columns first words.old offset.now
        × HaveReduced F.spelled words.old offset.now
        × (¬ HaveParts F.spelled log_rows log_columns offset.now)) }
    ensures no_other { IfErr result IsOfDomains }
{
    let (parts, items) = rows_judged::<F>(alloc, words, log_rows, log_columns, first, offset)?;
    let Ok(made) = parts.rows(alloc, &items, first as usize, &mut Work::new()) else {
        return Err(WordsError::Memory);
    };
    put_scaled(words, &made);
    Ok(())
}

/// Takes each row of a block back, where `fft_rows` with the same numbers gives the block.
///
/// The errors are those of `fft_rows`, in its order.
pub fn ifft_rows<F: WordElement>(
    alloc: Global,
    words: &mut [u64],
    log_rows: u32,
    log_columns: u32,
    first: u64,
    offset: &[u64],
) -> Result<(), WordsError>
    ensures coefficients { OnOk result (AreRowsTransformedBack F.spelled log_rows log_columns first words.old
        offset.now words.new) }
    ensures kept { OnErr result (words.new ≡ words.old) }
    ensures taken { OnOk result (FitRows F.spelled log_rows log_columns first words.old offset.now
        × HaveReduced F.spelled words.old offset.now × HaveParts F.spelled log_rows log_columns offset.now) }
    ensures length { (result ≡ Err WordsError.Length)
        ↔ (¬ FitRows F.spelled log_rows log_columns first words.old offset.now) }
    ensures not_reduced { (result ≡ Err WordsError.NotReduced)
        ↔ (FitRows F.spelled log_rows log_columns first words.old offset.now
        × (¬ HaveReduced F.spelled words.old offset.now)) }
    ensures no_domain { (result ≡ Err WordsError.NoDomain)
        ↔ (FitRows F.spelled log_rows log_columns first words.old offset.now
        × HaveReduced F.spelled words.old offset.now
        × (¬ HaveParts F.spelled log_rows log_columns offset.now)) }
    ensures no_other { IfErr result IsOfDomains }
{
    let (parts, items) = rows_judged::<F>(alloc, words, log_rows, log_columns, first, offset)?;
    let Ok(made) = parts.rows_back(alloc, &items, first as usize, &mut Work::new()) else {
        return Err(WordsError::Memory);
    };
    put_scaled(words, &made);
    Ok(())
}

/// Takes each column of a block back, after the rows, where `fft_columns` with the same numbers gives the
/// block.
///
/// The errors are those of `fft_columns`, in its order.
pub fn ifft_columns<F: WordElement>(
    alloc: Global,
    words: &mut [u64],
    log_rows: u32,
    log_columns: u32,
    offset: &[u64],
) -> Result<(), WordsError>
    ensures coefficients { OnOk result (AreColumnsTransformedBack F.spelled log_rows log_columns words.old
        offset.now words.new) }
    ensures kept { OnErr result (words.new ≡ words.old) }
    ensures taken { OnOk result (FitColumns F.spelled log_rows log_columns words.old offset.now
        × HaveReduced F.spelled words.old offset.now × HaveParts F.spelled log_rows log_columns offset.now) }
    ensures length { (result ≡ Err WordsError.Length)
        ↔ (¬ FitColumns F.spelled log_rows log_columns words.old offset.now) }
    ensures not_reduced { (result ≡ Err WordsError.NotReduced)
        ↔ (FitColumns F.spelled log_rows log_columns words.old offset.now
        × (¬ HaveReduced F.spelled words.old offset.now)) }
    ensures no_domain { (result ≡ Err WordsError.NoDomain)
        ↔ (FitColumns F.spelled log_rows log_columns words.old offset.now
        × HaveReduced F.spelled words.old offset.now
        × (¬ HaveParts F.spelled log_rows log_columns offset.now)) }
    ensures no_other { IfErr result IsOfDomains }
{
    let (parts, items) = columns_judged::<F>(alloc, words, log_rows, log_columns, offset)?;
    let count = words.len() / F::WIDTH >> log_rows;
    let Ok(made) = parts.columns_back(alloc, &items, count, &mut Work::new()) else {
        return Err(WordsError::Memory);
    };
    put_scaled(words, &made);
    Ok(())
}

// The parts and the elements of a block of columns, or the first fault.
fn columns_judged<F: WordElement>(
    alloc: Global,
    words: &[u64],
    log_rows: u32,
    log_columns: u32,
    offset: &[u64],
) -> Result<(Parts<F>, Vec<F>), WordsError>
    ensures rows { IfOk result (λ p. p.0.column.size ≡ 2 ^ log_rows) }
    ensures columns { IfOk result (λ p. p.0.row.size ≡ 2 ^ log_columns) }
    ensures lawful { IfOk result (λ p. IsDomain F.field F.adicity F.root (coset_domain radix2 p.0.whole)) }
    ensures offset { IfOk result (λ p. F.numbering.number p.0.whole.offset ≡ number_of_words offset.now) }
    ensures numbers { IfOk result (λ p. map (λ x. F.numbering.number (F.field.times F.unit x)) p.1.items
        ≡ numbers F.WIDTH words.now) }
    ensures taken { OnOk result (FitColumns F.spelled log_rows log_columns words.now offset.now
        × HaveReduced F.spelled words.now offset.now × HaveParts F.spelled log_rows log_columns offset.now) }
    ensures fault { IfErr result (IsFault (FitColumns F.spelled log_rows log_columns words.now offset.now)
        (HaveReduced F.spelled words.now offset.now) (HaveParts F.spelled log_rows log_columns offset.now)) }
{
    let width = F::WIDTH;
    if words.len() % width != 0
        || offset.len() != width
        || log_rows >= 64
        || log_columns >= 64 - log_rows
        || words.len() / width % (1 << log_rows) != 0
    {
        return Err(WordsError::Length);
    }
    judged(alloc, words, log_rows, log_columns, offset)
}

// The same of a block of rows, of which the first has this number.
fn rows_judged<F: WordElement>(
    alloc: Global,
    words: &[u64],
    log_rows: u32,
    log_columns: u32,
    first: u64,
    offset: &[u64],
) -> Result<(Parts<F>, Vec<F>), WordsError>
    ensures rows { IfOk result (λ p. p.0.column.size ≡ 2 ^ log_rows) }
    ensures columns { IfOk result (λ p. p.0.row.size ≡ 2 ^ log_columns) }
    ensures lawful { IfOk result (λ p. IsDomain F.field F.adicity F.root (coset_domain radix2 p.0.whole)) }
    ensures offset { IfOk result (λ p. F.numbering.number p.0.whole.offset ≡ number_of_words offset.now) }
    ensures numbers { IfOk result (λ p. map (λ x. F.numbering.number (F.field.times F.unit x)) p.1.items
        ≡ numbers F.WIDTH words.now) }
    ensures taken { OnOk result (FitRows F.spelled log_rows log_columns first words.now offset.now
        × HaveReduced F.spelled words.now offset.now × HaveParts F.spelled log_rows log_columns offset.now) }
    ensures fault { IfErr result (IsFault (FitRows F.spelled log_rows log_columns first words.now offset.now)
        (HaveReduced F.spelled words.now offset.now) (HaveParts F.spelled log_rows log_columns offset.now)) }
{
    let width = F::WIDTH;
    if words.len() % width != 0
        || offset.len() != width
        || log_rows >= 64
        || log_columns >= 64 - log_rows
        || words.len() / width % (1 << log_columns) != 0
        || !are_rows(words.len() / width >> log_columns, log_rows, first)
    {
        return Err(WordsError::Length);
    }
    judged(alloc, words, log_rows, log_columns, offset)
}

// Whether so many rows from this one on are among all.
fn are_rows(count: usize, log_rows: u32, first: u64) -> bool
    requires { log_rows < 64 }
    ensures { IsTrue result ↔ (first + count ≤ 2 ^ log_rows) }
{
    let all = 1 << log_rows;
    first <= all && count as u64 <= all - first
}

// The parts and the elements of a block whose numbers fit, or the first fault.
fn judged<F: WordElement>(
    alloc: Global,
    words: &[u64],
    log_rows: u32,
    log_columns: u32,
    offset: &[u64],
) -> Result<(Parts<F>, Vec<F>), WordsError>
    requires shape { log_rows + log_columns < 64 }
    requires one { length offset.now ≡ F.WIDTH }
    ensures rows { IfOk result (λ p. p.0.column.size ≡ 2 ^ log_rows) }
    ensures columns { IfOk result (λ p. p.0.row.size ≡ 2 ^ log_columns) }
    ensures lawful { IfOk result (λ p. IsDomain F.field F.adicity F.root (coset_domain radix2 p.0.whole)) }
    ensures offset { IfOk result (λ p. F.numbering.number p.0.whole.offset ≡ number_of_words offset.now) }
    ensures numbers { IfOk result (λ p. map (λ x. F.numbering.number (F.field.times F.unit x)) p.1.items
        ≡ numbers F.WIDTH words.now) }
    ensures taken { OnOk result (HaveReduced F.spelled words.now offset.now
        × HaveParts F.spelled log_rows log_columns offset.now) }
    ensures fault { IfErr result (IsFault (Unit {0}) (HaveReduced F.spelled words.now offset.now)
        (HaveParts F.spelled log_rows log_columns offset.now)) }
{
    let Some(offset) = F::from_words(offset) else {
        return Err(WordsError::NotReduced);
    };
    let Some(parts) = parts_of(log_rows, log_columns, offset) else {
        return Err(refusal::<F>(words, WordsError::NoDomain));
    };
    Ok((parts, scaled_elements(alloc, words)?))
}

// The parts of the domain of `2^(log_rows + log_columns)` elements with this offset, and `None` exactly
// where the field has none or the offset is zero.
fn parts_of<F: FftField>(log_rows: u32, log_columns: u32, offset: F) -> Option<Parts<F>>
    requires { log_rows + log_columns < 64 }
    ensures rows { IfSome result (λ p. p.column.size ≡ 2 ^ log_rows) }
    ensures columns { IfSome result (λ p. p.row.size ≡ 2 ^ log_columns) }
    ensures lawful { IfSome result (λ p. IsDomain F.field F.adicity F.root (coset_domain radix2 p.whole)) }
    ensures offset { IfSome result (λ p. p.whole.offset ≡ offset) }
    ensures some { IsSome result ↔ ((log_rows + log_columns ≤ F.adicity.two) × (offset ≢ F.field.zero)) }
{
    let log_size = log_rows + log_columns;
    if log_size > F::TWO_ADICITY {
        return None;
    }
    let whole = Coset::subgroup(1 << log_size, log_size, 0).with_offset(offset)?;
    Parts::new(&whole, log_rows)
}
