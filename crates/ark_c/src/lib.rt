//! Calls for programs in C, and in every language that calls C: those of `ark_words`, over the field that a
//! number names, and those over pieces of files. `ark_poly.h` says the same of each in C.
#![tactic(auto)]

ghost use Rattle.std.specs.Prelude.{◌≡◌, ◌≢◌, ◌↔◌, ◌⊎◌, ◌≤◌, IsNone, IsSomeAnd, IfSome, MatchOption, length};
ghost use Rattle.ark_math.specs.Domain.{Kind, HasNoSize};
ghost use Rattle.ark_numbers.specs.Answers.{IsChosen};
ghost use Rattle.ark_words.specs.Numbers.{HaveLengths, HaveReduced, HaveDomain, AreTransformable};
ghost use Rattle.ark_words.specs.Numbers.{AreTransformed, AreTransformedBack};
ghost use Rattle.ark_words.specs.Numbers.{FitValues, BothReduced, AreEvaluated};
ghost use Rattle.ark_words.specs.Numbers.{AreReduced};
ghost use Rattle.ark_words.specs.Interpolations.{FitInterpolation, ArePointsDifferent, HasEqualPoints};
ghost use Rattle.ark_words.specs.Interpolations.{AreInterpolating};
ghost use Rattle.ark_words.specs.Codes.{FitCode, HasCodeFor, IsEncodable, IsEncoded, IsExtendedToCodeword};
ghost use Rattle.ark_words.specs.Products.{FitProduct, AreMultiplied};
ghost use Rattle.ark_words.specs.Products.{FitQuotient, AreZeros, IsDivisible, AreDivided};
ghost use Rattle.ark_words.specs.Codes.{FitWords, HasCode, HaveCodewords, AreRestored, left_count};
ghost use Rattle.ark_words.specs.Codes.{FitMessages, AreFound, message_size};
ghost use Rattle.ark_c.specs.Names.{field_named};
ghost use Rattle.ark_words.specs.Extensions.{FitExtended, IsExtended, FitFixed, AreFixed};
ghost use Rattle.ark_words.specs.Extensions.{FitSparse, IsExtendedByEntries};
ghost use Rattle.ark_words.specs.Parts.{FitColumns, FitRows, HaveParts};
ghost use Rattle.ark_words.specs.Parts.{AreColumnsTransformed, AreRowsTransformed};
ghost use Rattle.ark_words.specs.Parts.{AreColumnsTransformedBack, AreRowsTransformedBack};
ghost use Rattle.ark_words.specs.Values.{FitPairs, AreProducts};
ghost use Rattle.ark_words.specs.Weights.{FitWeights, ArePlaced, AreLagrange};

pub mod fields;
mod pieces;
mod status;
mod sums;

use ark_fields::{BabyBear, F5, F433, F65537, Goldilocks, KoalaBear};
use ark_prime256::{Bls12_381Scalar, Bn254Scalar};
use ark_words::{
    divide, domain_size, encode, encode_systematic, evaluate, fft, fft_columns, fft_rows, ifft,
    ifft_columns, ifft_rows, interpolate, lagrange, message, multilinear_evaluate,
    multilinear_evaluate_sparse, multilinear_fix, multiply, multiply_values, restore, width,
};
pub use pieces::{ark_file_size, ark_join, ark_piece_size, ark_split};
use status::status;
use std::alloc::Global;
pub use sums::{
    ark_challenge_words, ark_sum_proof_size, ark_sum_prove, ark_sum_value, ark_sum_verify,
};

/// What a call gives over the field that a number names, and `None` where it names none.
macro_rules! over_field {
    ($field:expr, $call:ident($($argument:expr),*)) => {
        match $field {
            5 => Some($call::<F5>($($argument),*)),
            433 => Some($call::<F433>($($argument),*)),
            65537 => Some($call::<F65537>($($argument),*)),
            2013265921 => Some($call::<BabyBear>($($argument),*)),
            2130706433 => Some($call::<KoalaBear>($($argument),*)),
            18446744069414584321 => Some($call::<Goldilocks>($($argument),*)),
            254 => Some($call::<Bn254Scalar>($($argument),*)),
            12381 => Some($call::<Bls12_381Scalar>($($argument),*)),
            _ => None,
        }
    };
}

/// The version, a byte for each of its three numbers: 0x000500 for 0.5.0.
#[unsafe(no_mangle)]
pub extern "C" fn ark_version() -> u32
    ensures { result ≡ 1280 }
{
    0x000500
}

/// How many words spell an element of the field, and 0 where the number names no field.
#[unsafe(no_mangle)]
pub extern "C" fn ark_words(field: u64) -> usize
    ensures { MatchOption (field_named field) (result ≡ 0) (λ f. result ≡ f.width) }
{
    over_field!(field, width()).unwrap_or(0)
}

/// Writes the size of the domain for so many coefficients: the least power of two at or above it where the
/// field has one, and otherwise the least mixed size.
#[unsafe(no_mangle)]
pub extern "C" fn ark_domain_size(field: u64, at_least: u64, size: &mut u64) -> u32
    ensures size { result ≡ 0 → IsSomeAnd (field_named field) (λ f.
        (kind : Kind) × IsChosen f.known.adicity at_least kind size.new) }
    ensures kept { result ≢ 0 → size.new ≡ size.old }
    ensures no_field { (result ≡ 2) ↔ IsNone (field_named field) }
    ensures no_domain { (result ≡ 5) ↔ IsSomeAnd (field_named field) (λ f.
        HasNoSize (IsChosen f.known.adicity) at_least) }
    ensures no_other { (result ≡ 0) ⊎ (result ≡ 2) ⊎ (result ≡ 5) }
{
    status(over_field!(field, domain_size(at_least, size)))
}

/// The values of a polynomial in place of its coefficients: where the words spell `n` numbers, at the `n`
/// elements of the domain of exactly that size with this offset, which is one number.
#[unsafe(no_mangle)]
pub extern "C" fn ark_fft(alloc: Global, field: u64, words: &mut [u64], offset: &[u64]) -> u32
    ensures values { result ≡ 0 → IsSomeAnd (field_named field) (λ f.
        AreTransformed f words.old offset.now words.new) }
    ensures kept { result ≢ 0 → words.new ≡ words.old }
    ensures taken { result ≡ 0 → IsSomeAnd (field_named field) (λ f.
        AreTransformable f words.old offset.now) }
    ensures no_field { (result ≡ 2) ↔ IsNone (field_named field) }
    ensures length { (result ≡ 3) ↔ IsSomeAnd (field_named field) (λ f.
        ¬ HaveLengths f words.old offset.now) }
    ensures not_reduced { (result ≡ 4) ↔ IsSomeAnd (field_named field) (λ f.
        HaveLengths f words.old offset.now × (¬ HaveReduced f words.old offset.now)) }
    ensures no_domain { (result ≡ 5) ↔ IsSomeAnd (field_named field) (λ f.
        HaveLengths f words.old offset.now × HaveReduced f words.old offset.now
        × (¬ HaveDomain f words.old offset.now)) }
    ensures no_other { result ≤ 5 }
{
    status(over_field!(field, fft(alloc, words, offset)))
}

/// The coefficients of a polynomial in place of its values, which `ark_fft` takes back to these.
#[unsafe(no_mangle)]
pub extern "C" fn ark_ifft(alloc: Global, field: u64, words: &mut [u64], offset: &[u64]) -> u32
    ensures coefficients { result ≡ 0 → IsSomeAnd (field_named field) (λ f.
        AreTransformedBack f words.old offset.now words.new) }
    ensures kept { result ≢ 0 → words.new ≡ words.old }
    ensures taken { result ≡ 0 → IsSomeAnd (field_named field) (λ f.
        AreTransformable f words.old offset.now) }
    ensures no_field { (result ≡ 2) ↔ IsNone (field_named field) }
    ensures length { (result ≡ 3) ↔ IsSomeAnd (field_named field) (λ f.
        ¬ HaveLengths f words.old offset.now) }
    ensures not_reduced { (result ≡ 4) ↔ IsSomeAnd (field_named field) (λ f.
        HaveLengths f words.old offset.now × (¬ HaveReduced f words.old offset.now)) }
    ensures no_domain { (result ≡ 5) ↔ IsSomeAnd (field_named field) (λ f.
        HaveLengths f words.old offset.now × HaveReduced f words.old offset.now
        × (¬ HaveDomain f words.old offset.now)) }
    ensures no_other { result ≤ 5 }
{
    status(over_field!(field, ifft(alloc, words, offset)))
}

/// A transform in parts, first the columns: a list of `2^(log_rows + log_columns)` numbers is read as
/// `2^log_rows` rows of `2^log_columns` numbers each. Each column of a block of any columns, as so many
/// rows, becomes its values over the domain of `2^log_rows` elements whose offset is that of the whole to
/// the power `2^log_columns`.
#[unsafe(no_mangle)]
pub extern "C" fn ark_fft_columns(
    alloc: Global,
    field: u64,
    words: &mut [u64],
    log_rows: u32,
    log_columns: u32,
    offset: &[u64],
) -> u32
    ensures values { result ≡ 0 → IsSomeAnd (field_named field) (λ f.
        AreColumnsTransformed f log_rows log_columns words.old offset.now words.new) }
    ensures kept { result ≢ 0 → words.new ≡ words.old }
    ensures taken { result ≡ 0 → IsSomeAnd (field_named field) (λ f.
        FitColumns f log_rows log_columns words.old offset.now × HaveReduced f words.old offset.now
        × HaveParts f log_rows log_columns offset.now) }
    ensures no_field { (result ≡ 2) ↔ IsNone (field_named field) }
    ensures length { (result ≡ 3) ↔ IsSomeAnd (field_named field) (λ f.
        ¬ FitColumns f log_rows log_columns words.old offset.now) }
    ensures not_reduced { (result ≡ 4) ↔ IsSomeAnd (field_named field) (λ f.
        FitColumns f log_rows log_columns words.old offset.now
        × (¬ HaveReduced f words.old offset.now)) }
    ensures no_domain { (result ≡ 5) ↔ IsSomeAnd (field_named field) (λ f.
        FitColumns f log_rows log_columns words.old offset.now × HaveReduced f words.old offset.now
        × (¬ HaveParts f log_rows log_columns offset.now)) }
    ensures no_other { result ≤ 5 }
{
    status(over_field!(
        field,
        fft_columns(alloc, words, log_rows, log_columns, offset)
    ))
}

/// Then the rows: each row of a block of any whole rows, of which the first is row `first` of all, becomes
/// its values over the domain of `2^log_columns` elements whose offset is that element of the whole domain
/// which has the row's number. Item `j` of row `i` is then item `i + 2^log_rows * j` of `ark_fft` of the
/// whole list.
#[unsafe(no_mangle)]
pub extern "C" fn ark_fft_rows(
    alloc: Global,
    field: u64,
    words: &mut [u64],
    log_rows: u32,
    log_columns: u32,
    first: u64,
    offset: &[u64],
) -> u32
    ensures values { result ≡ 0 → IsSomeAnd (field_named field) (λ f.
        AreRowsTransformed f log_rows log_columns first words.old offset.now words.new) }
    ensures kept { result ≢ 0 → words.new ≡ words.old }
    ensures taken { result ≡ 0 → IsSomeAnd (field_named field) (λ f.
        FitRows f log_rows log_columns first words.old offset.now × HaveReduced f words.old offset.now
        × HaveParts f log_rows log_columns offset.now) }
    ensures no_field { (result ≡ 2) ↔ IsNone (field_named field) }
    ensures length { (result ≡ 3) ↔ IsSomeAnd (field_named field) (λ f.
        ¬ FitRows f log_rows log_columns first words.old offset.now) }
    ensures not_reduced { (result ≡ 4) ↔ IsSomeAnd (field_named field) (λ f.
        FitRows f log_rows log_columns first words.old offset.now
        × (¬ HaveReduced f words.old offset.now)) }
    ensures no_domain { (result ≡ 5) ↔ IsSomeAnd (field_named field) (λ f.
        FitRows f log_rows log_columns first words.old offset.now × HaveReduced f words.old offset.now
        × (¬ HaveParts f log_rows log_columns offset.now)) }
    ensures no_other { result ≤ 5 }
{
    status(over_field!(
        field,
        fft_rows(alloc, words, log_rows, log_columns, first, offset)
    ))
}

/// Takes the rows of a block back, which `ark_fft_rows` with the same numbers takes to these.
#[unsafe(no_mangle)]
pub extern "C" fn ark_ifft_rows(
    alloc: Global,
    field: u64,
    words: &mut [u64],
    log_rows: u32,
    log_columns: u32,
    first: u64,
    offset: &[u64],
) -> u32
    ensures coefficients { result ≡ 0 → IsSomeAnd (field_named field) (λ f.
        AreRowsTransformedBack f log_rows log_columns first words.old offset.now words.new) }
    ensures kept { result ≢ 0 → words.new ≡ words.old }
    ensures taken { result ≡ 0 → IsSomeAnd (field_named field) (λ f.
        FitRows f log_rows log_columns first words.old offset.now × HaveReduced f words.old offset.now
        × HaveParts f log_rows log_columns offset.now) }
    ensures no_field { (result ≡ 2) ↔ IsNone (field_named field) }
    ensures length { (result ≡ 3) ↔ IsSomeAnd (field_named field) (λ f.
        ¬ FitRows f log_rows log_columns first words.old offset.now) }
    ensures not_reduced { (result ≡ 4) ↔ IsSomeAnd (field_named field) (λ f.
        FitRows f log_rows log_columns first words.old offset.now
        × (¬ HaveReduced f words.old offset.now)) }
    ensures no_domain { (result ≡ 5) ↔ IsSomeAnd (field_named field) (λ f.
        FitRows f log_rows log_columns first words.old offset.now × HaveReduced f words.old offset.now
        × (¬ HaveParts f log_rows log_columns offset.now)) }
    ensures no_other { result ≤ 5 }
{
    status(over_field!(
        field,
        ifft_rows(alloc, words, log_rows, log_columns, first, offset)
    ))
}

/// Takes the columns of a block back, after the rows, which `ark_fft_columns` with the same numbers takes
/// to these.
#[unsafe(no_mangle)]
pub extern "C" fn ark_ifft_columns(
    alloc: Global,
    field: u64,
    words: &mut [u64],
    log_rows: u32,
    log_columns: u32,
    offset: &[u64],
) -> u32
    ensures coefficients { result ≡ 0 → IsSomeAnd (field_named field) (λ f.
        AreColumnsTransformedBack f log_rows log_columns words.old offset.now words.new) }
    ensures kept { result ≢ 0 → words.new ≡ words.old }
    ensures taken { result ≡ 0 → IsSomeAnd (field_named field) (λ f.
        FitColumns f log_rows log_columns words.old offset.now × HaveReduced f words.old offset.now
        × HaveParts f log_rows log_columns offset.now) }
    ensures no_field { (result ≡ 2) ↔ IsNone (field_named field) }
    ensures length { (result ≡ 3) ↔ IsSomeAnd (field_named field) (λ f.
        ¬ FitColumns f log_rows log_columns words.old offset.now) }
    ensures not_reduced { (result ≡ 4) ↔ IsSomeAnd (field_named field) (λ f.
        FitColumns f log_rows log_columns words.old offset.now
        × (¬ HaveReduced f words.old offset.now)) }
    ensures no_domain { (result ≡ 5) ↔ IsSomeAnd (field_named field) (λ f.
        FitColumns f log_rows log_columns words.old offset.now × HaveReduced f words.old offset.now
        × (¬ HaveParts f log_rows log_columns offset.now)) }
    ensures no_other { result ≤ 5 }
{
    status(over_field!(
        field,
        ifft_columns(alloc, words, log_rows, log_columns, offset)
    ))
}

/// The values at points, in their order, of the polynomial with these coefficients, the lowest first: there
/// are as many values as points, one or many.
#[unsafe(no_mangle)]
pub extern "C" fn ark_evaluate(
    alloc: Global,
    field: u64,
    coefficients: &[u64],
    points: &[u64],
    values: &mut [u64],
) -> u32
    ensures values { result ≡ 0 → IsSomeAnd (field_named field) (λ f.
        AreEvaluated f coefficients.now points.now values.new) }
    ensures kept { result ≢ 0 → values.new ≡ values.old }
    ensures taken { result ≡ 0 → IsSomeAnd (field_named field) (λ f.
        FitValues f coefficients.now points.now values.old × BothReduced f coefficients.now points.now) }
    ensures no_field { (result ≡ 2) ↔ IsNone (field_named field) }
    ensures length { (result ≡ 3) ↔ IsSomeAnd (field_named field) (λ f.
        ¬ FitValues f coefficients.now points.now values.old) }
    ensures not_reduced { (result ≡ 4) ↔ IsSomeAnd (field_named field) (λ f.
        FitValues f coefficients.now points.now values.old
        × (¬ BothReduced f coefficients.now points.now)) }
    ensures no_other { result ≤ 4 }
{
    status(over_field!(field, evaluate(alloc, coefficients, points, values)))
}

/// Writes the codeword of a message: where there is room for `n` numbers, the values of the polynomial with
/// these coefficients at the `n` elements of the domain of exactly that size with offset 1.
#[unsafe(no_mangle)]
pub extern "C" fn ark_code_encode(
    alloc: Global,
    field: u64,
    message: &[u64],
    word: &mut [u64],
) -> u32
    ensures codeword { result ≡ 0 → IsSomeAnd (field_named field) (λ f.
        IsEncoded f message.now word.new) }
    ensures kept { result ≢ 0 → word.new ≡ word.old }
    ensures taken { result ≡ 0 → IsSomeAnd (field_named field) (λ f.
        IsEncodable f message.now word.old) }
    ensures no_field { (result ≡ 2) ↔ IsNone (field_named field) }
    ensures length { (result ≡ 3) ↔ IsSomeAnd (field_named field) (λ f.
        ¬ FitCode f message.now word.old) }
    ensures not_reduced { (result ≡ 4) ↔ IsSomeAnd (field_named field) (λ f.
        FitCode f message.now word.old × (¬ AreReduced f message.now)) }
    ensures no_domain { (result ≡ 5) ↔ IsSomeAnd (field_named field) (λ f.
        FitCode f message.now word.old × AreReduced f message.now × (¬ HasCodeFor f word.old)) }
    ensures no_other { result ≤ 5 }
{
    status(over_field!(field, encode(alloc, message, word)))
}

/// Writes the only codeword that begins with a message of `k` numbers, where there is room for `n`: the code
/// in systematic form.
#[unsafe(no_mangle)]
pub extern "C" fn ark_code_encode_systematic(
    alloc: Global,
    field: u64,
    message: &[u64],
    word: &mut [u64],
) -> u32
    ensures codeword { result ≡ 0 → IsSomeAnd (field_named field) (λ f.
        IsExtendedToCodeword f message.now word.new) }
    ensures kept { result ≢ 0 → word.new ≡ word.old }
    ensures taken { result ≡ 0 → IsSomeAnd (field_named field) (λ f.
        IsEncodable f message.now word.old) }
    ensures no_field { (result ≡ 2) ↔ IsNone (field_named field) }
    ensures length { (result ≡ 3) ↔ IsSomeAnd (field_named field) (λ f.
        ¬ FitCode f message.now word.old) }
    ensures not_reduced { (result ≡ 4) ↔ IsSomeAnd (field_named field) (λ f.
        FitCode f message.now word.old × (¬ AreReduced f message.now)) }
    ensures no_domain { (result ≡ 5) ↔ IsSomeAnd (field_named field) (λ f.
        FitCode f message.now word.old × AreReduced f message.now × (¬ HasCodeFor f word.old)) }
    ensures no_other { result ≤ 5 }
{
    status(over_field!(field, encode_systematic(alloc, message, word)))
}

/// The coefficients of the product of two polynomials, the lowest first, and zeros in what is left: there is
/// room where both factors together have at most one number more than the product.
#[unsafe(no_mangle)]
pub extern "C" fn ark_multiply(
    alloc: Global,
    field: u64,
    left: &[u64],
    right: &[u64],
    product: &mut [u64],
) -> u32
    ensures product { result ≡ 0 → IsSomeAnd (field_named field) (λ f.
        AreMultiplied f left.now right.now product.new) }
    ensures kept { result ≢ 0 → product.new ≡ product.old }
    ensures taken { result ≡ 0 → IsSomeAnd (field_named field) (λ f.
        FitProduct f left.now right.now product.old × BothReduced f left.now right.now) }
    ensures no_field { (result ≡ 2) ↔ IsNone (field_named field) }
    ensures length { (result ≡ 3) ↔ IsSomeAnd (field_named field) (λ f.
        ¬ FitProduct f left.now right.now product.old) }
    ensures not_reduced { (result ≡ 4) ↔ IsSomeAnd (field_named field) (λ f.
        FitProduct f left.now right.now product.old × (¬ BothReduced f left.now right.now)) }
    ensures no_other { result ≤ 4 }
{
    status(over_field!(field, multiply(alloc, left, right, product)))
}

/// Multiplies each number by the number at the same place of another list: where both hold values of
/// polynomials at the same points, in whatever order, these are the values of the product.
#[unsafe(no_mangle)]
pub extern "C" fn ark_multiply_values(
    alloc: Global,
    field: u64,
    values: &mut [u64],
    others: &[u64],
) -> u32
    ensures products { result ≡ 0 → IsSomeAnd (field_named field) (λ f.
        AreProducts f values.old others.now values.new) }
    ensures kept { result ≢ 0 → values.new ≡ values.old }
    ensures taken { result ≡ 0 → IsSomeAnd (field_named field) (λ f.
        FitPairs f values.old others.now × BothReduced f values.old others.now) }
    ensures no_field { (result ≡ 2) ↔ IsNone (field_named field) }
    ensures length { (result ≡ 3) ↔ IsSomeAnd (field_named field) (λ f. ¬ FitPairs f values.old others.now) }
    ensures not_reduced { (result ≡ 4) ↔ IsSomeAnd (field_named field) (λ f.
        FitPairs f values.old others.now × (¬ BothReduced f values.old others.now)) }
    ensures no_other { result ≤ 4 }
{
    status(over_field!(field, multiply_values(alloc, values, others)))
}

/// Writes the value at a point of `m` numbers of the only multilinear polynomial in `m` variables with these
/// `2^m` values at the corners: place `i` has the value at the corner whose variable `j` is bit `j` of `i`.
#[unsafe(no_mangle)]
pub extern "C" fn ark_multilinear_evaluate(
    alloc: Global,
    field: u64,
    table: &[u64],
    point: &[u64],
    extended: &mut [u64],
) -> u32
    ensures value { result ≡ 0 → IsSomeAnd (field_named field) (λ f.
        IsExtended f table.now point.now extended.new) }
    ensures kept { result ≢ 0 → extended.new ≡ extended.old }
    ensures taken { result ≡ 0 → IsSomeAnd (field_named field) (λ f.
        FitExtended f table.now point.now extended.old × BothReduced f table.now point.now) }
    ensures no_field { (result ≡ 2) ↔ IsNone (field_named field) }
    ensures length { (result ≡ 3) ↔ IsSomeAnd (field_named field) (λ f.
        ¬ FitExtended f table.now point.now extended.old) }
    ensures not_reduced { (result ≡ 4) ↔ IsSomeAnd (field_named field) (λ f.
        FitExtended f table.now point.now extended.old × (¬ BothReduced f table.now point.now)) }
    ensures no_other { result ≤ 4 }
{
    status(over_field!(field, multilinear_evaluate(alloc, table, point, extended)))
}

/// Writes the value at a point of `m` numbers, `m` at most 63, of the multilinear polynomial whose value at
/// the corner of each index is given, and zero at all others. The last value of an index counts.
#[unsafe(no_mangle)]
pub extern "C" fn ark_multilinear_evaluate_sparse(
    alloc: Global,
    field: u64,
    indices: &[u64],
    values: &[u64],
    point: &[u64],
    extended: &mut [u64],
) -> u32
    ensures value { result ≡ 0 → IsSomeAnd (field_named field) (λ f.
        IsExtendedByEntries f indices.now values.now point.now extended.new) }
    ensures kept { result ≢ 0 → extended.new ≡ extended.old }
    ensures taken { result ≡ 0 → IsSomeAnd (field_named field) (λ f.
        FitSparse f indices.now values.now point.now extended.old × BothReduced f values.now point.now) }
    ensures no_field { (result ≡ 2) ↔ IsNone (field_named field) }
    ensures length { (result ≡ 3) ↔ IsSomeAnd (field_named field) (λ f.
        ¬ FitSparse f indices.now values.now point.now extended.old) }
    ensures not_reduced { (result ≡ 4) ↔ IsSomeAnd (field_named field) (λ f.
        FitSparse f indices.now values.now point.now extended.old
        × (¬ BothReduced f values.now point.now)) }
    ensures no_other { result ≤ 4 }
{
    status(over_field!(
        field,
        multilinear_evaluate_sparse(alloc, indices, values, point, extended)
    ))
}

/// Binds the first variables to the `k` numbers of the point, and writes the table, of `2^(m - k)` numbers,
/// of the polynomial in the other variables, of which the first is then variable 0.
#[unsafe(no_mangle)]
pub extern "C" fn ark_multilinear_fix(
    alloc: Global,
    field: u64,
    table: &[u64],
    point: &[u64],
    fixed: &mut [u64],
) -> u32
    ensures table { result ≡ 0 → IsSomeAnd (field_named field) (λ f.
        AreFixed f table.now point.now fixed.new) }
    ensures kept { result ≢ 0 → fixed.new ≡ fixed.old }
    ensures taken { result ≡ 0 → IsSomeAnd (field_named field) (λ f.
        FitFixed f table.now point.now fixed.old × BothReduced f table.now point.now) }
    ensures no_field { (result ≡ 2) ↔ IsNone (field_named field) }
    ensures length { (result ≡ 3) ↔ IsSomeAnd (field_named field) (λ f.
        ¬ FitFixed f table.now point.now fixed.old) }
    ensures not_reduced { (result ≡ 4) ↔ IsSomeAnd (field_named field) (λ f.
        FitFixed f table.now point.now fixed.old × (¬ BothReduced f table.now point.now)) }
    ensures no_other { result ≤ 4 }
{
    status(over_field!(field, multilinear_fix(alloc, table, point, fixed)))
}

/// The coefficients of the only quotient and remainder of a polynomial by another, the lowest first, and
/// zeros in what is left: the quotient is as long as the dividend, the remainder as long as the divisor.
#[unsafe(no_mangle)]
pub extern "C" fn ark_divide(
    alloc: Global,
    field: u64,
    dividend: &[u64],
    divisor: &[u64],
    quotient: &mut [u64],
    remainder: &mut [u64],
) -> u32
    ensures quotient { result ≡ 0 → IsSomeAnd (field_named field) (λ f.
        AreDivided f dividend.now divisor.now quotient.new remainder.new) }
    ensures kept { result ≢ 0 → (quotient.new ≡ quotient.old) × (remainder.new ≡ remainder.old) }
    ensures taken { result ≡ 0 → IsSomeAnd (field_named field) (λ f.
        IsDivisible f dividend.now divisor.now quotient.old remainder.old) }
    ensures no_field { (result ≡ 2) ↔ IsNone (field_named field) }
    ensures length { (result ≡ 3) ↔ IsSomeAnd (field_named field) (λ f.
        ¬ FitQuotient f dividend.now divisor.now quotient.old remainder.old) }
    ensures not_reduced { (result ≡ 4) ↔ IsSomeAnd (field_named field) (λ f.
        FitQuotient f dividend.now divisor.now quotient.old remainder.old
        × (¬ BothReduced f dividend.now divisor.now)) }
    ensures zero_divisor { (result ≡ 6) ↔ IsSomeAnd (field_named field) (λ f.
        FitQuotient f dividend.now divisor.now quotient.old remainder.old
        × BothReduced f dividend.now divisor.now × AreZeros f divisor.now) }
    ensures no_other { (result ≤ 6) × (result ≢ 5) }
{
    status(over_field!(field, divide(alloc, dividend, divisor, quotient, remainder)))
}

/// The only `n` coefficients, the lowest first, of a polynomial below degree `n` that has these `n` values at
/// these `n` points.
#[unsafe(no_mangle)]
pub extern "C" fn ark_interpolate(
    alloc: Global,
    field: u64,
    points: &[u64],
    values: &[u64],
    coefficients: &mut [u64],
) -> u32
    ensures coefficients { result ≡ 0 → IsSomeAnd (field_named field) (λ f.
        AreInterpolating f points.now values.now coefficients.new) }
    ensures kept { result ≢ 0 → coefficients.new ≡ coefficients.old }
    ensures taken { result ≡ 0 → IsSomeAnd (field_named field) (λ f.
        FitInterpolation f points.now values.now coefficients.old × BothReduced f points.now values.now
        × ArePointsDifferent f points.now) }
    ensures no_field { (result ≡ 2) ↔ IsNone (field_named field) }
    ensures length { (result ≡ 3) ↔ IsSomeAnd (field_named field) (λ f.
        ¬ FitInterpolation f points.now values.now coefficients.old) }
    ensures not_reduced { (result ≡ 4) ↔ IsSomeAnd (field_named field) (λ f.
        FitInterpolation f points.now values.now coefficients.old
        × (¬ BothReduced f points.now values.now)) }
    ensures equal_points { (result ≡ 7) ↔ IsSomeAnd (field_named field) (λ f.
        FitInterpolation f points.now values.now coefficients.old
        × BothReduced f points.now values.now × HasEqualPoints f points.now) }
    ensures no_other { (result ≤ 7) × (result ≢ 5) × (result ≢ 6) }
{
    status(over_field!(field, interpolate(alloc, points, values, coefficients)))
}

/// Writes the `n` weights by which the values at the `n` elements of the domain of exactly that size with
/// this offset give the value at the point, for each polynomial below degree `n`. The point may be one of
/// the domain.
#[unsafe(no_mangle)]
pub extern "C" fn ark_lagrange(
    alloc: Global,
    field: u64,
    offset: &[u64],
    point: &[u64],
    weights: &mut [u64],
) -> u32
    ensures weights { result ≡ 0 → IsSomeAnd (field_named field) (λ f.
        AreLagrange f offset.now point.now weights.new) }
    ensures kept { result ≢ 0 → weights.new ≡ weights.old }
    ensures taken { result ≡ 0 → IsSomeAnd (field_named field) (λ f.
        FitWeights f offset.now point.now weights.old × ArePlaced f offset.now point.now
        × HaveDomain f weights.old offset.now) }
    ensures no_field { (result ≡ 2) ↔ IsNone (field_named field) }
    ensures length { (result ≡ 3) ↔ IsSomeAnd (field_named field) (λ f.
        ¬ FitWeights f offset.now point.now weights.old) }
    ensures not_reduced { (result ≡ 4) ↔ IsSomeAnd (field_named field) (λ f.
        FitWeights f offset.now point.now weights.old × (¬ ArePlaced f offset.now point.now)) }
    ensures no_domain { (result ≡ 5) ↔ IsSomeAnd (field_named field) (λ f.
        FitWeights f offset.now point.now weights.old × ArePlaced f offset.now point.now
        × (¬ HaveDomain f weights.old offset.now)) }
    ensures no_other { result ≤ 5 }
{
    status(over_field!(field, lagrange(alloc, offset, point, weights)))
}

/// Puts in place of each word the only codeword that has what is left of it: the words have `n` numbers each
/// and stand one after another, and a place of which the byte of `erased` isn't 0 is lost in every word. A
/// codeword is that of a message of `k` numbers.
#[unsafe(no_mangle)]
pub extern "C" fn ark_code_restore(
    alloc: Global,
    field: u64,
    words: &mut [u64],
    erased: &[u8],
    k: u64,
) -> u32
    ensures restored { result ≡ 0 → IsSomeAnd (field_named field) (λ f.
        AreRestored f words.old erased.now k words.new) }
    ensures kept { result ≢ 0 → words.new ≡ words.old }
    ensures taken { result ≡ 0 → IsSomeAnd (field_named field) (λ f. FitWords f words.old erased.now k
        × AreReduced f words.old × HasCode f (length erased.now) × (k ≤ left_count erased.now)) }
    ensures no_field { (result ≡ 2) ↔ IsNone (field_named field) }
    ensures length { (result ≡ 3) ↔ IsSomeAnd (field_named field) (λ f.
        ¬ FitWords f words.old erased.now k) }
    ensures not_reduced { (result ≡ 4) ↔ IsSomeAnd (field_named field) (λ f.
        FitWords f words.old erased.now k × (¬ AreReduced f words.old)) }
    ensures no_domain { (result ≡ 5) ↔ IsSomeAnd (field_named field) (λ f.
        FitWords f words.old erased.now k × AreReduced f words.old × (¬ HasCode f (length erased.now))) }
    ensures too_few { (result ≡ 8) ↔ IsSomeAnd (field_named field) (λ f.
        FitWords f words.old erased.now k × AreReduced f words.old × HasCode f (length erased.now)
        × (¬ (k ≤ left_count erased.now))) }
    ensures no_codeword { result ≡ 9 → IsSomeAnd (field_named field) (λ f.
        FitWords f words.old erased.now k × AreReduced f words.old × HasCode f (length erased.now)
        × (k ≤ left_count erased.now) × (¬ HaveCodewords f words.old erased.now k)) }
    ensures no_other { (result ≤ 9) × (result ≢ 6) × (result ≢ 7) }
{
    status(over_field!(field, restore(alloc, words, erased, k)))
}

/// Writes the messages of words, of `k` numbers each, one after another: each is the only one whose codeword
/// has what is left of its word. The words have `n` numbers each and stand one after another, and a place of
/// which the byte of `erased` isn't 0 is lost in every word. `k` is how many numbers `messages` has room for,
/// over how many words there are.
#[unsafe(no_mangle)]
pub extern "C" fn ark_code_message(
    alloc: Global,
    field: u64,
    words: &[u64],
    erased: &[u8],
    messages: &mut [u64],
) -> u32
    ensures found { result ≡ 0 → IsSomeAnd (field_named field) (λ f.
        AreFound f words.now erased.now (message_size f words.now erased.now messages.old) messages.new) }
    ensures kept { result ≢ 0 → messages.new ≡ messages.old }
    ensures taken { result ≡ 0 → IsSomeAnd (field_named field) (λ f.
        FitMessages f words.now erased.now messages.old × AreReduced f words.now
        × HasCode f (length erased.now)
        × (message_size f words.now erased.now messages.old ≤ left_count erased.now)) }
    ensures no_field { (result ≡ 2) ↔ IsNone (field_named field) }
    ensures length { (result ≡ 3) ↔ IsSomeAnd (field_named field) (λ f.
        ¬ FitMessages f words.now erased.now messages.old) }
    ensures not_reduced { (result ≡ 4) ↔ IsSomeAnd (field_named field) (λ f.
        FitMessages f words.now erased.now messages.old × (¬ AreReduced f words.now)) }
    ensures no_domain { (result ≡ 5) ↔ IsSomeAnd (field_named field) (λ f.
        FitMessages f words.now erased.now messages.old × AreReduced f words.now
        × (¬ HasCode f (length erased.now))) }
    ensures too_few { (result ≡ 8) ↔ IsSomeAnd (field_named field) (λ f.
        FitMessages f words.now erased.now messages.old × AreReduced f words.now
        × HasCode f (length erased.now)
        × (¬ (message_size f words.now erased.now messages.old ≤ left_count erased.now))) }
    ensures no_codeword { result ≡ 9 → IsSomeAnd (field_named field) (λ f.
        FitMessages f words.now erased.now messages.old × AreReduced f words.now
        × HasCode f (length erased.now)
        × (message_size f words.now erased.now messages.old ≤ left_count erased.now)
        × (¬ HaveCodewords f words.now erased.now (message_size f words.now erased.now messages.old))) }
    ensures no_other { (result ≤ 9) × (result ≢ 6) × (result ≢ 7) }
{
    status(over_field!(field, message(alloc, words, erased, messages)))
}
