//! Calls of products, quotients, values at points and codes.

ghost use Rattle.std.specs.Prelude.{OnOk};
ghost use Rattle.ark_words.specs.Codes.{AreRestored, IsExtendedToCodeword};
ghost use Rattle.ark_words.specs.Extensions.{IsExtended};
ghost use Rattle.ark_words.specs.Interpolations.{AreInterpolating};
ghost use Rattle.ark_words.specs.Products.{AreDivided, AreMultiplied};
ghost use Rattle.ark_words.specs.Weights.{AreLagrange};

use ark_words::{
    WordElement, WordsError, divide, encode_systematic, interpolate, lagrange,
    multilinear_evaluate, multiply, restore,
};
use std::alloc::Global;

/// The coefficients of a product.
pub fn multiplied<F: WordElement>(
    alloc: Global,
    left: &[u64],
    right: &[u64],
    product: &mut [u64],
) -> Result<(), WordsError>
    ensures { OnOk result (AreMultiplied F.spelled left.now right.now product.new) }
{
    multiply::<F>(alloc, left, right, product)
}

/// Quotient and remainder.
pub fn divided<F: WordElement>(
    alloc: Global,
    dividend: &[u64],
    divisor: &[u64],
    quotient: &mut [u64],
    remainder: &mut [u64],
) -> Result<(), WordsError>
    ensures { OnOk result (AreDivided F.spelled dividend.now divisor.now quotient.new remainder.new) }
{
    divide::<F>(alloc, dividend, divisor, quotient, remainder)
}

/// The coefficients of the polynomial through points.
pub fn interpolated<F: WordElement>(
    alloc: Global,
    points: &[u64],
    values: &[u64],
    coefficients: &mut [u64],
) -> Result<(), WordsError>
    ensures { OnOk result (AreInterpolating F.spelled points.now values.now coefficients.new) }
{
    interpolate::<F>(alloc, points, values, coefficients)
}

/// The weights of the values at a domain.
pub fn weighed<F: WordElement>(
    alloc: Global,
    offset: &[u64],
    point: &[u64],
    weights: &mut [u64],
) -> Result<(), WordsError>
    ensures { OnOk result (AreLagrange F.spelled offset.now point.now weights.new) }
{
    lagrange::<F>(alloc, offset, point, weights)
}

/// The value of a multilinear extension.
pub fn extended<F: WordElement>(
    alloc: Global,
    table: &[u64],
    point: &[u64],
    value: &mut [u64],
) -> Result<(), WordsError>
    ensures { OnOk result (IsExtended F.spelled table.now point.now value.new) }
{
    multilinear_evaluate::<F>(alloc, table, point, value)
}

/// The codeword that begins with a message.
pub fn systematic<F: WordElement>(
    alloc: Global,
    message: &[u64],
    word: &mut [u64],
) -> Result<(), WordsError>
    ensures { OnOk result (IsExtendedToCodeword F.spelled message.now word.new) }
{
    encode_systematic::<F>(alloc, message, word)
}

/// The codewords that have what is left of words.
pub fn restored<F: WordElement>(
    alloc: Global,
    words: &mut [u64],
    erased: &[u8],
    k: u64,
) -> Result<(), WordsError>
    ensures { OnOk result (AreRestored F.spelled words.old erased.now k words.new) }
{
    restore::<F>(alloc, words, erased, k)
}
