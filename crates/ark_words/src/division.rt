//! Quotients and remainders of polynomials.

ghost use Rattle.std.specs.Prelude.{◌≡◌, ◌≢◌, ◌↔◌, All, IfOk, IfErr, IsTrue, OnOk, OnErr, IsOkUnless};
ghost use Rattle.ark_words.specs.Faults.{IsOfDivision};
ghost use Rattle.ark_math.specs.Univariate.{of_list, nothing, IsQuotient};
ghost use Rattle.ark_math.specs.Words.{number_of_words};
ghost use Rattle.ark_words.specs.Numbers.{numbers, BothReduced};
ghost use Rattle.ark_words.specs.Products.{FitQuotient, AreZeros, IsDivisible, AreDivided};

use crate::element::WordElement;
use crate::error::WordsError;
use crate::lists::{both, refusal_of_both};
use crate::padded::put_with_zeros;
use ark_traits::FftField;
use ark_univariate::polynomial::DenseUVPolynomial;
use ark_univariate::polynomial::univariate::DensePolynomial;
use std::alloc::Global;

/// The coefficients of the only quotient and remainder of a polynomial by another, the lowest first, and
/// zeros in what is left: the quotient is as long as the dividend, the remainder as long as the divisor.
/// Zeros at the end of dividend and divisor don't matter. It takes what `divide_by_transforms` of
/// `DensePolynomial` does, and memory for the elements.
///
/// The errors are judged in this order: `Length` where dividend or divisor aren't whole elements, or the
/// other two lists not as long as these; `NotReduced` where a number isn't below the modulus; `ZeroDivisor`
/// where the divisor is zeros alone, or empty; `Memory` where none of these holds.
pub fn divide<F: WordElement>(
    alloc: Global,
    dividend: &[u64],
    divisor: &[u64],
    quotient: &mut [u64],
    remainder: &mut [u64],
) -> Result<(), WordsError>
    ensures quotient { OnOk result (AreDivided F.spelled dividend.now divisor.now quotient.new remainder.new) }
    ensures kept { OnErr result ((quotient.new ≡ quotient.old) × (remainder.new ≡ remainder.old)) }
    ensures taken { OnOk result (IsDivisible F.spelled dividend.now divisor.now quotient.old remainder.old) }
    ensures length { (result ≡ Err WordsError.Length)
        ↔ (¬ FitQuotient F.spelled dividend.now divisor.now quotient.old remainder.old) }
    ensures not_reduced { (result ≡ Err WordsError.NotReduced)
        ↔ (FitQuotient F.spelled dividend.now divisor.now quotient.old remainder.old
        × (¬ BothReduced F.spelled dividend.now divisor.now)) }
    ensures zero_divisor { (result ≡ Err WordsError.ZeroDivisor)
        ↔ (FitQuotient F.spelled dividend.now divisor.now quotient.old remainder.old
        × BothReduced F.spelled dividend.now divisor.now × AreZeros F.spelled divisor.now) }
    ensures no_other { IfErr result IsOfDivision }
{
    let width = F::WIDTH;
    if dividend.len() % width != 0
        || divisor.len() % width != 0
        || quotient.len() != dividend.len()
        || remainder.len() != divisor.len()
    {
        return Err(WordsError::Length);
    }
    if are_zeros::<F>(divisor) {
        return Err(refusal_of_both::<F>(dividend, divisor, WordsError::ZeroDivisor));
    }
    let (dividend, divisor) = both::<F>(alloc, dividend, divisor)?;
    let dividend = DensePolynomial::from_coefficients_vec(dividend);
    let divisor = DensePolynomial::from_coefficients_vec(divisor);
    let (whole, rest) = quotient_of(alloc, &dividend, &divisor)?;
    put_with_zeros(quotient, whole.coeffs());
    put_with_zeros(remainder, rest.coeffs());
    Ok(())
}

// Quotient and remainder by a divisor that isn't zero.
fn quotient_of<F: FftField>(
    alloc: Global,
    dividend: &DensePolynomial<F>,
    divisor: &DensePolynomial<F>,
) -> Result<(DensePolynomial<F>, DensePolynomial<F>), WordsError>
    requires { of_list F.field divisor.now ≢ nothing F.field }
    ensures quotient { IfOk result (λ p. IsQuotient F.field (of_list F.field dividend.now)
        (of_list F.field divisor.now) (of_list F.field p.0) (of_list F.field p.1)) }
    ensures memory { IsOkUnless result WordsError.Memory }
{
    // `None` comes for the zero divisor alone.
    let Ok(Some(pair)) = dividend.divide_by_transforms(alloc, divisor) else {
        return Err(WordsError::Memory);
    };
    Ok(pair)
}

// Whether all numbers are zero.
fn are_zeros<F: WordElement>(words: &[u64]) -> bool
    ensures { IsTrue result ↔ All (λ x. x ≡ 0) (numbers F.WIDTH words.now) }
{
    let width = F::WIDTH;
    for i in 0..words.len() / width {
        if !is_zero(&words[i * width..(i + 1) * width]) {
            return false;
        }
    }
    true
}

// Whether the words spell zero.
fn is_zero(words: &[u64]) -> bool
    ensures { IsTrue result ↔ (number_of_words words.now ≡ 0) }
{
    for word in words {
        if *word != 0 {
            return false;
        }
    }
    true
}
