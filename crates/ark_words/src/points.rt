//! Values of a polynomial.

ghost use Rattle.std.specs.Prelude.{◌≡◌, ◌↔◌, OnOk, OnErr, IfErr};
ghost use Rattle.ark_words.specs.Faults.{IsPlain};
ghost use Rattle.ark_words.specs.Numbers.{FitValues, BothReduced, AreEvaluated};

use crate::element::WordElement;
use crate::error::WordsError;
use crate::lists::{both, put};
use ark_points::evaluate_at;
use ark_univariate::polynomial::DenseUVPolynomial;
use ark_univariate::polynomial::univariate::DensePolynomial;
use std::alloc::Global;

/// The values at points, in their order, of the polynomial with these coefficients, the lowest first: there
/// are as many values as points, one or many. It takes what `evaluate_at` of `ark_points` does, and memory
/// for the elements.
///
/// The errors are judged in this order: `Length` where coefficients or points aren't whole elements, or the
/// values' words not as many as those of the points; `NotReduced` where a number isn't below the modulus;
/// `Memory` where none of these holds.
pub fn evaluate<F: WordElement>(
    alloc: Global,
    coefficients: &[u64],
    points: &[u64],
    values: &mut [u64],
) -> Result<(), WordsError>
    ensures values { OnOk result (AreEvaluated F.spelled coefficients.now points.now values.new) }
    ensures kept { OnErr result (values.new ≡ values.old) }
    ensures taken { OnOk result (FitValues F.spelled coefficients.now points.now values.old
        × BothReduced F.spelled coefficients.now points.now) }
    ensures length { (result ≡ Err WordsError.Length)
        ↔ (¬ FitValues F.spelled coefficients.now points.now values.old) }
    ensures not_reduced { (result ≡ Err WordsError.NotReduced)
        ↔ (FitValues F.spelled coefficients.now points.now values.old
        × (¬ BothReduced F.spelled coefficients.now points.now)) }
    ensures no_other { IfErr result IsPlain }
{
    let width = F::WIDTH;
    if coefficients.len() % width != 0
        || points.len() % width != 0
        || values.len() != points.len()
    {
        return Err(WordsError::Length);
    }
    let (coefficients, points) = both::<F>(alloc, coefficients, points)?;
    let polynomial = DensePolynomial::from_coefficients_vec(coefficients);
    let Ok(found) = evaluate_at(alloc, &polynomial, &points) else {
        return Err(WordsError::Memory);
    };
    put(values, &found);
    Ok(())
}
