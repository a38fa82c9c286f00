//! The weights of values over a domain.

ghost use Rattle.std.specs.Prelude.{◌≡◌, ◌↔◌, OnOk, OnErr, IfErr};
ghost use Rattle.ark_words.specs.Faults.{IsOfDomains};
ghost use Rattle.ark_words.specs.Numbers.{HaveDomain};
ghost use Rattle.ark_words.specs.Weights.{FitWeights, ArePlaced, AreLagrange};

use crate::domains::exact_domain;
use crate::element::WordElement;
use crate::error::WordsError;
use crate::lists::put;
use ark_univariate::domain::EvaluationDomain;
use std::alloc::Global;

/// Writes `n` weights, by which the values at the `n` elements of the domain of exactly that size with this
/// offset give the value at the point, for each polynomial below degree `n`: the values at the point of the
/// Lagrange polynomials. Offset and point are one number each, and the point may be one of the domain. It takes
/// memory for the weights, and for as many elements once more.
///
/// The errors are judged in this order: `Length` where the weights' words aren't whole elements, or those of
/// offset or point not one; `NotReduced` where offset or point aren't below the modulus; `NoDomain` where no
/// domain of the field has `n` elements, or the offset is zero; `Memory` where none of these holds.
pub fn lagrange<F: WordElement>(
    alloc: Global,
    offset: &[u64],
    point: &[u64],
    weights: &mut [u64],
) -> Result<(), WordsError>
    ensures weights { OnOk result (AreLagrange F.spelled offset.now point.now weights.new) }
    ensures kept { OnErr result (weights.new ≡ weights.old) }
    ensures taken { OnOk result (FitWeights F.spelled offset.now point.now weights.old
        × ArePlaced F.spelled offset.now point.now × HaveDomain F.spelled weights.old offset.now) }
    ensures length { (result ≡ Err WordsError.Length)
        ↔ (¬ FitWeights F.spelled offset.now point.now weights.old) }
    ensures not_reduced { (result ≡ Err WordsError.NotReduced)
        ↔ (FitWeights F.spelled offset.now point.now weights.old
        × (¬ ArePlaced F.spelled offset.now point.now)) }
    ensures no_domain { (result ≡ Err WordsError.NoDomain)
        ↔ (FitWeights F.spelled offset.now point.now weights.old
        × ArePlaced F.spelled offset.now point.now × (¬ HaveDomain F.spelled weights.old offset.now)) }
    ensures no_other { IfErr result IsOfDomains }
{
    let width = F::WIDTH;
    if weights.len() % width != 0 || offset.len() != width || point.len() != width {
        return Err(WordsError::Length);
    }
    let Some(offset) = F::from_words(offset) else {
        return Err(WordsError::NotReduced);
    };
    let Some(point) = F::from_words(point) else {
        return Err(WordsError::NotReduced);
    };
    let Some(domain) = exact_domain(weights.len() / width, offset) else {
        return Err(WordsError::NoDomain);
    };
    let Ok(found) = domain.evaluate_all_lagrange_coefficients(alloc, point) else {
        return Err(WordsError::Memory);
    };
    put(weights, &found);
    Ok(())
}
