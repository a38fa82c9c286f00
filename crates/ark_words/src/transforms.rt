//! Transforms in place. They keep multiples, so that elements are read and written without a product.

ghost use Rattle.std.specs.Prelude.{◌≡◌, ◌↔◌, ◌/◌, map, length, OnOk, OnErr, IfOk, IfErr};
ghost use Rattle.ark_math.specs.Domain.{IsDomain};
ghost use Rattle.ark_math.specs.Words.{number_of_words};
ghost use Rattle.ark_univariate.specs.Domains.{general_domain};
ghost use Rattle.ark_words.specs.Faults.{IsFault, IsOfDomains};
ghost use Rattle.ark_words.specs.Numbers.{numbers, AreTransformable, HaveLengths, HaveReduced, HaveDomain};
ghost use Rattle.ark_words.specs.Numbers.{AreTransformed, AreTransformedBack};

use crate::domains::exact_domain;
use crate::element::WordElement;
use crate::error::WordsError;
use crate::lists::refusal;
use crate::scaled::{put_scaled, scaled_elements};
use ark_traits::Work;
use ark_univariate::domain::{EvaluationDomain, GeneralEvaluationDomain};
use std::alloc::Global;

/// The values of a polynomial in place of its coefficients: where the words spell `n` numbers, at the `n`
/// elements of the domain of exactly that size with this offset, which is one number. It takes memory for
/// `n` elements, and what `fft_counted` of the domain takes.
///
/// The errors are judged in this order: `Length` where the words aren't whole elements, or those of the
/// offset not one; `NotReduced` where a number isn't below the modulus; `NoDomain` where no domain of the
/// field has `n` elements, or the offset is zero; `Memory` where none of these holds.
pub fn fft<F: WordElement>(
    alloc: Global,
    words: &mut [u64],
    offset: &[u64],
) -> Result<(), WordsError>
    ensures values { OnOk result (AreTransformed F.spelled words.old offset.now words.new) }
    ensures kept { OnErr result (words.new ≡ words.old) }
    ensures taken { OnOk result (AreTransformable F.spelled words.old offset.now) }
    ensures length { (result ≡ Err WordsError.Length) ↔ (¬ HaveLengths F.spelled words.old offset.now) }
    ensures not_reduced { (result ≡ Err WordsError.NotReduced)
        ↔ (HaveLengths F.spelled words.old offset.now × (¬ HaveReduced F.spelled words.old offset.now)) }
    ensures no_domain { (result ≡ Err WordsError.NoDomain)
        ↔ (HaveLengths F.spelled words.old offset.now × HaveReduced F.spelled words.old offset.now
        × (¬ HaveDomain F.spelled words.old offset.now)) }
    ensures no_other { IfErr result IsOfDomains }
{
    let (domain, mut coeffs) = judged::<F>(alloc, words, offset)?;
    let Ok(()) = domain.fft_counted(alloc, &mut coeffs, &mut Work::new()) else {
        return Err(WordsError::Memory);
    };
    put_scaled(words, &coeffs);
    Ok(())
}

/// The coefficients of a polynomial in place of its values, which `fft` takes back to these.
///
/// The errors are those of `fft`, in its order.
pub fn ifft<F: WordElement>(
    alloc: Global,
    words: &mut [u64],
    offset: &[u64],
) -> Result<(), WordsError>
    ensures coefficients { OnOk result (AreTransformedBack F.spelled words.old offset.now words.new) }
    ensures kept { OnErr result (words.new ≡ words.old) }
    ensures taken { OnOk result (AreTransformable F.spelled words.old offset.now) }
    ensures length { (result ≡ Err WordsError.Length) ↔ (¬ HaveLengths F.spelled words.old offset.now) }
    ensures not_reduced { (result ≡ Err WordsError.NotReduced)
        ↔ (HaveLengths F.spelled words.old offset.now × (¬ HaveReduced F.spelled words.old offset.now)) }
    ensures no_domain { (result ≡ Err WordsError.NoDomain)
        ↔ (HaveLengths F.spelled words.old offset.now × HaveReduced F.spelled words.old offset.now
        × (¬ HaveDomain F.spelled words.old offset.now)) }
    ensures no_other { IfErr result IsOfDomains }
{
    let (domain, mut evals) = judged::<F>(alloc, words, offset)?;
    let Ok(()) = domain.ifft_counted(alloc, &mut evals, &mut Work::new()) else {
        return Err(WordsError::Memory);
    };
    put_scaled(words, &evals);
    Ok(())
}

// The domain and the elements, or the first fault.
fn judged<F: WordElement>(
    alloc: Global,
    words: &[u64],
    offset: &[u64],
) -> Result<(GeneralEvaluationDomain<F>, Vec<F>), WordsError>
    ensures size { IfOk result (λ p. (general_domain p.0).size ≡ length words.now / F.WIDTH) }
    ensures offset { IfOk result (λ p. F.numbering.number (general_domain p.0).offset
        ≡ number_of_words offset.now) }
    ensures lawful { IfOk result (λ p. IsDomain F.field F.adicity F.root (general_domain p.0)) }
    ensures numbers { IfOk result (λ p. map (λ x. F.numbering.number (F.field.times F.unit x)) p.1.items
        ≡ numbers F.WIDTH words.now) }
    ensures taken { OnOk result (AreTransformable F.spelled words.now offset.now) }
    ensures fault { IfErr result (IsFault (HaveLengths F.spelled words.now offset.now)
        (HaveReduced F.spelled words.now offset.now) (HaveDomain F.spelled words.now offset.now)) }
{
    let width = F::WIDTH;
    if words.len() % width != 0 || offset.len() != width {
        return Err(WordsError::Length);
    }
    let Some(offset) = F::from_words(offset) else {
        return Err(WordsError::NotReduced);
    };
    let Some(domain) = exact_domain(words.len() / width, offset) else {
        return Err(refusal::<F>(words, WordsError::NoDomain));
    };
    Ok((domain, scaled_elements(alloc, words)?))
}
