//! Domains of exactly so many elements, and the sizes of domains.

ghost use Rattle.std.specs.Prelude.{◌≡◌, ◌≢◌, ◌↔◌, ℕ, IfSome, IsSome, OnOk, OnErr};
ghost use Rattle.std.specs.Prelude.{IsOkUnless};
ghost use Rattle.ark_math.specs.Domain.{Kind, HasNoSize, IsDomain, IsSize};
ghost use Rattle.ark_univariate.specs.Domains.{general_domain};
ghost use Rattle.ark_numbers.specs.Answers.{IsChosen};

use crate::element::WordElement;
use crate::error::WordsError;
use ark_traits::FftField;
use ark_univariate::domain::{
    EvaluationDomain, GeneralEvaluationDomain, MixedRadixEvaluationDomain, Radix2EvaluationDomain,
};

/// The domain of exactly so many elements with this offset, of radix 2 where their number is a power of two
/// that the field has, and `None` exactly where there is none or the offset is zero.
pub fn exact_domain<F: FftField>(size: usize, offset: F) -> Option<GeneralEvaluationDomain<F>>
    ensures size { IfSome result (λ d. (general_domain d).size ≡ size) }
    ensures offset { IfSome result (λ d. (general_domain d).offset ≡ offset) }
    ensures lawful { IfSome result (λ d. IsDomain F.field F.adicity F.root (general_domain d)) }
    ensures some { IsSome result ↔ (((kind : Kind) × IsSize F.adicity kind size) × (offset ≢ F.field.zero)) }
{
    match of_size(size, offset) {
        Some(domain) => Some(GeneralEvaluationDomain::Radix2(domain)),
        None => Some(GeneralEvaluationDomain::MixedRadix(of_size(size, offset)?)),
    }
}

// The domain of a kind with exactly so many elements.
fn of_size<F: FftField, D: EvaluationDomain<F>>(size: usize, offset: F) -> Option<D>
    ensures size { IfSome result (λ d. (D.domain d).size ≡ size) }
    ensures offset { IfSome result (λ d. (D.domain d).offset ≡ offset) }
    ensures lawful { IfSome result (λ d. IsDomain F.field F.adicity F.root (D.domain d)) }
    ensures some { IsSome result ↔ (((kind : Kind) × D.chooses size kind size) × (offset ≢ F.field.zero)) }
{
    let domain = D::new_coset(size, offset)?;
    if domain.size() == size {
        Some(domain)
    } else {
        None
    }
}

/// Writes the size of the domain for so many coefficients: the least power of two at or above it where the
/// field has one, and otherwise the least mixed size. `NoDomain` where there is neither.
pub fn domain_size<F: WordElement>(at_least: u64, size: &mut u64) -> Result<(), WordsError>
    ensures size { OnOk result ((kind : Kind) × IsChosen F.spelled.known.adicity at_least kind size.new) }
    ensures kept { OnErr result (size.new ≡ size.old) }
    ensures no_domain { (result ≡ Err WordsError.NoDomain)
        ↔ HasNoSize (IsChosen F.spelled.known.adicity) at_least }
    ensures error { IsOkUnless result WordsError.NoDomain }
{
    let found = GeneralEvaluationDomain::<F>::compute_size_of_domain(at_least as usize);
    *size = found.ok_or(WordsError::NoDomain)? as u64;
    Ok(())
}
