//! Domains of either kind in bytes: 0 before a radix 2 domain, and 1 before a mixed radix one.

ghost use Rattle.std.specs.Prelude.{◌≡◌};
ghost use Rattle.ark_univariate.specs.DomainBytes.{either_of};

use crate::domain::general::GeneralEvaluationDomain;
use crate::domain::{MixedRadixEvaluationDomain, Radix2EvaluationDomain};
use ark_bytes::{
    CanonicalDeserialize, CanonicalSerialize, Compress, Either, SerializationError, Sink, Source,
    Spelled, Valid,
};
use ark_traits::FftField;
use std::alloc::Global;

impl<F: FftField> GeneralEvaluationDomain<F> {
    fn to_either(&self) -> Either<Radix2EvaluationDomain<F>, MixedRadixEvaluationDomain<F>>
        ensures { result ≡ either_of self.now }
    {
        match self {
            GeneralEvaluationDomain::Radix2(by_twos) => Either::First(*by_twos),
            GeneralEvaluationDomain::MixedRadix(mixed) => Either::Second(*mixed),
        }
    }
}

impl<F: FftField> Spelled for GeneralEvaluationDomain<F> {
    ghost use Rattle.std.specs.Prelude.{ℕ, ◌⊎◌};
    ghost use Rattle.ark_math_formats.specs.Format.{shown_either};
    ghost use Rattle.ark_bytes.specs.Either.{sum_of};
    ghost use Rattle.ark_fft.specs.CosetBytes.{all_fields, domain_shown};
    ghost use Rattle.ark_univariate.specs.DomainBytes.{radix2_coset, mixed_radix_coset, either_of};
    ghost use Rattle.ark_univariate.specs.DomainBytes.{coset_format, coset_is_format, coset_tells};
    ghost use Rattle.ark_univariate.specs.DomainBytes.{either_format, either_domain_is_format};
    ghost use Rattle.ark_univariate.specs.DomainBytes.{either_domain_tells};

    ghost format = { λ mode. either_format either_of
        (coset_format all_fields radix2_coset (F.format mode) mode)
        (coset_format all_fields mixed_radix_coset (F.format mode) mode) };

    ghost format_law = { λ mode. either_domain_is_format either_of
        (coset_format all_fields radix2_coset (F.format mode) mode)
        (coset_format all_fields mixed_radix_coset (F.format mode) mode)
        (coset_is_format all_fields radix2_coset (F.format mode) (F.format_law mode) mode)
        (coset_is_format all_fields mixed_radix_coset (F.format mode) (F.format_law mode) mode) };

    ghost Shown = { (ℕ × F.Shown) ⊎ (ℕ × F.Shown) };

    ghost shown = { λ d. shown_either (λ x. domain_shown F.shown all_fields (radix2_coset x))
        (λ x. domain_shown F.shown all_fields (mixed_radix_coset x)) (sum_of (either_of d)) };

    ghost tells = { λ mode. either_domain_tells either_of
        (coset_format all_fields radix2_coset (F.format mode) mode)
        (coset_format all_fields mixed_radix_coset (F.format mode) mode)
        (λ x. domain_shown F.shown all_fields (radix2_coset x))
        (λ x. domain_shown F.shown all_fields (mixed_radix_coset x))
        (coset_tells all_fields radix2_coset (F.format mode) (F.format_law mode) F.shown (F.tells mode) mode)
        (coset_tells all_fields mixed_radix_coset (F.format mode) (F.format_law mode) F.shown (F.tells mode)
        mode) };
}

impl<F: FftField> CanonicalSerialize for GeneralEvaluationDomain<F> {
    ghost use Rattle.ark_fft.specs.CosetBytes.{all_fields};
    ghost use Rattle.ark_univariate.specs.DomainBytes.{radix2_coset, mixed_radix_coset, either_of, coset_format};
    ghost use Rattle.ark_univariate.specs.DomainBytes.{coset_keeps, coset_kept, either_domain_keeps};

    fn serialize_with_mode<W: Sink>(
        &self,
        writer: &mut W,
        mode: Compress,
    ) -> Result<(), SerializationError> {
        self.to_either().serialize_with_mode(writer, mode)
    }

    fn serialized_size(&self, mode: Compress) -> Option<usize> {
        self.to_either().serialized_size(mode)
    }

    ghost both_modes = { λ mode other. either_domain_keeps either_of
        (coset_format all_fields radix2_coset (F.format mode) mode)
        (coset_format all_fields mixed_radix_coset (F.format mode) mode)
        (coset_format all_fields radix2_coset (F.format other) other)
        (coset_format all_fields mixed_radix_coset (F.format other) other)
        (coset_keeps F.field F.field_laws F.adicity F.root F.eq F.roots_law.base F.equality_law all_fields
        (λ c. c.odd_exponent) coset_kept radix2_coset (F.format mode) (F.format other) (F.format_law mode)
        (F.elements_law mode).one_to_one (F.elements_law other).all (F.modes_law mode other) mode other)
        (coset_keeps F.field F.field_laws F.adicity F.root F.eq F.roots_law.base F.equality_law all_fields
        (λ c. c.odd_exponent) coset_kept mixed_radix_coset (F.format mode) (F.format other) (F.format_law mode)
        (F.elements_law mode).one_to_one (F.elements_law other).all (F.modes_law mode other) mode other) };
}

impl<F: FftField> Valid for GeneralEvaluationDomain<F> {
    fn check(&self) -> Result<(), SerializationError> {
        Ok(())
    }
}

impl<F: FftField> CanonicalDeserialize for GeneralEvaluationDomain<F> {
    ghost takes_memory = { ⊥ };

    fn deserialize_with_mode<R: Source>(
        alloc: Global,
        reader: &mut R,
        mode: Compress,
    ) -> Result<Self, SerializationError> {
        let domain: Either<Radix2EvaluationDomain<F>, MixedRadixEvaluationDomain<F>> =
            Either::deserialize_with_mode(alloc, reader, mode)?;
        Ok(match domain {
            Either::First(by_twos) => GeneralEvaluationDomain::Radix2(by_twos),
            Either::Second(mixed) => GeneralEvaluationDomain::MixedRadix(mixed),
        })
    }
}
