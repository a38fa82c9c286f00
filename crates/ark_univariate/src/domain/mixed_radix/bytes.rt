//! Mixed radix domains in bytes: as their cosets.

use crate::domain::mixed_radix::MixedRadixEvaluationDomain;
use ark_bytes::{
    CanonicalDeserialize, CanonicalSerialize, Compress, SerializationError, Sink, Source, Spelled,
    Valid,
};
use ark_fft::domain::{Coset, mixed_radix};
use ark_traits::FftField;
use std::alloc::Global;

impl<F: FftField> Spelled for MixedRadixEvaluationDomain<F> {
    ghost use Rattle.std.specs.Prelude.{ℕ};
    ghost use Rattle.ark_fft.specs.CosetBytes.{all_fields, domain_shown};
    ghost use Rattle.ark_univariate.specs.DomainBytes.{mixed_radix_coset, coset_format, coset_is_format};
    ghost use Rattle.ark_univariate.specs.DomainBytes.{coset_tells};

    ghost format = { λ mode. coset_format all_fields mixed_radix_coset (F.format mode) mode };

    ghost format_law = { λ mode. coset_is_format all_fields mixed_radix_coset (F.format mode) (F.format_law mode)
        mode };

    ghost Shown = { ℕ × F.Shown };

    ghost shown = { λ d. domain_shown F.shown all_fields (mixed_radix_coset d) };

    ghost tells = { λ mode. coset_tells all_fields mixed_radix_coset (F.format mode) (F.format_law mode) F.shown
        (F.tells mode) mode };
}

impl<F: FftField> CanonicalSerialize for MixedRadixEvaluationDomain<F> {
    ghost use Rattle.ark_fft.specs.CosetBytes.{all_fields};
    ghost use Rattle.ark_univariate.specs.DomainBytes.{mixed_radix_coset, coset_keeps, coset_kept};

    fn serialize_with_mode<W: Sink>(
        &self,
        writer: &mut W,
        mode: Compress,
    ) -> Result<(), SerializationError> {
        self.coset.serialize_with_mode(writer, mode)
    }

    fn serialized_size(&self, mode: Compress) -> Option<usize> {
        self.coset.serialized_size(mode)
    }

    ghost both_modes = { λ mode other. coset_keeps F.field F.field_laws F.adicity F.root F.eq F.roots_law.base
        F.equality_law all_fields (λ c. c.odd_exponent) coset_kept mixed_radix_coset (F.format mode) (F.format other)
        (F.format_law mode) (F.elements_law mode).one_to_one (F.elements_law other).all
        (F.modes_law mode other) mode other };
}

impl<F: FftField> Valid for MixedRadixEvaluationDomain<F> {
    fn check(&self) -> Result<(), SerializationError> {
        Ok(())
    }
}

impl<F: FftField> CanonicalDeserialize for MixedRadixEvaluationDomain<F> {
    ghost takes_memory = { ⊥ };

    fn deserialize_with_mode<R: Source>(
        alloc: Global,
        reader: &mut R,
        mode: Compress,
    ) -> Result<Self, SerializationError> {
        let coset: Coset<F> = Coset::deserialize_with_mode(alloc, reader, mode)?;
        if mixed_radix::odd_base::<F>().is_some() {
            Ok(MixedRadixEvaluationDomain { coset })
        } else {
            Err(SerializationError::InvalidData)
        }
    }
}
