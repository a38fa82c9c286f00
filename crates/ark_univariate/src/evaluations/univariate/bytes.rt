//! Evaluations in bytes: the list of the values, and then the domain.

use crate::domain::EvaluationDomain;
use crate::evaluations::univariate::Evaluations;
use ark_bytes::{
    CanonicalDeserialize, CanonicalSerialize, Compress, SerializationError, Sink, Source, Spelled,
    Valid, list_size, read_list, write_list,
};
use ark_traits::FftField;
use std::alloc::Global;

impl<F: FftField, D: EvaluationDomain<F>> Spelled for Evaluations<F, D> {
    ghost use Rattle.std.specs.Prelude.{List, map};
    ghost use Rattle.ark_univariate.specs.Layouts.{evaluations};
    ghost use Rattle.ark_univariate.specs.Values.{list_and_domain, AreAsMany};
    ghost use Rattle.ark_univariate.specs.ValuesBytes.{values_is_format, values_tell};

    ghost format = { λ mode. evaluations (F.format mode) (D.format mode) list_and_domain
        (AreAsMany D.domain) };

    ghost format_law = { λ mode. values_is_format (F.format mode) (D.format mode) (AreAsMany D.domain)
        (F.format_law mode) (D.format_law mode) };

    ghost Shown = { List F.Shown × D.Shown };

    ghost shown = { λ v. (map F.shown v.evals, D.shown v.domain) };

    ghost tells = { λ mode. values_tell (F.format mode) (D.format mode) (AreAsMany D.domain)
        (F.format_law mode) (D.format_law mode) F.shown D.shown (F.tells mode) (D.tells mode) };
}

impl<F: FftField, D: EvaluationDomain<F>> CanonicalSerialize for Evaluations<F, D> {
    ghost use Rattle.ark_univariate.specs.Values.{AreAsMany};
    ghost use Rattle.ark_univariate.specs.ValuesBytes.{values_keep};

    fn serialize_with_mode<W: Sink>(
        &self,
        writer: &mut W,
        mode: Compress,
    ) -> Result<(), SerializationError> {
        write_list(&self.evals, writer, mode)?;
        self.domain.serialize_with_mode(writer, mode)
    }

    fn serialized_size(&self, mode: Compress) -> Option<usize> {
        let evals = list_size(&self.evals, mode)?;
        let domain = self.domain.serialized_size(mode)?;
        evals.checked_add(domain)
    }

    ghost both_modes = { λ mode other. values_keep (F.format mode) (D.format mode) (AreAsMany D.domain)
        (F.format_law mode) (D.format_law mode) (F.format other) (D.format other)
        (F.both_modes mode other) (D.both_modes mode other) };
}

impl<F: FftField, D: EvaluationDomain<F>> Valid for Evaluations<F, D> {
    fn check(&self) -> Result<(), SerializationError> {
        Ok(())
    }
}

impl<F: FftField, D: EvaluationDomain<F>> CanonicalDeserialize for Evaluations<F, D> {
    ghost takes_memory = { Unit {0} };

    fn deserialize_with_mode<R: Source>(
        alloc: Global,
        reader: &mut R,
        mode: Compress,
    ) -> Result<Self, SerializationError> {
        let evals = read_list(alloc, reader, mode)?;
        let domain = D::deserialize_with_mode(alloc, reader, mode)?;
        if evals.len() == domain.size() {
            Ok(Evaluations { evals, domain })
        } else {
            Err(SerializationError::InvalidData)
        }
    }
}
