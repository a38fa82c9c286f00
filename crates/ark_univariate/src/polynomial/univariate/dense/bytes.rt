//! Dense polynomials in bytes: the list of the coefficients, the last one not zero.

use crate::polynomial::univariate::DensePolynomial;
use ark_bytes::{
    CanonicalDeserialize, CanonicalSerialize, Compress, SerializationError, Sink, Source, Spelled,
    Valid, list_size, read_list, write_list,
};
use ark_coeffs::dense::is_trimmed;
use ark_traits::Field;
use std::alloc::Global;

impl<F: Field> Spelled for DensePolynomial<F> {
    ghost use Rattle.std.specs.Prelude.{List, map};
    ghost use Rattle.ark_univariate.specs.Layouts.{dense};
    ghost use Rattle.ark_univariate.specs.LayoutLaws.{dense_is_format, dense_shows};

    ghost format = { λ mode. dense F.field (F.format mode) };

    ghost format_law = { λ mode. dense_is_format F.field (F.format mode) (F.format_law mode) };

    ghost Shown = { List F.Shown };

    ghost shown = { map F.shown };

    ghost tells = { λ mode. dense_shows F.field (F.format mode) (F.format_law mode) F.shown (F.tells mode) };
}

impl<F: Field> CanonicalSerialize for DensePolynomial<F> {
    ghost use Rattle.ark_univariate.specs.Layouts.{dense};
    ghost use Rattle.ark_math_formats.proofs.Formats.Modes.{keeps_alike};
    ghost use Rattle.ark_univariate.specs.LayoutLaws.{dense_alike};

    fn serialize_with_mode<W: Sink>(
        &self,
        writer: &mut W,
        mode: Compress,
    ) -> Result<(), SerializationError> {
        write_list(&self.coeffs, writer, mode)
    }

    fn serialized_size(&self, mode: Compress) -> Option<usize> {
        list_size(&self.coeffs, mode)
    }

    ghost both_modes = { λ mode other. keeps_alike (dense F.field (F.format mode)) (dense F.field (F.format other))
        (dense_alike (F.format mode) (F.format other) (F.modes_law mode other) F.field) };
}

impl<F: Field> Valid for DensePolynomial<F> {
    fn check(&self) -> Result<(), SerializationError> {
        Ok(())
    }
}

impl<F: Field> CanonicalDeserialize for DensePolynomial<F> {
    ghost takes_memory = { Unit {0} };

    /// `InvalidData` comes where the last coefficient is zero.
    fn deserialize_with_mode<R: Source>(
        alloc: Global,
        reader: &mut R,
        mode: Compress,
    ) -> Result<Self, SerializationError> {
        let coeffs: Vec<F> = read_list(alloc, reader, mode)?;
        if is_trimmed(&coeffs) {
            Ok(DensePolynomial { coeffs })
        } else {
            Err(SerializationError::InvalidData)
        }
    }
}
