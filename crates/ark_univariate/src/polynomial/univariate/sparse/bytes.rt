//! Sparse polynomials in bytes: the list of the pairs of degree and coefficient, degrees rising and no
//! coefficient zero.

use crate::polynomial::univariate::SparsePolynomial;
use ark_bytes::{
    CanonicalDeserialize, CanonicalSerialize, Compress, SerializationError, Sink, Source, Spelled,
    Valid, list_size, read_list, write_list,
};
use ark_coeffs::sparse::is_sparse;
use ark_traits::Field;
use std::alloc::Global;

impl<F: Field> Spelled for SparsePolynomial<F> {
    ghost use Rattle.std.specs.Prelude.{ℕ, List, map};
    ghost use Rattle.ark_univariate.specs.Layouts.{sparse};
    ghost use Rattle.ark_univariate.specs.LayoutLaws.{sparse_is_format, sparse_shows};

    ghost format = { λ mode. sparse F.field (F.format mode) };

    ghost format_law = { λ mode. sparse_is_format F.field (F.format mode) (F.format_law mode) };

    ghost Shown = { List (ℕ × F.Shown) };

    ghost shown = { map (λ t. (t.0, F.shown t.1)) };

    ghost tells = { λ mode. sparse_shows F.field (F.format mode) (F.format_law mode) F.shown (F.tells mode) };
}

impl<F: Field> CanonicalSerialize for SparsePolynomial<F> {
    ghost use Rattle.ark_univariate.specs.Layouts.{sparse};
    ghost use Rattle.ark_math_formats.proofs.Formats.Modes.{keeps_alike};
    ghost use Rattle.ark_univariate.specs.LayoutLaws.{sparse_alike};

    fn serialize_with_mode<W: Sink>(
        &self,
        writer: &mut W,
        mode: Compress,
    ) -> Result<(), SerializationError> {
        write_list(&self.coeffs, writer, mode)
    }

    fn serialized_size(&self, mode: Compress) -> Option<usize> {
        list_size(&self.coeffs, mode)
    }

    ghost both_modes = { λ mode other. keeps_alike (sparse F.field (F.format mode)) (sparse F.field (F.format other))
        (sparse_alike (F.format mode) (F.format other) (F.modes_law mode other) F.field) };
}

impl<F: Field> Valid for SparsePolynomial<F> {
    fn check(&self) -> Result<(), SerializationError> {
        Ok(())
    }
}

impl<F: Field> CanonicalDeserialize for SparsePolynomial<F> {
    ghost takes_memory = { Unit {0} };

    /// `InvalidData` comes where degrees don't rise, or a coefficient is zero.
    fn deserialize_with_mode<R: Source>(
        alloc: Global,
        reader: &mut R,
        mode: Compress,
    ) -> Result<Self, SerializationError> {
        let coeffs: Vec<(usize, F)> = read_list(alloc, reader, mode)?;
        if is_sparse(&coeffs) {
            Ok(SparsePolynomial { coeffs })
        } else {
            Err(SerializationError::InvalidData)
        }
    }
}
