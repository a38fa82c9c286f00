//! Multilinear extensions in bytes, by their entries: these, the number of variables, and an element zero.

use crate::multilinear::SparseMultilinearExtension;
use ark_tables::windows::are_entries;
use ark_traits::{
    CanonicalDeserialize, CanonicalSerialize, Compress, Field, SerializationError, Sink, Source,
    Spelled, Valid, list_size, read_list, write_list,
};
use std::alloc::Global;

impl<F: Field> Spelled for SparseMultilinearExtension<F> {
    ghost use Rattle.std.specs.Prelude.{ℕ, List, map};
    ghost use Rattle.ark_multi.specs.Layouts.{sparse_extension};
    ghost use Rattle.ark_multi.specs.LayoutLaws.{sparse_extension_is_format};
    ghost use Rattle.ark_multi.specs.LayoutLaws.{sparse_extension_shows};

    ghost format = { λ mode. sparse_extension (F.format mode)
        (λ p. (p.evaluations.items, (p.num_vars, p.zero))) };

    ghost format_law = { λ mode. sparse_extension_is_format (F.format mode) (F.format_law mode)
        (λ p. (p.evaluations.items, (p.num_vars, p.zero))) };

    ghost Shown = { List (ℕ × F.Shown) × (ℕ × F.Shown) };

    ghost shown = { λ p. (map (λ e. (e.0, F.shown e.1)) p.evaluations.items, (p.num_vars, F.shown p.zero)) };

    ghost tells = { λ mode. sparse_extension_shows (F.format mode) (F.format_law mode) F.shown (F.tells mode)
        (λ p. (p.evaluations.items, (p.num_vars, p.zero))) };
}

impl<F: Field> CanonicalSerialize for SparseMultilinearExtension<F> {
    ghost use Rattle.ark_multi.specs.Layouts.{sparse_extension};
    ghost use Rattle.ark_math_formats.proofs.Formats.Modes.{keeps_alike};
    ghost use Rattle.ark_multi.specs.LayoutLaws.{sparse_extension_alike};

    fn serialize_with_mode<W: Sink>(
        &self,
        writer: &mut W,
        mode: Compress,
    ) -> Result<(), SerializationError> {
        write_list(&self.evaluations, writer, mode)?;
        (self.num_vars, self.zero).serialize_with_mode(writer, mode)
    }

    fn serialized_size(&self, mode: Compress) -> Option<usize> {
        let entries = list_size(&self.evaluations, mode)?;
        let rest = (self.num_vars, self.zero).serialized_size(mode)?;
        entries.checked_add(rest)
    }

    ghost both_modes = { λ mode other. keeps_alike
        (sparse_extension (F.format mode) (λ p. (p.evaluations.items, (p.num_vars, p.zero))))
        (sparse_extension (F.format other) (λ p. (p.evaluations.items, (p.num_vars, p.zero))))
        (sparse_extension_alike (F.format mode) (F.format other) (F.modes_law mode other)
        (λ p. (p.evaluations.items, (p.num_vars, p.zero)))) };
}

impl<F: Field> Valid for SparseMultilinearExtension<F> {
    fn check(&self) -> Result<(), SerializationError> {
        Ok(())
    }
}

impl<F: Field> CanonicalDeserialize for SparseMultilinearExtension<F> {
    ghost takes_memory = { Unit {0} };

    fn deserialize_with_mode<R: Source>(
        alloc: Global,
        reader: &mut R,
        mode: Compress,
    ) -> Result<Self, SerializationError> {
        let evaluations = read_list::<(usize, F), R>(alloc, reader, mode)?;
        let (num_vars, zero) = <(usize, F)>::deserialize_with_mode(alloc, reader, mode)?;
        if are_entries(&evaluations, num_vars, zero) {
            Ok(SparseMultilinearExtension {
                evaluations,
                num_vars,
                zero,
            })
        } else {
            Err(SerializationError::InvalidData)
        }
    }
}
