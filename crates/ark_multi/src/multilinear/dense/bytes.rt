//! Multilinear extensions in bytes, by all their values: these, and the number of variables.

ghost use Rattle.std.specs.Prelude.{◌≡◌, ◌↔◌, ◌<◌, ◌^◌, IsTrue};

use crate::multilinear::DenseMultilinearExtension;
use ark_traits::{
    CanonicalDeserialize, CanonicalSerialize, Compress, SerializationError, Sink, Source, Spelled,
    Valid, list_size, read_list, write_list,
};
use std::alloc::Global;

impl<F: Spelled> Spelled for DenseMultilinearExtension<F> {
    ghost use Rattle.std.specs.Prelude.{ℕ, List, map};
    ghost use Rattle.ark_multi.specs.Layouts.{dense_extension};
    ghost use Rattle.ark_multi.specs.LayoutLaws.{dense_extension_is_format};
    ghost use Rattle.ark_multi.specs.LayoutLaws.{dense_extension_shows};

    ghost format = { λ mode. dense_extension (F.format mode) (λ p. (p.evaluations.items, p.num_vars)) };

    ghost format_law = { λ mode. dense_extension_is_format (F.format mode) (F.format_law mode)
        (λ p. (p.evaluations.items, p.num_vars)) };

    ghost Shown = { List F.Shown × ℕ };

    ghost shown = { λ p. (map F.shown p.evaluations.items, p.num_vars) };

    ghost tells = { λ mode. dense_extension_shows (F.format mode) (F.format_law mode) F.shown (F.tells mode)
        (λ p. (p.evaluations.items, p.num_vars)) };
}

impl<F: CanonicalSerialize> CanonicalSerialize for DenseMultilinearExtension<F> {
    ghost use Rattle.ark_math_formats.specs.Format.{◌⊗◌, list, word};
    ghost use Rattle.ark_math_formats.proofs.Formats.Ends.{list_is_format};
    ghost use Rattle.ark_math_formats.proofs.Formats.Modes.{keeps_by_fields, keeps_in_lists, keeps_in_pairs};
    ghost use Rattle.ark_math_formats.proofs.Formats.Modes.{keeps_itself};

    fn serialize_with_mode<W: Sink>(
        &self,
        writer: &mut W,
        mode: Compress,
    ) -> Result<(), SerializationError> {
        write_list(&self.evaluations, writer, mode)?;
        self.num_vars.serialize_with_mode(writer, mode)
    }

    fn serialized_size(&self, mode: Compress) -> Option<usize> {
        let values = list_size(&self.evaluations, mode)?;
        let variables = self.num_vars.serialized_size(mode)?;
        values.checked_add(variables)
    }

    ghost both_modes = { λ mode other. keeps_by_fields (list (F.format mode) ⊗ word)
        (list (F.format other) ⊗ word) (λ p. (p.evaluations.items, p.num_vars)) (λ _. Unit {0})
        (keeps_in_pairs (list (F.format mode)) (list (F.format other)) word word
        (list_is_format (F.format mode) (F.format_law mode))
        (keeps_in_lists (F.format mode) (F.format other) (F.format_law mode) (F.both_modes mode other))
        (keeps_itself word)) };
}

impl<F: Valid> Valid for DenseMultilinearExtension<F> {
    fn check(&self) -> Result<(), SerializationError> {
        Ok(())
    }
}

impl<F: CanonicalDeserialize> CanonicalDeserialize for DenseMultilinearExtension<F> {
    ghost takes_memory = { Unit {0} };

    fn deserialize_with_mode<R: Source>(
        alloc: Global,
        reader: &mut R,
        mode: Compress,
    ) -> Result<Self, SerializationError> {
        let evaluations = read_list::<F, R>(alloc, reader, mode)?;
        let num_vars = usize::deserialize_with_mode(alloc, reader, mode)?;
        if is_table_len(evaluations.len(), num_vars) {
            Ok(DenseMultilinearExtension {
                evaluations,
                num_vars,
            })
        } else {
            Err(SerializationError::InvalidData)
        }
    }
}

// Whether a table of so many variables, fewer than 64, has this length.
fn is_table_len(len: usize, num_vars: usize) -> bool
    ensures { IsTrue result ↔ (num_vars < 64) × (len ≡ 2 ^ num_vars) }
{
    num_vars < 64 && len == 1 << num_vars
}
