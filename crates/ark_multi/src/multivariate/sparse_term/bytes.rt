//! Terms in bytes: the list of their pairs of variable and power.

use crate::multivariate::SparseTerm;
use ark_tables::powers::is_term;
use ark_traits::{
    CanonicalDeserialize, CanonicalSerialize, Compress, SerializationError, Sink, Source, Spelled,
    Valid, list_size, read_list, write_list,
};
use std::alloc::Global;

impl Spelled for SparseTerm {
    ghost use Rattle.std.specs.Prelude.{ℕ, List};
    ghost use Rattle.ark_multi.specs.Layouts.{term};
    ghost use Rattle.ark_multi.specs.LayoutLaws.{term_is_format, term_tells};

    ghost format = { λ _. term };

    ghost format_law = { λ _. term_is_format };

    ghost Shown = { List (ℕ × ℕ) };

    ghost shown = { λ t. t };

    ghost tells = { λ _. term_tells };
}

impl CanonicalSerialize for SparseTerm {
    ghost use Rattle.ark_multi.specs.Layouts.{term};
    ghost use Rattle.ark_math_formats.proofs.Formats.Modes.{keeps_itself};

    fn serialize_with_mode<W: Sink>(
        &self,
        writer: &mut W,
        mode: Compress,
    ) -> Result<(), SerializationError> {
        write_list(&self.powers, writer, mode)
    }

    fn serialized_size(&self, mode: Compress) -> Option<usize> {
        list_size(&self.powers, mode)
    }

    ghost both_modes = { λ _ _. keeps_itself term };
}

impl Valid for SparseTerm {
    fn check(&self) -> Result<(), SerializationError> {
        Ok(())
    }
}

impl CanonicalDeserialize for SparseTerm {
    ghost takes_memory = { Unit {0} };

    fn deserialize_with_mode<R: Source>(
        alloc: Global,
        reader: &mut R,
        mode: Compress,
    ) -> Result<Self, SerializationError> {
        let powers = read_list::<(usize, usize), R>(alloc, reader, mode)?;
        if is_term(&powers) {
            Ok(SparseTerm { powers })
        } else {
            Err(SerializationError::InvalidData)
        }
    }
}
