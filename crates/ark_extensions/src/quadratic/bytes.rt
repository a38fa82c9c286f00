//! Elements in bytes: the coefficient of 1, and then that of x.

use crate::quadratic::Quadratic;
use ark_bytes::{
    CanonicalDeserialize, CanonicalSerialize, Compress, SerializationError, Sink, Source, Spelled,
    Valid,
};
use std::alloc::Global;

impl<F: Spelled, M> Spelled for Quadratic<F, M> {
    ghost use Rattle.ark_extensions.specs.ElementBytes.{in_bytes, in_bytes_format, in_bytes_shows};

    ghost format = { λ mode. in_bytes (F.format mode) };

    ghost format_law = { λ mode. in_bytes_format (F.format mode) (F.format_law mode) };

    ghost Shown = { F.Shown × F.Shown };

    ghost shown = { λ x. (F.shown x.c0, F.shown x.c1) };

    ghost tells = { λ mode. in_bytes_shows (F.format mode) F.shown (F.format_law mode) (F.tells mode) };
}

impl<F: CanonicalSerialize + Copy, M> CanonicalSerialize for Quadratic<F, M> {
    ghost use Rattle.ark_extensions.specs.ElementBytes.{in_bytes_keeps};

    fn serialize_with_mode<W: Sink>(
        &self,
        writer: &mut W,
        mode: Compress,
    ) -> Result<(), SerializationError> {
        (self.c0, self.c1).serialize_with_mode(writer, mode)
    }

    fn serialized_size(&self, mode: Compress) -> Option<usize> {
        (self.c0, self.c1).serialized_size(mode)
    }

    ghost both_modes = { λ mode other. in_bytes_keeps (F.format mode) (F.format other)
        (F.format_law mode) (F.both_modes mode other) };
}

impl<F: Valid, M> Valid for Quadratic<F, M> {
    fn check(&self) -> Result<(), SerializationError> {
        Ok(())
    }
}

impl<F: CanonicalDeserialize, M> CanonicalDeserialize for Quadratic<F, M> {
    ghost takes_memory = { F.takes_memory };

    fn deserialize_with_mode<R: Source>(
        alloc: Global,
        reader: &mut R,
        mode: Compress,
    ) -> Result<Self, SerializationError> {
        let (c0, c1) = <(F, F)>::deserialize_with_mode(alloc, reader, mode)?;
        Ok(Quadratic::new(c0, c1))
    }
}
