//! Cosets in bytes: nine of their fields, or size and offset. The exponent of the odd base follows from the size, and
//! is in neither.

ghost use Rattle.std.specs.Prelude.{◌≡◌};
ghost use Rattle.ark_fft.specs.CosetBytes.{all_fields, Finds};

use crate::domain::coset::Coset;
use ark_bytes::{
    CanonicalDeserialize, CanonicalSerialize, Compress, SerializationError, Sink, Source, Spelled,
    Valid,
};
use ark_traits::FftField;
use std::alloc::Global;

// What a coset is spelled as in full: the size and its exponent of two; the size as an element and its inverse, the
// root and its inverse; the offset, its inverse, and its power to the size.
type Fields<F> = ((u64, u32), (((F, F), (F, F)), ((F, F), F)));

impl<F: FftField> Coset<F> {
    // All of it, as it is spelled.
    fn fields(&self) -> Fields<F>
        ensures { result ≡ all_fields self.now }
    {
        let size = (self.size_as_field_element, self.size_inv);
        let root = (self.group_gen, self.group_gen_inv);
        let offset = (self.offset, self.offset_inv);
        (
            (self.size, self.log_size_of_group),
            ((size, root), (offset, self.offset_pow_size)),
        )
    }

    // The coset that keeps all this, and `None` where there is none.
    fn of_fields(fields: &Fields<F>) -> Option<Coset<F>>
        ensures { Finds all_fields fields.now result }
    {
        let coset = Coset::of_size(fields.0.0, fields.1.1.0.0)?;
        if coset.fields() == *fields {
            Some(coset)
        } else {
            None
        }
    }
}

impl<F: FftField> Spelled for Coset<F> {
    ghost use Rattle.std.specs.Prelude.{ℕ};
    ghost use Rattle.ark_fft.specs.CosetBytes.{all_fields, domain_format, domain_is_format};
    ghost use Rattle.ark_fft.specs.CosetBytes.{domain_shown, domain_tells};

    ghost format = { λ mode. domain_format (F.format mode) all_fields mode };

    ghost format_law = { λ mode. domain_is_format (F.format mode) all_fields (F.format_law mode) mode };

    ghost Shown = { ℕ × F.Shown };

    ghost shown = { domain_shown F.shown all_fields };

    ghost tells = { λ mode. domain_tells (F.format mode) all_fields (F.format_law mode) F.shown
        (F.tells mode) mode };
}

impl<F: FftField> CanonicalSerialize for Coset<F> {
    ghost use Rattle.ark_fft.specs.CosetBytes.{all_fields, domain_keeps};

    fn serialize_with_mode<W: Sink>(
        &self,
        writer: &mut W,
        mode: Compress,
    ) -> Result<(), SerializationError> {
        match mode {
            Compress::Yes => (self.size, self.offset).serialize_with_mode(writer, mode),
            Compress::No => self.fields().serialize_with_mode(writer, mode),
        }
    }

    fn serialized_size(&self, mode: Compress) -> Option<usize> {
        match mode {
            Compress::Yes => (self.size, self.offset).serialized_size(mode),
            Compress::No => self.fields().serialized_size(mode),
        }
    }

    ghost both_modes = { λ mode other. domain_keeps F.field F.field_laws F.adicity F.root F.eq F.roots_law.base
        F.equality_law all_fields (λ c. c.odd_exponent)
        (λ c. record {
          splits = c.splits;
          size_element_is = c.size_element_is;
          size_inverse_is = c.size_inverse_is;
          root_is = c.root_is;
          root_inverse_is = c.root_inverse_is;
          offset_inverse_is = c.offset_inverse_is;
          offset_power_is = c.offset_power_is;
        })
        (F.format mode) (F.format other) (F.format_law mode) (F.elements_law mode).one_to_one
        (F.elements_law other).all (F.modes_law mode other) mode other };
}

impl<F: FftField> Valid for Coset<F> {
    fn check(&self) -> Result<(), SerializationError> {
        Ok(())
    }
}

impl<F: FftField> CanonicalDeserialize for Coset<F> {
    ghost takes_memory = { ⊥ };

    fn deserialize_with_mode<R: Source>(
        alloc: Global,
        reader: &mut R,
        mode: Compress,
    ) -> Result<Self, SerializationError> {
        match mode {
            Compress::Yes => {
                let (size, offset) = <(u64, F)>::deserialize_with_mode(alloc, reader, mode)?;
                Coset::of_size(size, offset).ok_or(SerializationError::InvalidData)
            }
            Compress::No => {
                let fields = <Fields<F>>::deserialize_with_mode(alloc, reader, mode)?;
                Coset::of_fields(&fields).ok_or(SerializationError::InvalidData)
            }
        }
    }
}
