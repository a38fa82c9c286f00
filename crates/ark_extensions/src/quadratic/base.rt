//! The field below in the extension.

ghost use Rattle.std.specs.Prelude.{◌≡◌, ◌≢◌, ◌↔◌, IfSome, IsNone};

use crate::modulus::QuadraticModulus;
use crate::quadratic::Quadratic;
use ark_traits::{ExtensionOf, Field};

impl<F: Field, M: QuadraticModulus<F>> Quadratic<F, M> {
    ghost use Rattle.ark_extensions.specs.Elements.{embedded, extension};

    /// An element of the field below, as one of the extension. `laws::embedding` says what it keeps.
    #[inline(always)]
    pub fn embed(value: F) -> Self
        ensures { result ≡ embedded F.field value }
    {
        Quadratic::new(value, F::zero())
    }

    /// `embed`, by the name that users of ark-ff know.
    #[inline(always)]
    pub fn from_base(value: F) -> Self
        ensures { result ≡ embedded F.field value }
    {
        Quadratic::<F, M>::embed(value)
    }

    /// The element of the field below that this one is, and `None` exactly where it is none.
    pub fn as_base(&self) -> Option<F>
        ensures some { IfSome result (λ a. self.now ≡ embedded F.field a) }
        ensures none { IsNone result ↔ ((a : F) → self.now ≢ embedded F.field a) }
    {
        if self.c1.is_zero() {
            Some(self.c0)
        } else {
            None
        }
    }

    /// The product by an element of the field below, by its product with each coefficient.
    #[inline(always)]
    pub fn mul_by_base(self, factor: F) -> Self
        ensures { result ≡ (extension F.field M.non_residue).times (embedded F.field factor) self }
    {
        Quadratic::new(factor * self.c0, factor * self.c1)
    }
}

impl<F: Field, M: QuadraticModulus<F>> ExtensionOf<F> for Quadratic<F, M> {
    ghost use Rattle.ark_extensions.specs.Elements.{embedded};
    ghost use Rattle.ark_extensions.specs.ElementLaws.{embedding};

    ghost within = { embedded F.field };

    #[inline(always)]
    fn embed(value: F) -> Self {
        Quadratic::<F, M>::embed(value)
    }

    fn as_base(&self) -> Option<F> {
        Quadratic::<F, M>::as_base(self)
    }

    #[inline(always)]
    fn mul_by_base(self, factor: F) -> Self {
        Quadratic::<F, M>::mul_by_base(self, factor)
    }

    ghost embeds = { embedding F.field F.field_laws M.non_residue };
}

/// The field two below.
impl<F: Field, M: QuadraticModulus<F>, N: QuadraticModulus<Quadratic<F, M>>> ExtensionOf<F>
    for Quadratic<Quadratic<F, M>, N> {
    ghost use Rattle.ark_extensions.specs.Elements.{embedded_twice, extension};
    ghost use Rattle.ark_extensions.specs.ElementLaws.{embedding, embedding_through, extension_laws};

    ghost within = { embedded_twice F.field M.non_residue };

    #[inline(always)]
    fn embed(value: F) -> Self {
        Quadratic::<Quadratic<F, M>, N>::embed(Quadratic::<F, M>::embed(value))
    }

    fn as_base(&self) -> Option<F> {
        match Quadratic::<Quadratic<F, M>, N>::as_base(self) {
            Some(below) => Quadratic::<F, M>::as_base(&below),
            None => None,
        }
    }

    #[inline(always)]
    fn mul_by_base(self, factor: F) -> Self {
        Quadratic::new(
            Quadratic::<F, M>::mul_by_base(self.c0, factor),
            Quadratic::<F, M>::mul_by_base(self.c1, factor),
        )
    }

    ghost embeds = { embedding_through (embedding F.field F.field_laws M.non_residue)
        (embedding (extension F.field M.non_residue)
        (extension_laws F.field F.field_laws M.non_residue M.no_square) N.non_residue) };
}
