//! Fields that a field lies in.

ghost use Rattle.std.specs.Prelude.{◌≡◌, ◌≢◌, ◌↔◌, IfSome, IsNone};
ghost use Rattle.ark_math.specs.Field.{IsFieldEmbedding};

use crate::field::Field;

/// A field that `F` lies in: `embed` keeps zero, one, sums, products and negatives, and is one to one.
pub trait ExtensionOf<F: Field>: Field {
    ghost within: { F → Self };

    /// An element of `F`, as one of this field.
    fn embed(value: F) -> Self
        ensures { result ≡ within value };

    /// The element of `F` that this one is, and `None` exactly where it is none.
    fn as_base(&self) -> Option<F>
        ensures some { IfSome result (λ a. self.now ≡ within a) }
        ensures none { IsNone result ↔ ((a : F) → self.now ≢ within a) };

    /// The product by an element of `F`, by fewer products of `F` than that by any element takes.
    fn mul_by_base(self, factor: F) -> Self
        ensures { result ≡ Self.field.times (within factor) self };

    ghost embeds: { IsFieldEmbedding F.field Self.field within };
}

/// A field lies in itself.
impl<F: Field> ExtensionOf<F> for F {
    ghost use Rattle.std.proofs.Common.{refl};

    ghost within = { λ x. x };

    #[inline(always)]
    fn embed(value: F) -> Self {
        value
    }

    fn as_base(&self) -> Option<F> {
        Some(*self)
    }

    #[inline(always)]
    fn mul_by_base(self, factor: F) -> Self {
        factor * self
    }

    ghost embeds = { record {
      one_to_one = λ a b e. e;
      zero_kept = refl;
      one_kept = refl;
      plus_kept = λ a b. refl;
      times_kept = λ a b. refl;
      negated_kept = λ a. refl;
    } };
}
