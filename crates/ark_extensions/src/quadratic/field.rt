//! The extension as a field.

ghost use Rattle.std.specs.Prelude.{◌≡◌};
ghost use Rattle.std.proofs.Common.{◌∙◌};

use crate::modulus::QuadraticModulus;
use crate::quadratic::Quadratic;
use ark_traits::Field;
use rand::Rng;

impl<F: Field, M: QuadraticModulus<F>> Quadratic<F, M> {
    ghost use Rattle.ark_extensions.specs.Quadratics.{norm};
    ghost use Rattle.ark_extensions.specs.Elements.{coefficients};

    /// The product of c0 + c1 x and c0 - c1 x, which is c0^2 - w c1^2.
    pub fn norm(&self) -> F
        ensures { result ≡ norm F.field M.non_residue (coefficients self.now) }
    {
        self.c0 * self.c0 - M::times_non_residue(self.c1 * self.c1)
    }
}

impl<F: Field, M: QuadraticModulus<F>> Field for Quadratic<F, M> {
    ghost use Rattle.std.specs.Prelude.{◌+◌};
    ghost use Rattle.rand_core.specs.Stream.{Stream};
    ghost use Rattle.ark_extensions.specs.Elements.{extension};
    ghost use Rattle.ark_extensions.specs.ElementLaws.{extension_laws, equal_elements, natural_embedded};
    ghost use Rattle.ark_extensions.specs.ElementLaws.{is_pair, pair_is};
    ghost use Rattle.ark_extensions.specs.ElementBytes.{in_bytes_elements, in_bytes_alike};

    ghost field = { extension F.field M.non_residue };

    ghost element_size = { F.element_size + F.element_size };

    ghost draws = { λ s x t. (between : Stream) × F.draws s x.c0 between × F.draws between x.c1 t };

    /// By the inverse of the norm: (c0 - c1 x) / (c0^2 - w c1^2).
    fn inverse(&self) -> Option<Self> {
        let inverse = self.norm().inverse()?;
        Some(Quadratic::new(self.c0 * inverse, -(self.c1 * inverse)))
    }

    /// The coefficients of 1 and x, drawn in this order.
    fn rand<R: Rng>(rng: &mut R) -> Self {
        let c0 = F::rand(rng);
        let c1 = F::rand(rng);
        Quadratic::new(c0, c1)
    }

    ghost field_laws = { extension_laws F.field F.field_laws M.non_residue M.no_square };

    ghost zero_law = { pair_is F.zero_law F.zero_law };

    ghost one_law = { pair_is F.one_law F.zero_law };

    ghost equality_law = { equal_elements F.eq F.equality_law };

    ghost clone_law = { λ a b e. e };

    ghost default_law = { λ a e. is_pair a (F.default_law a.c0 e.0) (F.default_law a.c1 e.1) };

    ghost from_law = { λ n r fits e. natural_embedded F.field F.field_laws M.non_residue n r
        (is_pair r (F.from_law n r.c0 fits e.0) (e.1 ∙ F.zero_law)) };

    ghost can_add_law = { λ a b. (F.can_add_law a.c0 b.c0, F.can_add_law a.c1 b.c1) };

    ghost add_law = { λ a b r e. is_pair r (F.add_law a.c0 b.c0 r.c0 e.0)
        (F.add_law a.c1 b.c1 r.c1 e.1) };

    ghost can_sub_law = { λ a b. (F.can_sub_law a.c0 b.c0, F.can_sub_law a.c1 b.c1) };

    ghost sub_law = { λ a b r e. is_pair r (F.sub_law a.c0 b.c0 r.c0 e.0)
        (F.sub_law a.c1 b.c1 r.c1 e.1) };

    ghost can_mul_law = { λ a b. tt };

    ghost mul_law = { λ a b r e. e };

    ghost can_add_assign_law = { λ a b. (F.can_add_assign_law a.c0 b.c0, F.can_add_assign_law a.c1 b.c1) };

    ghost add_assign_law = { λ a b r e. is_pair r (F.add_assign_law a.c0 b.c0 r.c0 e.0)
        (F.add_assign_law a.c1 b.c1 r.c1 e.1) };

    ghost can_sub_assign_law = { λ a b. (F.can_sub_assign_law a.c0 b.c0, F.can_sub_assign_law a.c1 b.c1) };

    ghost sub_assign_law = { λ a b r e. is_pair r (F.sub_assign_law a.c0 b.c0 r.c0 e.0)
        (F.sub_assign_law a.c1 b.c1 r.c1 e.1) };

    ghost can_mul_assign_law = { λ a b. tt };

    ghost mul_assign_law = { λ a b r e. e };

    ghost can_neg_law = { λ a. (F.can_neg_law a.c0, F.can_neg_law a.c1) };

    ghost neg_law = { λ a r e. is_pair r (F.neg_law a.c0 r.c0 e.0) (F.neg_law a.c1 r.c1 e.1) };

    ghost elements_law = { λ mode. in_bytes_elements (F.format mode) F.element_size (F.format_law mode)
        (F.elements_law mode) };

    ghost modes_law = { λ mode other. in_bytes_alike (F.format mode) (F.format other)
        (F.modes_law mode other) };

    ghost memory_law = { F.memory_law };
}
