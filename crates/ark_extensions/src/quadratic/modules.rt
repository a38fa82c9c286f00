//! Elements as values of modules: over the field below, over the one below that, and over themselves.

ghost use Rattle.std.specs.Prelude.{◌≡◌};

use crate::modulus::QuadraticModulus;
use crate::quadratic::Quadratic;
use ark_traits::{DomainCoeff, Field};
use std::ops::MulAssign;

impl<F: MulAssign<F> + Copy, M: Copy> MulAssign<F> for Quadratic<F, M> {
    ghost can_mul_assign = { λ a f. F.can_mul_assign a.c0 f × F.can_mul_assign a.c1 f };

    ghost mul_assign_gives = { λ a f r. F.mul_assign_gives a.c0 f r.c0 × F.mul_assign_gives a.c1 f r.c1 };

    #[inline(always)]
    fn mul_assign(&mut self, rhs: F) {
        self.c0 *= rhs;
        self.c1 *= rhs;
    }
}

/// A pair of elements of the field below.
impl<F: Field, M: QuadraticModulus<F>> DomainCoeff<F> for Quadratic<F, M> {
    ghost use Rattle.std.proofs.Common.{ap, ◌∙◌};
    ghost use Rattle.ark_math.specs.Module.{itself, paired};
    ghost use Rattle.ark_math.proofs.Algebra.Groups.{itself_is_module, paired_is_module, pair_Decides};
    ghost use Rattle.ark_extensions.specs.Elements.{coefficients};
    ghost use Rattle.ark_extensions.specs.ElementLaws.{both_are};

    ghost Meaning = { F × F };

    ghost meaning = { coefficients };

    ghost group = { paired (itself F.field) (itself F.field) };

    ghost module_laws = { paired_is_module (itself_is_module F.field F.field_laws)
        (itself_is_module F.field F.field_laws) };

    ghost equality_meaning = { λ a b. pair_Decides (F.equality_law a.c0 b.c0) (F.equality_law a.c1 b.c1) };

    ghost clone_meaning = { λ a b e. ap coefficients e };

    ghost zero_meaning = { both_are F.zero_law F.zero_law };

    ghost can_add_meaning = { λ a b. (F.can_add_law a.c0 b.c0, F.can_add_law a.c1 b.c1) };

    ghost add_meaning = { λ a b r e. both_are (F.add_law a.c0 b.c0 r.c0 e.0)
        (F.add_law a.c1 b.c1 r.c1 e.1) };

    ghost can_sub_meaning = { λ a b. (F.can_sub_law a.c0 b.c0, F.can_sub_law a.c1 b.c1) };

    ghost sub_meaning = { λ a b r e. both_are (F.sub_law a.c0 b.c0 r.c0 e.0)
        (F.sub_law a.c1 b.c1 r.c1 e.1) };

    ghost can_add_assign_meaning = { λ a b. (
      F.can_add_assign_law a.c0 b.c0,
      F.can_add_assign_law a.c1 b.c1,
    ) };

    ghost add_assign_meaning = { λ a b r e. both_are (F.add_assign_law a.c0 b.c0 r.c0 e.0)
        (F.add_assign_law a.c1 b.c1 r.c1 e.1) };

    ghost can_sub_assign_meaning = { λ a b. (
      F.can_sub_assign_law a.c0 b.c0,
      F.can_sub_assign_law a.c1 b.c1,
    ) };

    ghost sub_assign_meaning = { λ a b r e. both_are (F.sub_assign_law a.c0 b.c0 r.c0 e.0)
        (F.sub_assign_law a.c1 b.c1 r.c1 e.1) };

    ghost can_mul_assign_meaning = { λ a f. (F.can_mul_assign_law a.c0 f, F.can_mul_assign_law a.c1 f) };

    ghost mul_assign_meaning = { λ a f r e. both_are
        (F.mul_assign_law a.c0 f r.c0 e.0 ∙ F.field_laws.times_comm a.c0 f)
        (F.mul_assign_law a.c1 f r.c1 e.1 ∙ F.field_laws.times_comm a.c1 f) };
}

impl<F: MulAssign<F> + Copy, M: Copy, N: Copy> MulAssign<F> for Quadratic<Quadratic<F, M>, N> {
    ghost can_mul_assign = { λ a f. (F.can_mul_assign a.c0.c0 f × F.can_mul_assign a.c0.c1 f)
        × (F.can_mul_assign a.c1.c0 f × F.can_mul_assign a.c1.c1 f) };

    ghost mul_assign_gives = { λ a f r.
        (F.mul_assign_gives a.c0.c0 f r.c0.c0 × F.mul_assign_gives a.c0.c1 f r.c0.c1)
        × (F.mul_assign_gives a.c1.c0 f r.c1.c0 × F.mul_assign_gives a.c1.c1 f r.c1.c1) };

    #[inline(always)]
    fn mul_assign(&mut self, rhs: F) {
        self.c0 *= rhs;
        self.c1 *= rhs;
    }
}

/// Two pairs of elements of the field two below.
impl<F: Field, M: QuadraticModulus<F>, N: QuadraticModulus<Quadratic<F, M>>> DomainCoeff<F>
    for Quadratic<Quadratic<F, M>, N> {
    ghost use Rattle.std.proofs.Common.{ap, ◌∙◌};
    ghost use Rattle.ark_extensions.specs.Elements.{four_coefficients, in_fours};
    ghost use Rattle.ark_extensions.specs.ElementLaws.{both_are, fours_are_module, equal_fours};

    ghost Meaning = { (F × F) × (F × F) };

    ghost meaning = { four_coefficients };

    ghost group = { in_fours F.field };

    ghost module_laws = { fours_are_module F.field F.field_laws };

    ghost equality_meaning = { equal_fours F.eq F.equality_law };

    ghost clone_meaning = { λ a b e. ap four_coefficients e };

    ghost zero_meaning = { both_are (both_are F.zero_law F.zero_law) (both_are F.zero_law F.zero_law) };

    ghost can_add_meaning = { λ a b. (
      (F.can_add_law a.c0.c0 b.c0.c0, F.can_add_law a.c0.c1 b.c0.c1),
      (F.can_add_law a.c1.c0 b.c1.c0, F.can_add_law a.c1.c1 b.c1.c1),
    ) };

    ghost add_meaning = { λ a b r e. both_are
        (both_are (F.add_law a.c0.c0 b.c0.c0 r.c0.c0 e.0.0)
        (F.add_law a.c0.c1 b.c0.c1 r.c0.c1 e.0.1))
        (both_are (F.add_law a.c1.c0 b.c1.c0 r.c1.c0 e.1.0)
        (F.add_law a.c1.c1 b.c1.c1 r.c1.c1 e.1.1)) };

    ghost can_sub_meaning = { λ a b. (
      (F.can_sub_law a.c0.c0 b.c0.c0, F.can_sub_law a.c0.c1 b.c0.c1),
      (F.can_sub_law a.c1.c0 b.c1.c0, F.can_sub_law a.c1.c1 b.c1.c1),
    ) };

    ghost sub_meaning = { λ a b r e. both_are
        (both_are (F.sub_law a.c0.c0 b.c0.c0 r.c0.c0 e.0.0)
        (F.sub_law a.c0.c1 b.c0.c1 r.c0.c1 e.0.1))
        (both_are (F.sub_law a.c1.c0 b.c1.c0 r.c1.c0 e.1.0)
        (F.sub_law a.c1.c1 b.c1.c1 r.c1.c1 e.1.1)) };

    ghost can_add_assign_meaning = { λ a b. (
      (F.can_add_assign_law a.c0.c0 b.c0.c0, F.can_add_assign_law a.c0.c1 b.c0.c1),
      (F.can_add_assign_law a.c1.c0 b.c1.c0, F.can_add_assign_law a.c1.c1 b.c1.c1),
    ) };

    ghost add_assign_meaning = { λ a b r e. both_are
        (both_are (F.add_assign_law a.c0.c0 b.c0.c0 r.c0.c0 e.0.0)
        (F.add_assign_law a.c0.c1 b.c0.c1 r.c0.c1 e.0.1))
        (both_are (F.add_assign_law a.c1.c0 b.c1.c0 r.c1.c0 e.1.0)
        (F.add_assign_law a.c1.c1 b.c1.c1 r.c1.c1 e.1.1)) };

    ghost can_sub_assign_meaning = { λ a b. (
      (F.can_sub_assign_law a.c0.c0 b.c0.c0, F.can_sub_assign_law a.c0.c1 b.c0.c1),
      (F.can_sub_assign_law a.c1.c0 b.c1.c0, F.can_sub_assign_law a.c1.c1 b.c1.c1),
    ) };

    ghost sub_assign_meaning = { λ a b r e. both_are
        (both_are (F.sub_assign_law a.c0.c0 b.c0.c0 r.c0.c0 e.0.0)
        (F.sub_assign_law a.c0.c1 b.c0.c1 r.c0.c1 e.0.1))
        (both_are (F.sub_assign_law a.c1.c0 b.c1.c0 r.c1.c0 e.1.0)
        (F.sub_assign_law a.c1.c1 b.c1.c1 r.c1.c1 e.1.1)) };

    ghost can_mul_assign_meaning = { λ a f. (
      (F.can_mul_assign_law a.c0.c0 f, F.can_mul_assign_law a.c0.c1 f),
      (F.can_mul_assign_law a.c1.c0 f, F.can_mul_assign_law a.c1.c1 f),
    ) };

    ghost mul_assign_meaning = { λ a f r e. both_are
        (both_are (F.mul_assign_law a.c0.c0 f r.c0.c0 e.0.0 ∙ F.field_laws.times_comm a.c0.c0 f)
        (F.mul_assign_law a.c0.c1 f r.c0.c1 e.0.1 ∙ F.field_laws.times_comm a.c0.c1 f))
        (both_are (F.mul_assign_law a.c1.c0 f r.c1.c0 e.1.0 ∙ F.field_laws.times_comm a.c1.c0 f)
        (F.mul_assign_law a.c1.c1 f r.c1.c1 e.1.1 ∙ F.field_laws.times_comm a.c1.c1 f)) };
}

/// The extension itself.
impl<F: Field, M: QuadraticModulus<F>> DomainCoeff<Quadratic<F, M>> for Quadratic<F, M> {
    ghost use Rattle.std.proofs.Common.{◌∙◌};
    ghost use Rattle.ark_math.specs.Module.{itself};
    ghost use Rattle.ark_math.proofs.Algebra.Groups.{itself_is_module};
    ghost use Rattle.ark_extensions.specs.Elements.{extension};
    ghost use Rattle.ark_extensions.specs.ElementLaws.{extension_laws, equal_elements, is_pair, pair_is};

    ghost Meaning = { Self };

    ghost meaning = { λ x. x };

    ghost group = { itself (extension F.field M.non_residue) };

    ghost module_laws = { itself_is_module (extension F.field M.non_residue)
        (extension_laws F.field F.field_laws M.non_residue M.no_square) };

    ghost equality_meaning = { equal_elements F.eq F.equality_law };

    ghost clone_meaning = { λ a b e. e };

    ghost zero_meaning = { pair_is F.zero_law F.zero_law };

    ghost can_add_meaning = { λ a b. (F.can_add_law a.c0 b.c0, F.can_add_law a.c1 b.c1) };

    ghost add_meaning = { λ a b r e. is_pair r (F.add_law a.c0 b.c0 r.c0 e.0)
        (F.add_law a.c1 b.c1 r.c1 e.1) };

    ghost can_sub_meaning = { λ a b. (F.can_sub_law a.c0 b.c0, F.can_sub_law a.c1 b.c1) };

    ghost sub_meaning = { λ a b r e. is_pair r (F.sub_law a.c0 b.c0 r.c0 e.0)
        (F.sub_law a.c1 b.c1 r.c1 e.1) };

    ghost can_add_assign_meaning = { λ a b. (
      F.can_add_assign_law a.c0 b.c0,
      F.can_add_assign_law a.c1 b.c1,
    ) };

    ghost add_assign_meaning = { λ a b r e. is_pair r (F.add_assign_law a.c0 b.c0 r.c0 e.0)
        (F.add_assign_law a.c1 b.c1 r.c1 e.1) };

    ghost can_sub_assign_meaning = { λ a b. (
      F.can_sub_assign_law a.c0 b.c0,
      F.can_sub_assign_law a.c1 b.c1,
    ) };

    ghost sub_assign_meaning = { λ a b r e. is_pair r (F.sub_assign_law a.c0 b.c0 r.c0 e.0)
        (F.sub_assign_law a.c1 b.c1 r.c1 e.1) };

    ghost can_mul_assign_meaning = { λ a f. tt };

    ghost mul_assign_meaning = { λ a f r e. e
        ∙ (extension_laws F.field F.field_laws M.non_residue M.no_square).times_comm a f };
}
