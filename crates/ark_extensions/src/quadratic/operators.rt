//! Sums, differences and products of elements, by their coefficients. Each operation asks for its own of the
//! field below alone, so that calls on a tower pass few impls.

ghost use Rattle.std.specs.Prelude.{◌≡◌};

use crate::modulus::QuadraticModulus;
use crate::quadratic::Quadratic;
use ark_traits::{Field, Zero};
use std::ops::{Add, AddAssign, Mul, MulAssign, Neg, Sub, SubAssign};

impl<F: From<u64> + Zero, M> From<u64> for Quadratic<F, M> {
    ghost from_gives = { λ n r. F.from_gives n r.c0 × (r.c1 ≡ F.zero) };

    fn from(value: u64) -> Self {
        Quadratic::new(F::from(value), F::zero())
    }
}

impl<F: Add<F, Output = F> + Copy, M: Copy> Add<Quadratic<F, M>> for Quadratic<F, M> {
    type Output = Quadratic<F, M>;

    ghost can_add = { λ a b. F.can_add a.c0 b.c0 × F.can_add a.c1 b.c1 };

    ghost add_gives = { λ a b r. F.add_gives a.c0 b.c0 r.c0 × F.add_gives a.c1 b.c1 r.c1 };

    #[inline(always)]
    fn add(self, rhs: Quadratic<F, M>) -> Quadratic<F, M> {
        Quadratic::new(self.c0 + rhs.c0, self.c1 + rhs.c1)
    }
}

impl<F: AddAssign<F> + Copy, M: Copy> AddAssign<Quadratic<F, M>> for Quadratic<F, M> {
    ghost can_add_assign = { λ a b. F.can_add_assign a.c0 b.c0 × F.can_add_assign a.c1 b.c1 };

    ghost add_assign_gives = { λ a b r. F.add_assign_gives a.c0 b.c0 r.c0
        × F.add_assign_gives a.c1 b.c1 r.c1 };

    #[inline(always)]
    fn add_assign(&mut self, rhs: Quadratic<F, M>) {
        self.c0 += rhs.c0;
        self.c1 += rhs.c1;
    }
}

impl<F: Sub<F, Output = F> + Copy, M: Copy> Sub<Quadratic<F, M>> for Quadratic<F, M> {
    type Output = Quadratic<F, M>;

    ghost can_sub = { λ a b. F.can_sub a.c0 b.c0 × F.can_sub a.c1 b.c1 };

    ghost sub_gives = { λ a b r. F.sub_gives a.c0 b.c0 r.c0 × F.sub_gives a.c1 b.c1 r.c1 };

    #[inline(always)]
    fn sub(self, rhs: Quadratic<F, M>) -> Quadratic<F, M> {
        Quadratic::new(self.c0 - rhs.c0, self.c1 - rhs.c1)
    }
}

impl<F: SubAssign<F> + Copy, M: Copy> SubAssign<Quadratic<F, M>> for Quadratic<F, M> {
    ghost can_sub_assign = { λ a b. F.can_sub_assign a.c0 b.c0 × F.can_sub_assign a.c1 b.c1 };

    ghost sub_assign_gives = { λ a b r. F.sub_assign_gives a.c0 b.c0 r.c0
        × F.sub_assign_gives a.c1 b.c1 r.c1 };

    #[inline(always)]
    fn sub_assign(&mut self, rhs: Quadratic<F, M>) {
        self.c0 -= rhs.c0;
        self.c1 -= rhs.c1;
    }
}

impl<F: Neg<Output = F> + Copy, M: Copy> Neg for Quadratic<F, M> {
    type Output = Quadratic<F, M>;

    ghost can_neg = { λ a. F.can_neg a.c0 × F.can_neg a.c1 };

    ghost neg_gives = { λ a r. F.neg_gives a.c0 r.c0 × F.neg_gives a.c1 r.c1 };

    #[inline(always)]
    fn neg(self) -> Quadratic<F, M> {
        Quadratic::new(-self.c0, -self.c1)
    }
}

impl<F: Field, M: QuadraticModulus<F>> Mul<Quadratic<F, M>> for Quadratic<F, M> {
    ghost use Rattle.ark_extensions.specs.Elements.{extension};

    type Output = Quadratic<F, M>;

    ghost mul_gives = { λ a b r. r ≡ (extension F.field M.non_residue).times a b };

    #[inline(always)]
    fn mul(self, rhs: Quadratic<F, M>) -> Quadratic<F, M> {
        M::product(&self, &rhs)
    }
}

impl<F: Field, M: QuadraticModulus<F>> MulAssign<Quadratic<F, M>> for Quadratic<F, M> {
    ghost use Rattle.ark_extensions.specs.Elements.{extension};

    ghost mul_assign_gives = { λ a b r. r ≡ (extension F.field M.non_residue).times a b };

    #[inline(always)]
    fn mul_assign(&mut self, rhs: Quadratic<F, M>) {
        *self = *self * rhs;
    }
}
