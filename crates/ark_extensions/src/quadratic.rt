//! The quadratic extension of a field, by the coefficients of 1 and x.

ghost use Rattle.std.specs.Prelude.{◌≡◌};

mod base;
mod bytes;
mod comparisons;
mod field;
mod modules;
mod operators;
mod roots;

use crate::modulus::QuadraticModulus;
use ark_traits::{ConstantZero, One, Zero};
use std::alloc::AllocError;
use std::default::Default;
use std::marker::PhantomData;

/// The element c0 + c1 x of F[x]/(x^2 - w), where `w` is `M`'s.
#[derive_where(Copy; F, M)]
#[derive_where(PartialEq, Eq, Hash; F)]
pub struct Quadratic<F, M> {
    /// The coefficient of 1.
    pub c0: F,
    /// The coefficient of x.
    pub c1: F,
    #[derive_where(skip(EqHashOrd))]
    marker: PhantomData<M>,
}

impl<F: Copy, M: Copy> Clone for Quadratic<F, M> {
    ghost is_clone = { λ a b. b ≡ a };

    ghost is_infallible = { λ _. Unit {0} };

    fn clone(&self) -> Result<Self, AllocError> {
        Ok(*self)
    }
}

impl<F, M> Quadratic<F, M> {
    ghost use Rattle.ark_extensions.specs.Elements.{coefficients};

    /// The element c0 + c1 x.
    #[inline(always)]
    pub const fn new(c0: F, c1: F) -> Self
        ensures { coefficients result ≡ (c0, c1) }
    {
        Quadratic {
            c0,
            c1,
            marker: PhantomData,
        }
    }
}

impl<F: Zero, M> Zero for Quadratic<F, M> {
    ghost use Rattle.ark_extensions.specs.Elements.{element};

    ghost zero = { element (F.zero, F.zero) };

    fn zero() -> Self {
        Quadratic::new(F::zero(), F::zero())
    }

    fn is_zero(&self) -> bool {
        self.c0.is_zero() && self.c1.is_zero()
    }
}

impl<F: ConstantZero, M: QuadraticModulus<F>> ConstantZero for Quadratic<F, M> {
    ghost use Rattle.std.specs.Prelude.{refl};
    ghost use Rattle.ark_extensions.specs.Elements.{extension};

    ghost ZERO = { (extension F.field M.non_residue).zero };

    const ZERO: Self = Quadratic::<F, M>::new(F::ZERO, F::ZERO);

    ghost zero_constant = { refl };
}

impl<F: Zero + One, M> One for Quadratic<F, M> {
    ghost use Rattle.ark_extensions.specs.Elements.{element};

    ghost one = { element (F.one, F.zero) };

    fn one() -> Self {
        Quadratic::new(F::one(), F::zero())
    }

    fn is_one(&self) -> bool {
        self.c0.is_one() && self.c1.is_zero()
    }
}

impl<F: Default, M> Default for Quadratic<F, M> {
    ghost is_default = { λ x. F.is_default x.c0 × F.is_default x.c1 };

    fn default() -> Self {
        Quadratic::new(F::default(), F::default())
    }
}
