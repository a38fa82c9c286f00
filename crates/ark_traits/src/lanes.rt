//! Two elements side by side.

ghost use Rattle.std.specs.Prelude.{◌≡◌, ℕ, ◌<◌};
ghost use Rattle.ark_math.specs.Field.{minus};
ghost use Rattle.ark_math.specs.Module.{itself, paired};

use crate::field::{DomainCoeff, Field, Zero};
use std::alloc::AllocError;
use std::ops::{Add, AddAssign, MulAssign, Sub, SubAssign};

/// Two elements of a field, which operations take lane by lane: a module over the field, of pairs.
#[derive_where(Copy, Debug, PartialEq, Eq, Hash; F)]
pub struct Lanes<F: Field> {
    first: F,
    second: F,
}

impl<F: Field> Clone for Lanes<F> {
    ghost is_clone = { λ a b. b ≡ a };

    ghost is_infallible = { λ _. Unit {0} };

    fn clone(&self) -> Result<Self, AllocError> {
        Ok(*self)
    }
}

impl<F: Field> Lanes<F> {
    ghost use Rattle.ark_traits.specs.Lanes.{both_lanes};

    /// The two elements.
    pub fn new(first: F, second: F) -> Self
        ensures { both_lanes result ≡ (first, second) }
    {
        Lanes { first, second }
    }

    /// The element of lane 0 or 1.
    pub fn get(&self, i: usize) -> F
        requires { i < 2 }
        ensures first { i ≡ 0 → result ≡ (both_lanes self.now).0 }
        ensures second { i ≡ 1 → result ≡ (both_lanes self.now).1 }
    {
        if i == 0 { self.first } else { self.second }
    }
}

impl<F: Field> Zero for Lanes<F> {
    ghost zero = { record { first = F.field.zero; second = F.field.zero } };

    fn zero() -> Self {
        Lanes {
            first: F::zero(),
            second: F::zero(),
        }
    }

    fn is_zero(&self) -> bool {
        *self == Self::zero()
    }
}

impl<F: Field> Add<Lanes<F>> for Lanes<F> {
    type Output = Lanes<F>;

    ghost add_gives = { λ a b r. r ≡ record {
      first = F.field.plus a.first b.first;
      second = F.field.plus a.second b.second;
    } };

    fn add(self, rhs: Lanes<F>) -> Lanes<F> {
        Lanes {
            first: self.first + rhs.first,
            second: self.second + rhs.second,
        }
    }
}

impl<F: Field> Sub<Lanes<F>> for Lanes<F> {
    type Output = Lanes<F>;

    ghost sub_gives = { λ a b r. r ≡ record {
      first = minus F.field a.first b.first;
      second = minus F.field a.second b.second;
    } };

    fn sub(self, rhs: Lanes<F>) -> Lanes<F> {
        Lanes {
            first: self.first - rhs.first,
            second: self.second - rhs.second,
        }
    }
}

impl<F: Field> AddAssign<Lanes<F>> for Lanes<F> {
    ghost add_assign_gives = { λ a b r. r ≡ record {
      first = F.field.plus a.first b.first;
      second = F.field.plus a.second b.second;
    } };

    fn add_assign(&mut self, rhs: Lanes<F>) {
        *self = *self + rhs;
    }
}

impl<F: Field> SubAssign<Lanes<F>> for Lanes<F> {
    ghost sub_assign_gives = { λ a b r. r ≡ record {
      first = minus F.field a.first b.first;
      second = minus F.field a.second b.second;
    } };

    fn sub_assign(&mut self, rhs: Lanes<F>) {
        *self = *self - rhs;
    }
}

impl<F: Field> MulAssign<F> for Lanes<F> {
    ghost mul_assign_gives = { λ a f r. r ≡ record {
      first = F.field.times f a.first;
      second = F.field.times f a.second;
    } };

    fn mul_assign(&mut self, factor: F) {
        self.first = factor * self.first;
        self.second = factor * self.second;
    }
}

impl<F: Field> DomainCoeff<F> for Lanes<F> {
    ghost use Rattle.std.proofs.Common.{refl, ap};
    ghost use Rattle.ark_math.proofs.Algebra.Groups.{itself_is_module, paired_is_module, pair_Decides};
    ghost use Rattle.ark_traits.specs.Lanes.{both_lanes};

    ghost Meaning = { F × F };

    ghost meaning = { both_lanes };

    ghost group = { paired (itself F.field) (itself F.field) };

    ghost module_laws = { paired_is_module (itself_is_module F.field F.field_laws)
        (itself_is_module F.field F.field_laws) };

    ghost equality_meaning = { λ a b.
        pair_Decides (F.equality_law a.first b.first) (F.equality_law a.second b.second) };

    ghost clone_meaning = { λ a b e. ap both_lanes e };

    ghost zero_meaning = { refl };

    ghost can_add_meaning = { λ a b. tt };

    ghost add_meaning = { λ a b r e. ap both_lanes e };

    ghost can_sub_meaning = { λ a b. tt };

    ghost sub_meaning = { λ a b r e. ap both_lanes e };

    ghost can_add_assign_meaning = { λ a b. tt };

    ghost add_assign_meaning = { λ a b r e. ap both_lanes e };

    ghost can_sub_assign_meaning = { λ a b. tt };

    ghost sub_assign_meaning = { λ a b r e. ap both_lanes e };

    ghost can_mul_assign_meaning = { λ a f. tt };

    ghost mul_assign_meaning = { λ a f r e. ap both_lanes e };
}
