//! A module of one value and no size.

ghost use Rattle.std.specs.Prelude.{refl};
ghost use Rattle.test_types.specs.Nothing.{nothing, nothing_laws};

use ark_base::{DomainCoeff, Field, Zero};
use std::ops::{Add, AddAssign, MulAssign, Sub, SubAssign};

/// The only value of the module of one value: zero.
#[derive(Clone, Copy, Debug, PartialEq, Eq)]
pub struct Nothing;

impl Zero for Nothing {
    ghost zero = { record {} };

    fn zero() -> Nothing {
        Nothing
    }

    fn is_zero(&self) -> bool {
        true
    }
}

impl Add<Nothing> for Nothing {
    type Output = Nothing;

    fn add(self, _rhs: Nothing) -> Nothing {
        Nothing
    }
}

impl Sub<Nothing> for Nothing {
    type Output = Nothing;

    fn sub(self, _rhs: Nothing) -> Nothing {
        Nothing
    }
}

impl AddAssign<Nothing> for Nothing {
    fn add_assign(&mut self, _rhs: Nothing) {}
}

impl SubAssign<Nothing> for Nothing {
    fn sub_assign(&mut self, _rhs: Nothing) {}
}

impl<F: Field> MulAssign<F> for Nothing {
    fn mul_assign(&mut self, _factor: F) {}
}

impl<F: Field> DomainCoeff<F> for Nothing {
    ghost Meaning = { Unit {0} };

    ghost meaning = { λ _. tt };

    ghost group = { nothing };

    ghost module_laws = { nothing_laws };

    ghost equality_meaning = { λ a b. ((λ t. refl), (λ e. refl)) };

    ghost clone_meaning = { λ a b e. refl };

    ghost zero_meaning = { refl };

    ghost can_add_meaning = { λ a b. tt };

    ghost add_meaning = { λ a b r e. refl };

    ghost can_sub_meaning = { λ a b. tt };

    ghost sub_meaning = { λ a b r e. refl };

    ghost can_add_assign_meaning = { λ a b. tt };

    ghost add_assign_meaning = { λ a b r e. refl };

    ghost can_sub_assign_meaning = { λ a b. tt };

    ghost sub_assign_meaning = { λ a b r e. refl };

    ghost can_mul_assign_meaning = { λ a f. tt };

    ghost mul_assign_meaning = { λ a f r e. refl };
}
