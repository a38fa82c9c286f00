//! A module of one's own: the points of a plane over a field.

ghost use Rattle.std.specs.Prelude.{◌≡◌, map, IfOk};
ghost use Rattle.ark_math.specs.Field.{minus};
ghost use Rattle.ark_math.specs.Transform.{transform};
ghost use Rattle.examples.specs.Plane.{coordinates, plane};

use ark_base::{DomainCoeff, FftField, Field, PolyError, Zero};
use ark_poly::EvaluationDomain;
use std::alloc::{AllocError, Global};
use std::ops::{Add, AddAssign, MulAssign, Sub, SubAssign};

/// A point of the plane over a field.
#[derive_where(Copy, Debug, PartialEq; F)]
pub struct Point<F: Field> {
    pub x: F,
    pub y: F,
}

impl<F: Field> Clone for Point<F> {
    ghost is_clone = { λ a b. b ≡ a };

    ghost is_infallible = { λ _. Unit {0} };

    fn clone(&self) -> Result<Self, AllocError> {
        Ok(*self)
    }
}

impl<F: Field> Zero for Point<F> {
    ghost zero = { record { x = F.field.zero; y = F.field.zero } };

    fn zero() -> Self {
        Point {
            x: F::zero(),
            y: F::zero(),
        }
    }

    fn is_zero(&self) -> bool {
        *self == Self::zero()
    }
}

impl<F: Field> Add<Point<F>> for Point<F> {
    type Output = Point<F>;

    ghost add_gives = { λ a b r. r ≡ record { x = F.field.plus a.x b.x; y = F.field.plus a.y b.y } };

    fn add(self, rhs: Point<F>) -> Point<F> {
        Point {
            x: self.x + rhs.x,
            y: self.y + rhs.y,
        }
    }
}

impl<F: Field> Sub<Point<F>> for Point<F> {
    type Output = Point<F>;

    ghost sub_gives = { λ a b r. r ≡ record { x = minus F.field a.x b.x; y = minus F.field a.y b.y } };

    fn sub(self, rhs: Point<F>) -> Point<F> {
        Point {
            x: self.x - rhs.x,
            y: self.y - rhs.y,
        }
    }
}

impl<F: Field> AddAssign<Point<F>> for Point<F> {
    ghost add_assign_gives = { λ a b r. r ≡ record { x = F.field.plus a.x b.x; y = F.field.plus a.y b.y } };

    fn add_assign(&mut self, rhs: Point<F>) {
        *self = *self + rhs;
    }
}

impl<F: Field> SubAssign<Point<F>> for Point<F> {
    ghost sub_assign_gives = { λ a b r. r ≡ record { x = minus F.field a.x b.x; y = minus F.field a.y b.y } };

    fn sub_assign(&mut self, rhs: Point<F>) {
        *self = *self - rhs;
    }
}

impl<F: Field> MulAssign<F> for Point<F> {
    ghost mul_assign_gives = { λ a f r. r ≡ record { x = F.field.times f a.x; y = F.field.times f a.y } };

    fn mul_assign(&mut self, factor: F) {
        self.x = factor * self.x;
        self.y = factor * self.y;
    }
}

impl<F: Field> DomainCoeff<F> for Point<F> {
    ghost use Rattle.std.proofs.Common.{refl, ap};
    ghost use Rattle.ark_math.proofs.Algebra.Groups.{itself_is_module, paired_is_module, pair_Decides};

    ghost Meaning = { F × F };

    ghost meaning = { coordinates };

    ghost group = { plane F.field };

    ghost module_laws = { paired_is_module (itself_is_module F.field F.field_laws)
        (itself_is_module F.field F.field_laws) };

    ghost equality_meaning = { λ a b. pair_Decides (F.equality_law a.x b.x) (F.equality_law a.y b.y) };

    ghost clone_meaning = { λ a b e. ap coordinates e };

    ghost zero_meaning = { refl };

    ghost can_add_meaning = { λ a b. tt };

    ghost add_meaning = { λ a b r e. ap coordinates e };

    ghost can_sub_meaning = { λ a b. tt };

    ghost sub_meaning = { λ a b r e. ap coordinates e };

    ghost can_add_assign_meaning = { λ a b. tt };

    ghost add_assign_meaning = { λ a b r e. ap coordinates e };

    ghost can_sub_assign_meaning = { λ a b. tt };

    ghost sub_assign_meaning = { λ a b r e. ap coordinates e };

    ghost can_mul_assign_meaning = { λ a f. tt };

    ghost mul_assign_meaning = { λ a f r e. ap coordinates e };
}

/// The points of the curve with these coefficients at the elements of a domain of any kind.
pub fn points_of_curve<F: FftField, D: EvaluationDomain<F>>(
    alloc: Global,
    domain: &D,
    coeffs: &[Point<F>],
) -> Result<Vec<Point<F>>, PolyError>
    ensures { IfOk result (λ points. map coordinates points.items
        ≡ transform F.field (plane F.field) (D.domain domain.now) (map coordinates coeffs.now)) }
{
    domain.fft(alloc, coeffs)
}
