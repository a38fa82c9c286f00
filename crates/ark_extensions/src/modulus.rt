//! What a quadratic extension is by.

ghost use Rattle.std.specs.Prelude.{◌≡◌};
ghost use Rattle.ark_extensions.specs.Elements.{extension};
ghost use Rattle.ark_extensions.specs.Quadratics.{IsNonResidue};

use crate::quadratic::Quadratic;
use ark_traits::Field;

/// An element `w` of a field that is no square, so that x^2 - w has no root in the field. Products in the
/// extension belong to the modulus, so that a field may have them by a way of its own.
pub trait QuadraticModulus<F: Field>: Copy {
    ghost non_residue: { F };

    /// `w`.
    fn non_residue() -> F
        ensures { result ≡ non_residue };

    /// The product of `w` and an element.
    fn times_non_residue(element: F) -> F
        ensures { result ≡ F.field.times non_residue element }
    {
        Self::non_residue() * element
    }

    /// The product in the extension. By default by Karatsuba's three: the middle one is that of the sums, less
    /// both others.
    #[inline(always)]
    fn product(a: &Quadratic<F, Self>, b: &Quadratic<F, Self>) -> Quadratic<F, Self>
        ensures { result ≡ (extension F.field non_residue).times a.now b.now }
    {
        let low = a.c0 * b.c0;
        let high = a.c1 * b.c1;
        let sums = (a.c0 + a.c1) * (b.c0 + b.c1);
        Quadratic::new(low + Self::times_non_residue(high), sums - low - high)
    }

    /// The sum `a * b + c * d` in the extension.
    #[inline(always)]
    fn sum_of_products(
        a: &Quadratic<F, Self>,
        b: &Quadratic<F, Self>,
        c: &Quadratic<F, Self>,
        d: &Quadratic<F, Self>,
    ) -> Quadratic<F, Self>
        ensures { result ≡ (extension F.field non_residue).plus
            ((extension F.field non_residue).times a.now b.now)
            ((extension F.field non_residue).times c.now d.now) }
    {
        let (first, second) = (Self::product(a, b), Self::product(c, d));
        Quadratic::new(first.c0 + second.c0, first.c1 + second.c1)
    }

    ghost no_square: { IsNonResidue F.field non_residue };
}
