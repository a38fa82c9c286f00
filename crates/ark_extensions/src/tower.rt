//! A tower of two quadratic extensions, which has degree four.

ghost use Rattle.std.specs.Prelude.{◌≡◌};

use crate::modulus::QuadraticModulus;
use crate::quadratic::Quadratic;
use ark_traits::Field;
use std::marker::PhantomData;

/// A `w` over a field in which minus one is a square. Then the root x of x^2 - w is no square either.
pub trait QuarticModulus<F: Field>: QuadraticModulus<F> {
    ghost minus_one: { (i : F) × (F.field.times i i ≡ F.field.negated F.field.one) };
}

/// The root x of `M`'s x^2 - w, over `Quadratic<F, M>`.
#[derive(Clone, Copy)]
pub struct RootModulus<M> {
    marker: PhantomData<M>,
}

/// F[y]/(y^4 - w), as the extension by x, whose square is `w`, and by y, whose square is x. The coefficients
/// of 1, y, y^2 and y^3 are `c0.c0`, `c1.c0`, `c0.c1` and `c1.c1`.
pub type Quartic<F, M> = Quadratic<Quadratic<F, M>, RootModulus<M>>;

impl<F: Field, M: QuarticModulus<F>> QuadraticModulus<Quadratic<F, M>> for RootModulus<M> {
    ghost use Rattle.ark_extensions.specs.Elements.{root};
    ghost use Rattle.ark_extensions.specs.ElementLaws.{root_no_square};

    ghost non_residue = { root F.field };

    fn non_residue() -> Quadratic<F, M> {
        Quadratic::new(F::zero(), F::one())
    }

    /// The coefficients trade places, and that of x turns into one of x^2, which is `w`.
    #[inline(always)]
    fn times_non_residue(element: Quadratic<F, M>) -> Quadratic<F, M> {
        Quadratic::new(M::times_non_residue(element.c1), element.c0)
    }

    /// By the four products of coefficients, of which two are summed at a time.
    #[inline(always)]
    fn product(
        a: &Quadratic<Quadratic<F, M>, Self>,
        b: &Quadratic<Quadratic<F, M>, Self>,
    ) -> Quadratic<Quadratic<F, M>, Self> {
        let turned = Self::times_non_residue(a.c1);
        Quadratic::new(
            M::sum_of_products(&a.c0, &b.c0, &turned, &b.c1),
            M::sum_of_products(&a.c0, &b.c1, &a.c1, &b.c0),
        )
    }

    ghost no_square = { root_no_square F.field F.field_laws M.non_residue M.no_square
        M.minus_one.0 M.minus_one.1 };
}
