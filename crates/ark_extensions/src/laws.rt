//! What extensions are, stated as contracts of functions that callers may cite: they promise nothing but
//! their contracts.

ghost use Rattle.std.specs.Prelude.{◌≡◌};
ghost use Rattle.ark_math.specs.Field.{power};
ghost use Rattle.ark_math.specs.Field.{IsFieldEmbedding};
ghost use Rattle.ark_extensions.specs.Elements.{embedded, root};

use crate::modulus::QuadraticModulus;
use crate::quadratic::Quadratic;
use crate::tower::{QuarticModulus, RootModulus};
use ark_traits::Field;

/// A law: `Quadratic::embed` keeps zero, one, sums, products and negatives, and is one to one.
pub fn embedding<F: Field, M: QuadraticModulus<F>>()
    ensures { IsFieldEmbedding F.field ⟦<Quadratic<F, M> as Field>⟧.field (embedded F.field) }
{}

/// A law: the square of x is `w`.
pub fn square_of_root<F: Field, M: QuadraticModulus<F>>()
    ensures { ⟦<Quadratic<F, M> as Field>⟧.field.times (root F.field) (root F.field)
        ≡ embedded F.field M.non_residue }
{}

/// A law: in `Quartic` the fourth power of y is `w`.
pub fn fourth_power_of_root<F: Field, M: QuarticModulus<F>>()
    ensures { power ⟦<Quadratic<Quadratic<F, M>, RootModulus<M>> as Field>⟧.field
        (root ⟦<Quadratic<F, M> as Field>⟧.field) 4
        ≡ embedded ⟦<Quadratic<F, M> as Field>⟧.field (embedded F.field M.non_residue) }
{}
