//! An extension of one's own: the field of 433^2 elements.

ghost use Rattle.std.specs.Prelude.{map};
ghost use Rattle.std.proofs.Common.{lit<, refl};
ghost use Rattle.ark_base.specs.NonResidues.{no_square_by_power};
ghost use Rattle.ark_math.specs.Univariate.{IsValue, of_list};

use ark_base::{Field, PrimeModulus};
use ark_extensions::embedded::evaluate;
use ark_extensions::{ExtensionOf, Quadratic, QuadraticModulus};
use ark_fields::{F433, Modulus433};

/// 5, which is no square modulo 433.
#[derive(Clone, Copy)]
pub struct NonResidue5;

impl QuadraticModulus<F433> for NonResidue5 {
    ghost use Rattle.ark_base.specs.Element.{numbering, residue_of};

    ghost non_residue = { residue_of ⟦<Modulus433 as PrimeModulus>⟧.modulus.prime 5 };

    fn non_residue() -> F433 {
        F433::from(5)
    }

    // 5^216 leaves 432 modulo 433, and a square's power leaves 1
    ghost no_square = { no_square_by_power numbering ⟦<Modulus433 as PrimeModulus>⟧.modulus
        5 (lit< tt) (lit< tt) refl };
}

/// The field of 433^2 elements, by a square root of 5.
pub type F433Squared = Quadratic<F433, NonResidue5>;

/// The value at a point of the extension of the polynomial with these coefficients, which lie in the field
/// below.
pub fn value_in_extension(coeffs: &[F433], point: F433Squared) -> F433Squared
    ensures { IsValue ⟦<F433Squared as Field>⟧.field (of_list ⟦<F433Squared as Field>⟧.field
        (map ⟦<F433Squared as ExtensionOf<F433>>⟧.within coeffs.now)) point result }
{
    evaluate(coeffs, point)
}
