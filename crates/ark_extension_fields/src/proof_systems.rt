//! Extensions of the prime fields that proof systems compute over, of 124 to 128 bits.

ghost use Rattle.std.specs.Prelude.{◌≡◌};
ghost use Rattle.std.proofs.Common.{refl, lit<};
ghost use Rattle.ark_base.specs.Element32.{field_of};
ghost use Rattle.ark_extensions.specs.Elements.{extension};
ghost use Rattle.ark_base.specs.NonResidues.{no_square_by_power, root_of_minus_one};

use ark_base::{PrimeField32, PrimeModulus, PrimeModulus32};
use ark_extensions::{Quadratic, QuadraticModulus, Quartic, QuarticModulus};
use ark_fields::{
    BabyBear, BabyBearModulus, Goldilocks, GoldilocksModulus, KoalaBear, KoalaBearModulus,
};

// The sum `a * b + c * d` over a field on words of 32 bits, each coefficient's four products reduced once.
#[inline(always)]
fn sum_reduced_once<P: PrimeModulus32, M>(
    w: PrimeField32<P>,
    a: &Quadratic<PrimeField32<P>, M>,
    b: &Quadratic<PrimeField32<P>, M>,
    c: &Quadratic<PrimeField32<P>, M>,
    d: &Quadratic<PrimeField32<P>, M>,
) -> Quadratic<PrimeField32<P>, M>
    ensures { result ≡ (extension (field_of P.modulus) w).plus
        ((extension (field_of P.modulus) w).times a.now b.now)
        ((extension (field_of P.modulus) w).times c.now d.now) }
{
    let (a_turned, c_turned) = (w * a.c1, w * c.c1);
    Quadratic::new(
        PrimeField32::sum_of_four_products(
            (a.c0, b.c0),
            (a_turned, b.c1),
            (c.c0, d.c0),
            (c_turned, d.c1),
        ),
        PrimeField32::sum_of_four_products((a.c0, b.c1), (a.c1, b.c0), (c.c0, d.c1), (c.c1, d.c0)),
    )
}

/// 11, which is no square modulo 2^31 - 2^27 + 1.
#[derive(Clone, Copy)]
pub struct BabyBear4Modulus;

impl QuadraticModulus<BabyBear> for BabyBear4Modulus {
    ghost use Rattle.ark_base.specs.Residues.{residue_of};
    ghost use Rattle.ark_base.specs.Element32.{numbering};

    ghost non_residue = { residue_of (numbering ⟦<BabyBearModulus as PrimeModulus32>⟧.modulus)
        ⟦<BabyBearModulus as PrimeModulus32>⟧.modulus.numbers.prime 11 };

    fn non_residue() -> BabyBear {
        BabyBear::from(11)
    }

    #[inline(always)]
    fn sum_of_products(
        a: &Quadratic<BabyBear, Self>,
        b: &Quadratic<BabyBear, Self>,
        c: &Quadratic<BabyBear, Self>,
        d: &Quadratic<BabyBear, Self>,
    ) -> Quadratic<BabyBear, Self> {
        sum_reduced_once(Self::non_residue(), a, b, c, d)
    }

    ghost no_square = { no_square_by_power (numbering ⟦<BabyBearModulus as PrimeModulus32>⟧.modulus)
        ⟦<BabyBearModulus as PrimeModulus32>⟧.modulus.numbers 11 (lit< tt) (lit< tt) refl };
}

impl QuarticModulus<BabyBear> for BabyBear4Modulus {
    ghost use Rattle.ark_base.specs.Element32.{numbering};

    ghost minus_one = { root_of_minus_one (numbering ⟦<BabyBearModulus as PrimeModulus32>⟧.modulus)
        ⟦<BabyBearModulus as PrimeModulus32>⟧.modulus.numbers 11 (lit< tt) (lit< tt) refl refl };
}

/// 3, which is no square modulo 2^31 - 2^24 + 1.
#[derive(Clone, Copy)]
pub struct KoalaBear4Modulus;

impl QuadraticModulus<KoalaBear> for KoalaBear4Modulus {
    ghost use Rattle.ark_base.specs.Residues.{residue_of};
    ghost use Rattle.ark_base.specs.Element32.{numbering};

    ghost non_residue = { residue_of (numbering ⟦<KoalaBearModulus as PrimeModulus32>⟧.modulus)
        ⟦<KoalaBearModulus as PrimeModulus32>⟧.modulus.numbers.prime 3 };

    fn non_residue() -> KoalaBear {
        KoalaBear::from(3)
    }

    #[inline(always)]
    fn sum_of_products(
        a: &Quadratic<KoalaBear, Self>,
        b: &Quadratic<KoalaBear, Self>,
        c: &Quadratic<KoalaBear, Self>,
        d: &Quadratic<KoalaBear, Self>,
    ) -> Quadratic<KoalaBear, Self> {
        sum_reduced_once(Self::non_residue(), a, b, c, d)
    }

    ghost no_square = { no_square_by_power (numbering ⟦<KoalaBearModulus as PrimeModulus32>⟧.modulus)
        ⟦<KoalaBearModulus as PrimeModulus32>⟧.modulus.numbers 3 (lit< tt) (lit< tt) refl };
}

impl QuarticModulus<KoalaBear> for KoalaBear4Modulus {
    ghost use Rattle.ark_base.specs.Element32.{numbering};

    ghost minus_one = { root_of_minus_one (numbering ⟦<KoalaBearModulus as PrimeModulus32>⟧.modulus)
        ⟦<KoalaBearModulus as PrimeModulus32>⟧.modulus.numbers 3 (lit< tt) (lit< tt) refl refl };
}

/// 7, which is no square modulo 2^64 - 2^32 + 1.
#[derive(Clone, Copy)]
pub struct Goldilocks2Modulus;

impl QuadraticModulus<Goldilocks> for Goldilocks2Modulus {
    ghost use Rattle.ark_base.specs.Element.{numbering, residue_of};

    ghost non_residue = { residue_of ⟦<GoldilocksModulus as PrimeModulus>⟧.modulus.prime 7 };

    fn non_residue() -> Goldilocks {
        Goldilocks::from(7)
    }

    ghost no_square = { no_square_by_power numbering ⟦<GoldilocksModulus as PrimeModulus>⟧.modulus
        7 (lit< tt) (lit< tt) refl };
}

/// The extension of degree four of `BabyBear`, by a fourth root of 11, as in Plonky3. In bytes the coefficients
/// of the root's powers follow as 1, y^2, y, y^3.
pub type BabyBear4 = Quartic<BabyBear, BabyBear4Modulus>;

/// The extension of degree four of `KoalaBear`, by a fourth root of 3, as in Plonky3. In bytes the coefficients
/// of the root's powers follow as 1, y^2, y, y^3.
pub type KoalaBear4 = Quartic<KoalaBear, KoalaBear4Modulus>;

/// The extension of degree two of `Goldilocks`, by a square root of 7, as in Plonky2 and Plonky3.
pub type Goldilocks2 = Quadratic<Goldilocks, Goldilocks2Modulus>;
