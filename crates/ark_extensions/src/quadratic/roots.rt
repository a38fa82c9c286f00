//! The roots of unity of the extension that domains are made of: those of the field below.

ghost use Rattle.std.specs.Prelude.{◌≡◌};

use crate::modulus::QuadraticModulus;
use crate::quadratic::Quadratic;
use ark_traits::{ConstantZero, FftField};

impl<F: FftField + ConstantZero, M: QuadraticModulus<F>> FftField for Quadratic<F, M> {
    ghost use Rattle.std.proofs.Common.{option_map, refl};
    ghost use Rattle.ark_extensions.specs.Elements.{embedded, extension};
    ghost use Rattle.ark_extensions.specs.RootLaws.{embedded_roots, embedded_greatest};
    ghost use Rattle.ark_extensions.specs.RootLaws.{embedded_not_zero, extension_itself};

    ghost adicity = { F.adicity };

    ghost root = { λ n. embedded F.field (F.root n) };

    const GENERATOR: Self = Quadratic::<F, M>::new(F::GENERATOR, F::ZERO);

    ghost GENERATOR = { embedded F.field F.GENERATOR };

    const TWO_ADICITY: u32 = F::TWO_ADICITY;

    ghost TWO_ADICITY = { F.TWO_ADICITY };

    const TWO_ADIC_ROOT_OF_UNITY: Self = Quadratic::<F, M>::new(F::TWO_ADIC_ROOT_OF_UNITY, F::ZERO);

    ghost TWO_ADIC_ROOT_OF_UNITY = { embedded F.field F.TWO_ADIC_ROOT_OF_UNITY };

    const SMALL_SUBGROUP_BASE: Option<u32> = F::SMALL_SUBGROUP_BASE;

    ghost SMALL_SUBGROUP_BASE = { F.SMALL_SUBGROUP_BASE };

    const SMALL_SUBGROUP_BASE_ADICITY: Option<u32> = F::SMALL_SUBGROUP_BASE_ADICITY;

    ghost SMALL_SUBGROUP_BASE_ADICITY = { F.SMALL_SUBGROUP_BASE_ADICITY };

    const LARGE_SUBGROUP_ROOT_OF_UNITY: Option<Self> = match F::LARGE_SUBGROUP_ROOT_OF_UNITY {
        Some(value) => Some(Quadratic::<F, M>::new(value, F::ZERO)),
        None => None,
    };

    ghost LARGE_SUBGROUP_ROOT_OF_UNITY = { option_map (embedded F.field) F.LARGE_SUBGROUP_ROOT_OF_UNITY };

    fn get_root_of_unity(n: u64) -> Option<Self> {
        Some(Quadratic::embed(F::get_root_of_unity(n)?))
    }

    ghost adicity_law = { F.adicity_law };

    ghost together_law = { F.together_law };

    ghost roots_law = { embedded_roots F.field F.field_laws M.non_residue F.adicity F.root F.roots_law };

    ghost greatest_law = { embedded_greatest F.field F.adicity F.root F.TWO_ADIC_ROOT_OF_UNITY
        F.LARGE_SUBGROUP_ROOT_OF_UNITY F.greatest_law };

    ghost generator_law = { embedded_not_zero F.field F.GENERATOR F.generator_law };

    ghost itself_law = { extension_itself (extension F.field M.non_residue) };
}
