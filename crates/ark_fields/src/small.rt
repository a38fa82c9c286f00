//! Small prime fields, with domains of few or of all sizes.

ghost use Rattle.std.specs.Prelude.{None, Some, refl};
ghost use Rattle.ark_base.specs.Lucas.{small, done};
ghost use Rattle.ark_base.specs.ModulusLaws.{modulus_from_parts};

use ark_base::{PrimeField, PrimeModulus};

/// The prime 5.
pub struct Modulus5;

impl PrimeModulus for Modulus5 {
    const MODULUS: u64 = 5;

    ghost MODULUS = { 5 };

    const GENERATOR: u64 = 2;

    ghost GENERATOR = { 2 };

    const TWO_ADICITY: u32 = 2;

    ghost TWO_ADICITY = { 2 };

    const TWO_ADIC_ROOT_OF_UNITY: u64 = 2;

    ghost TWO_ADIC_ROOT_OF_UNITY = { 2 };

    const SMALL_SUBGROUP_BASE: Option<u32> = None;

    ghost SMALL_SUBGROUP_BASE = { None };

    const SMALL_SUBGROUP_BASE_ADICITY: Option<u32> = None;

    ghost SMALL_SUBGROUP_BASE_ADICITY = { None };

    const LARGE_SUBGROUP_ROOT_OF_UNITY: Option<u64> = None;

    ghost LARGE_SUBGROUP_ROOT_OF_UNITY = { None };

    const GREATEST_SIZE: u64 = 4;

    ghost GREATEST_SIZE = { 4 };

    ghost modulus = { modulus_from_parts (small 2 done) refl refl refl refl refl };

    ghost together = { ((λ h. h), (λ h. h)) };
}

/// The prime 433, which is one more than 2^4 * 3^3.
pub struct Modulus433;

impl PrimeModulus for Modulus433 {
    const MODULUS: u64 = 433;

    ghost MODULUS = { 433 };

    const GENERATOR: u64 = 5;

    ghost GENERATOR = { 5 };

    const TWO_ADICITY: u32 = 4;

    ghost TWO_ADICITY = { 4 };

    const TWO_ADIC_ROOT_OF_UNITY: u64 = 238;

    ghost TWO_ADIC_ROOT_OF_UNITY = { 238 };

    const SMALL_SUBGROUP_BASE: Option<u32> = Some(3);

    ghost SMALL_SUBGROUP_BASE = { Some 3 };

    const SMALL_SUBGROUP_BASE_ADICITY: Option<u32> = Some(3);

    ghost SMALL_SUBGROUP_BASE_ADICITY = { Some 3 };

    const LARGE_SUBGROUP_ROOT_OF_UNITY: Option<u64> = Some(5);

    ghost LARGE_SUBGROUP_ROOT_OF_UNITY = { Some 5 };

    const GREATEST_SIZE: u64 = 432;

    ghost GREATEST_SIZE = { 432 };

    ghost modulus = { modulus_from_parts (small 2 (small 3 done)) refl refl refl refl refl };

    ghost together = { ((λ h. h), (λ h. h)) };
}

/// The prime 65537, which is one more than 2^16: a Fermat prime.
pub struct Modulus65537;

impl PrimeModulus for Modulus65537 {
    const MODULUS: u64 = 65537;

    ghost MODULUS = { 65537 };

    const GENERATOR: u64 = 3;

    ghost GENERATOR = { 3 };

    const TWO_ADICITY: u32 = 16;

    ghost TWO_ADICITY = { 16 };

    const TWO_ADIC_ROOT_OF_UNITY: u64 = 3;

    ghost TWO_ADIC_ROOT_OF_UNITY = { 3 };

    const SMALL_SUBGROUP_BASE: Option<u32> = None;

    ghost SMALL_SUBGROUP_BASE = { None };

    const SMALL_SUBGROUP_BASE_ADICITY: Option<u32> = None;

    ghost SMALL_SUBGROUP_BASE_ADICITY = { None };

    const LARGE_SUBGROUP_ROOT_OF_UNITY: Option<u64> = None;

    ghost LARGE_SUBGROUP_ROOT_OF_UNITY = { None };

    const GREATEST_SIZE: u64 = 65536;

    ghost GREATEST_SIZE = { 65536 };

    ghost modulus = { modulus_from_parts (small 2 done) refl refl refl refl refl };

    ghost together = { ((λ h. h), (λ h. h)) };
}

/// The field of 5 elements.
pub type F5 = PrimeField<Modulus5>;

/// The field of 433 elements, with mixed radix sizes `2^a * 3^b`.
pub type F433 = PrimeField<Modulus433>;

/// The field of 65537 elements.
pub type F65537 = PrimeField<Modulus65537>;
