//! Prime fields that proof systems compute over, each with a generator of all its units.

ghost use Rattle.std.specs.Prelude.{None, refl};
ghost use Rattle.ark_base.specs.Lucas.{small, done};
ghost use Rattle.ark_base.specs.ModulusLaws.{modulus_from_parts};

use ark_base::{PrimeField, PrimeField32, PrimeModulus, PrimeModulus32};

/// The prime 2^31 - 2^27 + 1, which is one more than 2^27 * 3 * 5.
pub struct BabyBearModulus;

impl PrimeModulus32 for BabyBearModulus {
    const MODULUS: u32 = 2013265921;

    ghost MODULUS = { 2013265921 };

    const GENERATOR: u32 = 31;

    ghost GENERATOR = { 31 };

    const TWO_ADICITY: u32 = 27;

    ghost TWO_ADICITY = { 27 };

    // 31^15
    const TWO_ADIC_ROOT_OF_UNITY: u32 = 440564289;

    ghost TWO_ADIC_ROOT_OF_UNITY = { 440564289 };

    const SMALL_SUBGROUP_BASE: Option<u32> = None;

    ghost SMALL_SUBGROUP_BASE = { None };

    const SMALL_SUBGROUP_BASE_ADICITY: Option<u32> = None;

    ghost SMALL_SUBGROUP_BASE_ADICITY = { None };

    const LARGE_SUBGROUP_ROOT_OF_UNITY: Option<u32> = None;

    ghost LARGE_SUBGROUP_ROOT_OF_UNITY = { None };

    const GREATEST_SIZE: u64 = 134217728;

    ghost GREATEST_SIZE = { 134217728 };

    const NEGATED_INVERSE: u32 = 2013265919;

    ghost NEGATED_INVERSE = { 2013265919 };

    ghost modulus = { record { numbers = modulus_from_parts (small 2 (small 3 (small 5 done))) refl refl refl refl refl; inverse = refl } };

    ghost together = { ((λ h. h), (λ h. h)) };
}

/// The prime 2^31 - 2^24 + 1, which is one more than 2^24 * 127.
pub struct KoalaBearModulus;

impl PrimeModulus32 for KoalaBearModulus {
    const MODULUS: u32 = 2130706433;

    ghost MODULUS = { 2130706433 };

    const GENERATOR: u32 = 3;

    ghost GENERATOR = { 3 };

    const TWO_ADICITY: u32 = 24;

    ghost TWO_ADICITY = { 24 };

    // 3^127
    const TWO_ADIC_ROOT_OF_UNITY: u32 = 1791270792;

    ghost TWO_ADIC_ROOT_OF_UNITY = { 1791270792 };

    const SMALL_SUBGROUP_BASE: Option<u32> = None;

    ghost SMALL_SUBGROUP_BASE = { None };

    const SMALL_SUBGROUP_BASE_ADICITY: Option<u32> = None;

    ghost SMALL_SUBGROUP_BASE_ADICITY = { None };

    const LARGE_SUBGROUP_ROOT_OF_UNITY: Option<u32> = None;

    ghost LARGE_SUBGROUP_ROOT_OF_UNITY = { None };

    const GREATEST_SIZE: u64 = 16777216;

    ghost GREATEST_SIZE = { 16777216 };

    const NEGATED_INVERSE: u32 = 2130706431;

    ghost NEGATED_INVERSE = { 2130706431 };

    ghost modulus = { record { numbers = modulus_from_parts (small 2 (small 127 done)) refl refl refl refl refl; inverse = refl } };

    ghost together = { ((λ h. h), (λ h. h)) };
}

/// The prime 2^64 - 2^32 + 1, which is one more than 2^32 * 3 * 5 * 17 * 257 * 65537.
pub struct GoldilocksModulus;

impl PrimeModulus for GoldilocksModulus {
    const MODULUS: u64 = 18446744069414584321;

    ghost MODULUS = { 18446744069414584321 };

    const GENERATOR: u64 = 7;

    ghost GENERATOR = { 7 };

    const TWO_ADICITY: u32 = 32;

    ghost TWO_ADICITY = { 32 };

    // 7^4294967295
    const TWO_ADIC_ROOT_OF_UNITY: u64 = 1753635133440165772;

    ghost TWO_ADIC_ROOT_OF_UNITY = { 1753635133440165772 };

    const SMALL_SUBGROUP_BASE: Option<u32> = None;

    ghost SMALL_SUBGROUP_BASE = { None };

    const SMALL_SUBGROUP_BASE_ADICITY: Option<u32> = None;

    ghost SMALL_SUBGROUP_BASE_ADICITY = { None };

    const LARGE_SUBGROUP_ROOT_OF_UNITY: Option<u64> = None;

    ghost LARGE_SUBGROUP_ROOT_OF_UNITY = { None };

    const GREATEST_SIZE: u64 = 4294967296;

    ghost GREATEST_SIZE = { 4294967296 };

    ghost modulus = { modulus_from_parts (small 2 (small 3 (small 5 (small 17 (small 257 (small 65537 done)))))) refl refl refl refl refl };

    ghost together = { ((λ h. h), (λ h. h)) };
}

/// The field of 2^31 - 2^27 + 1 elements, with domains of up to 2^27: used by RISC Zero's proof system and
/// Plonky3.
pub type BabyBear = PrimeField32<BabyBearModulus>;

/// The field of 2^31 - 2^24 + 1 elements, with domains of up to 2^24, whose cubing is one to one: used by
/// Plonky3.
pub type KoalaBear = PrimeField32<KoalaBearModulus>;

/// The field of 2^64 - 2^32 + 1 elements, with domains of up to 2^32: used by Plonky2.
pub type Goldilocks = PrimeField<GoldilocksModulus>;
