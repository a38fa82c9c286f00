//! The scalar field of the curve BN254.

ghost use Rattle.std.specs.Prelude.{◌≡◌, ◌*◌, ◌%◌, ◌^◌, None, refl};
ghost use Rattle.ark_prime256.specs.Words.{words_of};
ghost use Rattle.ark_base.specs.ModulusLaws.{modulus_from_parts};
ghost use Rattle.ark_prime256.specs.Primes.{bn254_scalar_parts};

use crate::prime_field::{PrimeField256, PrimeModulus256};
use crate::words::BigInteger256;

/// The order of BN254's group, a prime of 254 bits.
pub struct Bn254ScalarModulus;

impl PrimeModulus256 for Bn254ScalarModulus {
    ghost MODULUS = { 21888242871839275222246405745257275088548364400416034343698204186575808495617 };

    const MODULUS_WORDS: BigInteger256 = BigInteger256 {
        w0: 4891460686036598785,
        w1: 2896914383306846353,
        w2: 13281191951274694749,
        w3: 3486998266802970665,
    };

    ghost MODULUS_WORDS = { words_of 21888242871839275222246405745257275088548364400416034343698204186575808495617 };

    const NEGATED_INVERSE: u64 = 14042775128853446655;

    ghost NEGATED_INVERSE = { 14042775128853446655 };

    const R: BigInteger256 = BigInteger256 {
        w0: 12436184717236109307,
        w1: 3962172157175319849,
        w2: 7381016538464732718,
        w3: 1011752739694698287,
    };

    ghost R = { words_of (2 ^ 256
        % 21888242871839275222246405745257275088548364400416034343698204186575808495617) };

    const R_SQUARED: BigInteger256 = BigInteger256 {
        w0: 1997599621687373223,
        w1: 6052339484930628067,
        w2: 10108755138030829701,
        w3: 150537098327114917,
    };

    ghost R_SQUARED = { words_of (2 ^ 256 * 2 ^ 256
        % 21888242871839275222246405745257275088548364400416034343698204186575808495617) };

    ghost GENERATOR = { 5 };

    const GENERATOR_WORDS: BigInteger256 = BigInteger256 {
        w0: 5,
        w1: 0,
        w2: 0,
        w3: 0,
    };

    ghost GENERATOR_WORDS = { words_of 5 };

    const TWO_ADICITY: u32 = 28;

    ghost TWO_ADICITY = { 28 };

    ghost TWO_ADIC_ROOT_OF_UNITY = { 19103219067921713944291392827692070036145651957329286315305642004821462161904 };

    const TWO_ADIC_ROOT_WORDS: BigInteger256 = BigInteger256 {
        w0: 11229192882073836016,
        w1: 4624371214017703636,
        w2: 63235024940837564,
        w3: 3043318377369730693,
    };

    ghost TWO_ADIC_ROOT_WORDS = { words_of
        19103219067921713944291392827692070036145651957329286315305642004821462161904 };

    const SMALL_SUBGROUP_BASE: Option<u32> = None;

    ghost SMALL_SUBGROUP_BASE = { None };

    const SMALL_SUBGROUP_BASE_ADICITY: Option<u32> = None;

    ghost SMALL_SUBGROUP_BASE_ADICITY = { None };

    ghost LARGE_SUBGROUP_ROOT_OF_UNITY = { None };

    const LARGE_SUBGROUP_ROOT_WORDS: Option<BigInteger256> = None;

    ghost LARGE_SUBGROUP_ROOT_WORDS = { None };

    const GREATEST_SIZE: u64 = 268435456;

    ghost GREATEST_SIZE = { 268435456 };

    ghost modulus = { record {
      numbers = modulus_from_parts bn254_scalar_parts refl refl refl refl refl;
      words = record {
        modulus_is = refl;
        inverse_is = refl;
        r_is = refl;
        r_squared_is = refl;
        generator_is = refl;
        two_adic_is = refl;
        large_is = refl;
      };
    } };

    ghost together = { ((λ h. h), (λ h. h)) };
}

/// The field of BN254's scalars, with roots of unity of the orders `2^k` up to `2^28`.
pub type Bn254Scalar = PrimeField256<Bn254ScalarModulus>;

/// The name that curves give to the field of their scalars.
pub type Fr = Bn254Scalar;
