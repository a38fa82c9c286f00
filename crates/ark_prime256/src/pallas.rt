//! The scalar field of the curve Pallas.

ghost use Rattle.std.specs.Prelude.{◌≡◌, ◌*◌, ◌%◌, ◌^◌, None, refl};
ghost use Rattle.ark_prime256.specs.Words.{words_of};
ghost use Rattle.ark_base.specs.ModulusLaws.{modulus_from_parts};
ghost use Rattle.ark_prime256.specs.Primes.{pallas_scalar_parts};

use crate::prime_field::{PrimeField256, PrimeModulus256};
use crate::words::BigInteger256;

/// The order of Pallas's group, a prime of 255 bits.
pub struct PallasScalarModulus;

impl PrimeModulus256 for PallasScalarModulus {
    ghost MODULUS = { 28948022309329048855892746252171976963363056481941647379679742748393362948097 };

    const MODULUS_WORDS: BigInteger256 = BigInteger256 {
        w0: 10108024940646105089,
        w1: 2469829653919213789,
        w2: 0,
        w3: 4611686018427387904,
    };

    ghost MODULUS_WORDS = { words_of 28948022309329048855892746252171976963363056481941647379679742748393362948097 };

    const NEGATED_INVERSE: u64 = 10108024940646105087;

    ghost NEGATED_INVERSE = { 10108024940646105087 };

    const R: BigInteger256 = BigInteger256 {
        w0: 6569413325480787965,
        w1: 11037255111951910247,
        w2: 18446744073709551615,
        w3: 4611686018427387903,
    };

    ghost R = { words_of (2 ^ 256
        % 28948022309329048855892746252171976963363056481941647379679742748393362948097) };

    const R_SQUARED: BigInteger256 = BigInteger256 {
        w0: 18200867980676431887,
        w1: 7474641938123724515,
        w2: 9200329640471491984,
        w3: 679271340771891881,
    };

    ghost R_SQUARED = { words_of (2 ^ 256 * 2 ^ 256
        % 28948022309329048855892746252171976963363056481941647379679742748393362948097) };

    ghost GENERATOR = { 5 };

    const GENERATOR_WORDS: BigInteger256 = BigInteger256 {
        w0: 5,
        w1: 0,
        w2: 0,
        w3: 0,
    };

    ghost GENERATOR_WORDS = { words_of 5 };

    const TWO_ADICITY: u32 = 32;

    ghost TWO_ADICITY = { 32 };

    ghost TWO_ADIC_ROOT_OF_UNITY = { 20761624379169977859705911634190121761503565370703356079647768903521299517535 };

    const TWO_ADIC_ROOT_WORDS: BigInteger256 = BigInteger256 {
        w0: 12037607305579515999,
        w1: 11221139188353527881,
        w2: 11411081306099606126,
        w3: 3307517586042601304,
    };

    ghost TWO_ADIC_ROOT_WORDS = { words_of
        20761624379169977859705911634190121761503565370703356079647768903521299517535 };

    const SMALL_SUBGROUP_BASE: Option<u32> = None;

    ghost SMALL_SUBGROUP_BASE = { None };

    const SMALL_SUBGROUP_BASE_ADICITY: Option<u32> = None;

    ghost SMALL_SUBGROUP_BASE_ADICITY = { None };

    ghost LARGE_SUBGROUP_ROOT_OF_UNITY = { None };

    const LARGE_SUBGROUP_ROOT_WORDS: Option<BigInteger256> = None;

    ghost LARGE_SUBGROUP_ROOT_WORDS = { None };

    const GREATEST_SIZE: u64 = 4294967296;

    ghost GREATEST_SIZE = { 4294967296 };

    ghost modulus = { record {
      numbers = modulus_from_parts pallas_scalar_parts refl refl refl refl refl;
      words = record {
        modulus_is = refl;
        inverse_is = refl;
        r_is = refl;
        r_squared_is = refl;
        generator_is = refl;
        two_adic_is = refl;
        large_is = refl;
      };
    } };

    ghost together = { ((λ h. h), (λ h. h)) };
}

/// The field of Pallas's scalars, with roots of unity of the orders `2^k` up to `2^32`.
pub type PallasScalar = PrimeField256<PallasScalarModulus>;

/// The name that curves give to the field of their scalars.
pub type Fr = PallasScalar;
