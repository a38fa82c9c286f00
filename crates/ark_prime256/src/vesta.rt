//! The scalar field of the curve Vesta.

ghost use Rattle.std.specs.Prelude.{◌≡◌, ◌*◌, ◌%◌, ◌^◌, None, refl};
ghost use Rattle.ark_prime256.specs.Words.{words_of};
ghost use Rattle.ark_base.specs.ModulusLaws.{modulus_from_parts};
ghost use Rattle.ark_prime256.specs.Primes.{vesta_scalar_parts};

use crate::prime_field::{PrimeField256, PrimeModulus256};
use crate::words::BigInteger256;

/// The order of Vesta's group, a prime of 255 bits.
pub struct VestaScalarModulus;

impl PrimeModulus256 for VestaScalarModulus {
    ghost MODULUS = { 28948022309329048855892746252171976963363056481941560715954676764349967630337 };

    const MODULUS_WORDS: BigInteger256 = BigInteger256 {
        w0: 11037532056220336129,
        w1: 2469829653914515739,
        w2: 0,
        w3: 4611686018427387904,
    };

    ghost MODULUS_WORDS = { words_of 28948022309329048855892746252171976963363056481941560715954676764349967630337 };

    const NEGATED_INVERSE: u64 = 11037532056220336127;

    ghost NEGATED_INVERSE = { 11037532056220336127 };

    const R: BigInteger256 = BigInteger256 {
        w0: 3780891978758094845,
        w1: 11037255111966004397,
        w2: 18446744073709551615,
        w3: 4611686018427387903,
    };

    ghost R = { words_of (2 ^ 256
        % 28948022309329048855892746252171976963363056481941560715954676764349967630337) };

    const R_SQUARED: BigInteger256 = BigInteger256 {
        w0: 10122100416058490895,
        w1: 15551789045973377255,
        w2: 8617542898466512152,
        w3: 679271340751763220,
    };

    ghost R_SQUARED = { words_of (2 ^ 256 * 2 ^ 256
        % 28948022309329048855892746252171976963363056481941560715954676764349967630337) };

    ghost GENERATOR = { 5 };

    const GENERATOR_WORDS: BigInteger256 = BigInteger256 {
        w0: 5,
        w1: 0,
        w2: 0,
        w3: 0,
    };

    ghost GENERATOR_WORDS = { words_of 5 };

    const TWO_ADICITY: u32 = 32;

    ghost TWO_ADICITY = { 32 };

    ghost TWO_ADIC_ROOT_OF_UNITY = { 19814229590243028906643993866117402072516588566294623396325693409366934201135 };

    const TWO_ADIC_ROOT_WORDS: BigInteger256 = BigInteger256 {
        w0: 13667703228001592111,
        w1: 16875599075175265668,
        w2: 3900434499382671386,
        w3: 3156588888553745370,
    };

    ghost TWO_ADIC_ROOT_WORDS = { words_of
        19814229590243028906643993866117402072516588566294623396325693409366934201135 };

    const SMALL_SUBGROUP_BASE: Option<u32> = None;

    ghost SMALL_SUBGROUP_BASE = { None };

    const SMALL_SUBGROUP_BASE_ADICITY: Option<u32> = None;

    ghost SMALL_SUBGROUP_BASE_ADICITY = { None };

    ghost LARGE_SUBGROUP_ROOT_OF_UNITY = { None };

    const LARGE_SUBGROUP_ROOT_WORDS: Option<BigInteger256> = None;

    ghost LARGE_SUBGROUP_ROOT_WORDS = { None };

    const GREATEST_SIZE: u64 = 4294967296;

    ghost GREATEST_SIZE = { 4294967296 };

    ghost modulus = { record {
      numbers = modulus_from_parts vesta_scalar_parts refl refl refl refl refl;
      words = record {
        modulus_is = refl;
        inverse_is = refl;
        r_is = refl;
        r_squared_is = refl;
        generator_is = refl;
        two_adic_is = refl;
        large_is = refl;
      };
    } };

    ghost together = { ((λ h. h), (λ h. h)) };
}

/// The field of Vesta's scalars, with roots of unity of the orders `2^k` up to `2^32`.
pub type VestaScalar = PrimeField256<VestaScalarModulus>;

/// The name that curves give to the field of their scalars.
pub type Fr = VestaScalar;
