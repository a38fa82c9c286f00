//! The field of the coordinates of Curve25519's points.

ghost use Rattle.std.specs.Prelude.{◌≡◌, ◌*◌, ◌%◌, ◌^◌, None, refl};
ghost use Rattle.ark_base.specs.Lucas.{small, large, done};
ghost use Rattle.ark_base.specs.ModulusLaws.{modulus_from_parts};
ghost use Rattle.ark_prime256.specs.Words.{words_of};

use ark_prime256::{BigInteger256, PrimeField256, PrimeModulus256};

/// The prime of the field of the coordinates of Curve25519's points, of 255 bits.
pub struct Curve25519CoordinateModulus;

impl PrimeModulus256 for Curve25519CoordinateModulus {
    ghost MODULUS = { 57896044618658097711785492504343953926634992332820282019728792003956564819949 };

    const MODULUS_WORDS: BigInteger256 = BigInteger256 {
        w0: 18446744073709551597,
        w1: 18446744073709551615,
        w2: 18446744073709551615,
        w3: 9223372036854775807,
    };

    ghost MODULUS_WORDS = { words_of 57896044618658097711785492504343953926634992332820282019728792003956564819949 };

    const NEGATED_INVERSE: u64 = 9708812670373448219;

    ghost NEGATED_INVERSE = { 9708812670373448219 };

    const R: BigInteger256 = BigInteger256 {
        w0: 38,
        w1: 0,
        w2: 0,
        w3: 0,
    };

    ghost R = { words_of (2 ^ 256
        % 57896044618658097711785492504343953926634992332820282019728792003956564819949) };

    const R_SQUARED: BigInteger256 = BigInteger256 {
        w0: 1444,
        w1: 0,
        w2: 0,
        w3: 0,
    };

    ghost R_SQUARED = { words_of (2 ^ 256 * 2 ^ 256
        % 57896044618658097711785492504343953926634992332820282019728792003956564819949) };

    ghost GENERATOR = { 2 };

    const GENERATOR_WORDS: BigInteger256 = BigInteger256 {
        w0: 2,
        w1: 0,
        w2: 0,
        w3: 0,
    };

    ghost GENERATOR_WORDS = { words_of 2 };

    const TWO_ADICITY: u32 = 2;

    ghost TWO_ADICITY = { 2 };

    ghost TWO_ADIC_ROOT_OF_UNITY = { 19681161376707505956807079304988542015446066515923890162744021073123829784752 };

    const TWO_ADIC_ROOT_WORDS: BigInteger256 = BigInteger256 {
        w0: 14190309331451158704,
        w1: 3405592160176694392,
        w2: 3120150775007532967,
        w3: 3135389899092516619,
    };

    ghost TWO_ADIC_ROOT_WORDS = { words_of
        19681161376707505956807079304988542015446066515923890162744021073123829784752 };

    const SMALL_SUBGROUP_BASE: Option<u32> = None;

    ghost SMALL_SUBGROUP_BASE = { None };

    const SMALL_SUBGROUP_BASE_ADICITY: Option<u32> = None;

    ghost SMALL_SUBGROUP_BASE_ADICITY = { None };

    ghost LARGE_SUBGROUP_ROOT_OF_UNITY = { None };

    const LARGE_SUBGROUP_ROOT_WORDS: Option<BigInteger256> = None;

    ghost LARGE_SUBGROUP_ROOT_WORDS = { None };

    const GREATEST_SIZE: u64 = 4;

    ghost GREATEST_SIZE = { 4 };

    ghost modulus = { record {
      numbers = modulus_from_parts
          (small 2 (small 3 (small 65147 (large 74058212732561358302231226437062788676166966415465897661863160754340907 2 (small 2 (small 3 (small 353 (small 57467 (small 132049 (large 1923133 2 (small 2 (small 3 (small 43 (small 3727 done)))) (large 31757755568855353 10 (small 2 (small 3 (small 31 (small 107 (small 223 (small 4153 (small 430751 done))))))) (large 75445702479781427272750846543864801 7 (small 2 (small 3 (small 5 (small 75707 (large 72106336199 7 (small 2 (small 13 (large 2773320623 5 (small 2 (small 2437 (small 569003 done))) done))) (large 1919519569386763 2 (small 2 (small 3 (small 7 (small 19 (small 47 (small 127 (large 8574133 2 (small 2 (small 3 (small 7 (small 103 (small 991 done))))) done))))))) done)))))) done)))))))) done))))
          refl refl refl refl refl;
      words = record {
        modulus_is = refl;
        inverse_is = refl;
        r_is = refl;
        r_squared_is = refl;
        generator_is = refl;
        two_adic_is = refl;
        large_is = refl;
      };
    } };

    ghost together = { ((λ h. h), (λ h. h)) };
}

/// The field of the coordinates of Curve25519's points, with roots of unity of the orders `2^k` up to `2^2`.
pub type Curve25519Coordinate = PrimeField256<Curve25519CoordinateModulus>;
