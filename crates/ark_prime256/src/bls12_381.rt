//! The scalar field of the curve BLS12-381.

ghost use Rattle.std.specs.Prelude.{◌≡◌, ◌*◌, ◌%◌, ◌^◌, None, refl};
ghost use Rattle.ark_prime256.specs.Words.{words_of};
ghost use Rattle.ark_base.specs.ModulusLaws.{modulus_from_parts};
ghost use Rattle.ark_prime256.specs.Primes.{bls12_381_scalar_parts};

use crate::prime_field::{PrimeField256, PrimeModulus256};
use crate::words::BigInteger256;

/// The order of BLS12-381's group, a prime of 255 bits.
pub struct Bls12_381ScalarModulus;

impl PrimeModulus256 for Bls12_381ScalarModulus {
    ghost MODULUS = { 52435875175126190479447740508185965837690552500527637822603658699938581184513 };

    const MODULUS_WORDS: BigInteger256 = BigInteger256 {
        w0: 18446744069414584321,
        w1: 6034159408538082302,
        w2: 3691218898639771653,
        w3: 8353516859464449352,
    };

    ghost MODULUS_WORDS = { words_of 52435875175126190479447740508185965837690552500527637822603658699938581184513 };

    const NEGATED_INVERSE: u64 = 18446744069414584319;

    ghost NEGATED_INVERSE = { 18446744069414584319 };

    const R: BigInteger256 = BigInteger256 {
        w0: 8589934590,
        w1: 6378425256633387010,
        w2: 11064306276430008309,
        w3: 1739710354780652911,
    };

    ghost R = { words_of (2 ^ 256
        % 52435875175126190479447740508185965837690552500527637822603658699938581184513) };

    const R_SQUARED: BigInteger256 = BigInteger256 {
        w0: 14526898881837571181,
        w1: 3129137299524312099,
        w2: 419701826671360399,
        w3: 524908885293268753,
    };

    ghost R_SQUARED = { words_of (2 ^ 256 * 2 ^ 256
        % 52435875175126190479447740508185965837690552500527637822603658699938581184513) };

    ghost GENERATOR = { 7 };

    const GENERATOR_WORDS: BigInteger256 = BigInteger256 {
        w0: 7,
        w1: 0,
        w2: 0,
        w3: 0,
    };

    ghost GENERATOR_WORDS = { words_of 7 };

    const TWO_ADICITY: u32 = 32;

    ghost TWO_ADICITY = { 32 };

    ghost TWO_ADIC_ROOT_OF_UNITY = { 10238227357739495823651030575849232062558860180284477541189508159991286009131 };

    const TWO_ADIC_ROOT_WORDS: BigInteger256 = BigInteger256 {
        w0: 4046931900703378731,
        w1: 13129826145616953529,
        w2: 15031722638446171060,
        w3: 1631043718794977056,
    };

    ghost TWO_ADIC_ROOT_WORDS = { words_of
        10238227357739495823651030575849232062558860180284477541189508159991286009131 };

    const SMALL_SUBGROUP_BASE: Option<u32> = None;

    ghost SMALL_SUBGROUP_BASE = { None };

    const SMALL_SUBGROUP_BASE_ADICITY: Option<u32> = None;

    ghost SMALL_SUBGROUP_BASE_ADICITY = { None };

    ghost LARGE_SUBGROUP_ROOT_OF_UNITY = { None };

    const LARGE_SUBGROUP_ROOT_WORDS: Option<BigInteger256> = None;

    ghost LARGE_SUBGROUP_ROOT_WORDS = { None };

    const GREATEST_SIZE: u64 = 4294967296;

    ghost GREATEST_SIZE = { 4294967296 };

    ghost modulus = { record {
      numbers = modulus_from_parts bls12_381_scalar_parts refl refl refl refl refl;
      words = record {
        modulus_is = refl;
        inverse_is = refl;
        r_is = refl;
        r_squared_is = refl;
        generator_is = refl;
        two_adic_is = refl;
        large_is = refl;
      };
    } };

    ghost together = { ((λ h. h), (λ h. h)) };
}

/// The field of BLS12-381's scalars, with roots of unity of the orders `2^k` up to `2^32`.
pub type Bls12_381Scalar = PrimeField256<Bls12_381ScalarModulus>;

/// The name that curves give to the field of their scalars.
pub type Fr = Bls12_381Scalar;
