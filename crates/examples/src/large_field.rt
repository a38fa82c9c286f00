//! A prime field of one's own of a whole word, with large domains: the integers modulo 2^64 - 2^40 + 1.

ghost use Rattle.std.specs.Prelude.{◌≡◌, ◌^◌, None, Some, refl};
ghost use Rattle.ark_base.specs.Lucas.{small, done};
ghost use Rattle.ark_base.specs.ModulusLaws.{modulus_from_parts};

use ark_base::{PrimeField, PrimeModulus};
use ark_poly::{EvaluationDomain, Radix2EvaluationDomain};

/// The prime 2^64 - 2^40 + 1, which is one more than 2^40 * 3 * 3 * 5 * 7 * 13 * 17 * 241.
pub struct Modulus18446742974197923841;

impl PrimeModulus for Modulus18446742974197923841 {
    const MODULUS: u64 = 18446742974197923841;

    ghost MODULUS = { 18446742974197923841 };

    const GENERATOR: u64 = 19;

    ghost GENERATOR = { 19 };

    const TWO_ADICITY: u32 = 40;

    ghost TWO_ADICITY = { 40 };

    // 19^16777215
    const TWO_ADIC_ROOT_OF_UNITY: u64 = 8305042458189611734;

    ghost TWO_ADIC_ROOT_OF_UNITY = { 8305042458189611734 };

    const SMALL_SUBGROUP_BASE: Option<u32> = None;

    ghost SMALL_SUBGROUP_BASE = { None };

    const SMALL_SUBGROUP_BASE_ADICITY: Option<u32> = None;

    ghost SMALL_SUBGROUP_BASE_ADICITY = { None };

    const LARGE_SUBGROUP_ROOT_OF_UNITY: Option<u64> = None;

    ghost LARGE_SUBGROUP_ROOT_OF_UNITY = { None };

    const GREATEST_SIZE: u64 = 1099511627776;

    ghost GREATEST_SIZE = { 1099511627776 };

    // The powers of 19 show that it is prime and 19 a generator, at the predecessor and at its parts by each of
    // its primes.
    ghost modulus = { modulus_from_parts
        (small 2 (small 3 (small 5 (small 7 (small 13 (small 17 (small 241 done))))))) refl refl refl refl refl };

    ghost together = { ((λ h. h), (λ h. h)) };
}

/// The field of 2^64 - 2^40 + 1 elements.
pub type F18446742974197923841 = PrimeField<Modulus18446742974197923841>;

/// The least domain with room for a hundred million coefficients has 2^27 elements.
pub fn size_for_a_hundred_million() -> Option<usize>
    ensures { result ≡ Some (2 ^ 27) }
{
    Radix2EvaluationDomain::<F18446742974197923841>::compute_size_of_domain(100_000_000)
}
