//! A prime field of one's own: the integers modulo 97.

ghost use Rattle.std.specs.Prelude.{◌≡◌, ◌↔◌, Some, refl, IfSome, IsNone};
ghost use Rattle.ark_base.specs.Lucas.{small, done};
ghost use Rattle.ark_base.specs.ModulusLaws.{modulus_from_parts};

use ark_base::{Field, PrimeField, PrimeModulus};

/// The prime 97, which is one more than 2^5 * 3.
pub struct Modulus97;

impl PrimeModulus for Modulus97 {
    const MODULUS: u64 = 97;

    ghost MODULUS = { 97 };

    const GENERATOR: u64 = 5;

    ghost GENERATOR = { 5 };

    const TWO_ADICITY: u32 = 5;

    ghost TWO_ADICITY = { 5 };

    // 5^3
    const TWO_ADIC_ROOT_OF_UNITY: u64 = 28;

    ghost TWO_ADIC_ROOT_OF_UNITY = { 28 };

    const SMALL_SUBGROUP_BASE: Option<u32> = Some(3);

    ghost SMALL_SUBGROUP_BASE = { Some 3 };

    const SMALL_SUBGROUP_BASE_ADICITY: Option<u32> = Some(1);

    ghost SMALL_SUBGROUP_BASE_ADICITY = { Some 1 };

    // 5^1
    const LARGE_SUBGROUP_ROOT_OF_UNITY: Option<u64> = Some(5);

    ghost LARGE_SUBGROUP_ROOT_OF_UNITY = { Some 5 };

    const GREATEST_SIZE: u64 = 96;

    ghost GREATEST_SIZE = { 96 };

    // 96 has the primes 2 and 3. The powers of 5 at 96, and at its parts by these, show that 97 is prime and 5 a
    // generator.
    ghost modulus = { modulus_from_parts (small 2 (small 3 done)) refl refl refl refl refl };

    ghost together = { ((λ h. h), (λ h. h)) };
}

/// The field of 97 elements.
pub type F97 = PrimeField<Modulus97>;

/// `a / b` in any field, and `None` exactly for a zero `b`.
pub fn quotient<F: Field>(a: F, b: F) -> Option<F>
    ensures some { IfSome result (λ q. F.field.times b q ≡ a) }
    ensures none { IsNone result ↔ (b ≡ F.field.zero) }
{
    Some(a * b.inverse()?)
}
