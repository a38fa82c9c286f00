//! The sizes of mixed radix.

ghost use Rattle.std.specs.Prelude.{◌≡◌, ◌↔◌, ℕ, ◌≤◌, IfSome, ◌<◌, IfNone, IsSome, IsTrue};
ghost use Rattle.ark_math.specs.Domain.{mixed_radix, IsLeast, HasNone, IsSize, IsSizeWith};
ghost use Rattle.ark_math.specs.Root.{Splits, odd_base, odd_most};

use ark_traits::FftField;

/// The field's odd base and its greatest exponent.
pub fn odd_base<F: FftField>() -> Option<(u32, u32)>
    ensures { result ≡ F.adicity.odd }
{
    Some((F::SMALL_SUBGROUP_BASE?, F::SMALL_SUBGROUP_BASE_ADICITY?))
}

// The least supported size at or above `num_coeffs` with this power of the base, and its exponent of two.
fn least_with<F: FftField>(num_coeffs: usize, base: u32, odds: u32) -> Option<(u64, u32)>
    requires base { base ≡ odd_base F.adicity.odd }
    requires odds { odds ≤ odd_most F.adicity.odd }
    ensures least { IfSome result (λ p. IsLeast (IsSizeWith F.adicity odds) num_coeffs p.0) }
    ensures splits { IfSome result (λ p. Splits F.adicity p.0 p.1 odds) }
    ensures none { IfNone result (HasNone (IsSizeWith F.adicity odds) num_coeffs) }
{
    let power = (base as u64).checked_pow(odds)?;
    let twos_part = (num_coeffs as u64)
        .div_ceil(power)
        .checked_next_power_of_two()?;
    let twos = twos_part.ilog2();
    if twos > F::TWO_ADICITY {
        return None;
    }
    Some((twos_part.checked_mul(power)?, twos))
}

// Whether the size is less than the least one so far.
fn improves(size: u64, least: Option<(u64, u32, u32)>) -> bool
    ensures { IsTrue result ↔ IfSome least (λ p. size < p.0) }
{
    match least {
        Some((other, _, _)) => size < other,
        None => true,
    }
}

/// The least supported size at or above `num_coeffs` of all, with its exponents of two and of the base.
pub fn least_size<F: FftField>(num_coeffs: usize) -> Option<(u64, u32, u32)>
    ensures least { IfSome result (λ p. IsLeast (IsSize F.adicity mixed_radix) num_coeffs p.0) }
    ensures splits { IfSome result (λ p. Splits F.adicity p.0 p.1 p.2) }
    ensures based { IfSome result (λ p. IsSome F.adicity.odd) }
    ensures none { IfNone result (HasNone (IsSize F.adicity mixed_radix) num_coeffs) }
{
    let (base, most) = odd_base::<F>()?;
    let mut least: Option<(u64, u32, u32)> = None;
    // with more factors of the base no size fits 64 bits
    for odds in 0..most.min(64) + 1 {
        if let Some((size, twos)) = least_with::<F>(num_coeffs, base, odds) {
            if improves(size, least) {
                least = Some((size, twos, odds));
            }
        }
    }
    least
}
