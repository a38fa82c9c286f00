//! The sizes of radix 2.

ghost use Rattle.std.specs.Prelude.{◌≡◌, ℕ, ◌↔◌, IfSome, IsNone};
ghost use Rattle.ark_math.specs.Domain.{radix2, IsLeast, IsSize};
ghost use Rattle.ark_math.specs.Root.{Splits};

use ark_traits::FftField;

/// The least supported power of two at or above `num_coeffs`, with its logarithm.
pub fn least_size<F: FftField>(num_coeffs: usize) -> Option<(usize, u32)>
    ensures least { IfSome result (λ p. IsLeast (IsSize F.adicity radix2) num_coeffs p.0) }
    ensures splits { IfSome result (λ p. Splits F.adicity p.0 p.1 0) }
    ensures none { IsNone result ↔ ((n : ℕ) → IsLeast (IsSize F.adicity radix2) num_coeffs n → ⊥) }
{
    let power = num_coeffs.checked_next_power_of_two()?;
    let twos = power.ilog2();
    if twos <= F::TWO_ADICITY {
        Some((power, twos))
    } else {
        None
    }
}
