//! A coset of a domain, and the values that a polynomial has there.

ghost use Rattle.std.specs.Prelude.{◌≡◌, ◌↔◌, ℕ, length, IfOk, Err};
ghost use Rattle.ark_math.specs.Outcome.{IsOkUnlessEither};
ghost use Rattle.ark_math.specs.Univariate.{IsBelow};
ghost use Rattle.ark_math_domains.specs.Points.{AreValues};

use ark_base::{FftField, PolyError};
use ark_poly::EvaluationDomain;
use std::alloc::Global;

/// The values over the coset with this offset of the polynomial that has the given values over the domain: one step
/// of many Reed-Solomon codes. For a zero offset there is no coset: `NoDomain`.
pub fn values_on_coset<F: FftField, D: EvaluationDomain<F>>(
    alloc: Global,
    domain: &D,
    offset: F,
    values: &[F],
) -> Result<Vec<F>, PolyError>
    requires { length values.now ≡ (D.domain domain.now).size }
    ensures values { IfOk result (λ others. (p : ℕ → F)
        × IsBelow F.field (D.domain domain.now).size p
        × AreValues F.field (D.domain domain.now) p values.now
        × AreValues F.field (record (D.domain domain.now) { offset = offset }) p others.items) }
    ensures zero { (result ≡ Err PolyError.NoDomain) ↔ (offset ≡ F.field.zero) }
    ensures errors { IsOkUnlessEither result PolyError.Memory PolyError.NoDomain }
{
    let coset = domain.get_coset(offset).ok_or(PolyError::NoDomain)?;
    let coeffs = domain.ifft(alloc, values)?;
    coset.fft(alloc, &coeffs)
}
