//! A transform, and back.

ghost use Rattle.std.specs.Prelude.{◌≡◌, ◌≤◌, length, IfOk};
ghost use Rattle.ark_math.specs.Module.{itself};
ghost use Rattle.ark_math.specs.Transform.{fit};

use ark_base::{FftField, PolyError};
use ark_poly::{EvaluationDomain, Radix2EvaluationDomain};
use std::alloc::Global;

/// The coefficients from their transform over the least domain with room for them: the same ones, and then zeros.
pub fn there_and_back<F: FftField>(alloc: Global, coeffs: &[F]) -> Result<Vec<F>, PolyError>
    ensures same { IfOk result (λ back. back.items ≡ fit (itself F.field) coeffs.now (length back.items)) }
    ensures room { IfOk result (λ back. length coeffs.now ≤ length back.items) }
{
    let domain = Radix2EvaluationDomain::<F>::new(coeffs.len()).ok_or(PolyError::NoDomain)?;
    let mut values = domain.fft(alloc, coeffs)?;
    domain.ifft_in_place(alloc, &mut values)?;
    Ok(values)
}
