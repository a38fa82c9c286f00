//! Lists of the first coefficients of power series.

ghost use Rattle.std.specs.Prelude.{◌≡◌, ℕ, ◌+◌, ◌-◌, ◌<◌, ◌≤◌, length, IfOk};
ghost use Rattle.ark_quotients.specs.PowerSeries.{AgreeBelow, past};
ghost use Rattle.ark_math.specs.Univariate.{of_list, opposite};

use ark_traits::Field;
use std::alloc::{AllocError, Global};

/// The coefficient at an exponent, zero past the end of the list.
pub fn coefficient_at<F: Field>(coeffs: &[F], exponent: usize) -> F
    ensures { result ≡ of_list F.field coeffs.now exponent }
{
    if exponent < coeffs.len() {
        coeffs[exponent]
    } else {
        F::zero()
    }
}

/// A copy of the coefficients from `start` on and below `end`, moved down to zero.
pub fn part<F: Field>(
    alloc: Global,
    coeffs: &[F],
    start: usize,
    end: usize,
) -> Result<Vec<F>, AllocError>
    ensures same { IfOk result (λ c. AgreeBelow (end - start) (of_list F.field c.items)
        (past start (of_list F.field coeffs.now))) }
    ensures len { IfOk result (λ c. length c.items ≤ end - start) }
{
    let end = end.min(coeffs.len());
    let start = start.min(end);
    Vec::from_slice(alloc, &coeffs[start..end])
}

/// The coefficients at `degree` and at the exponents below it, `len` of them, that at `degree` first.
pub fn reversed<F: Field>(
    alloc: Global,
    coeffs: &[F],
    degree: usize,
    len: usize,
) -> Result<Vec<F>, AllocError>
    requires { len ≤ degree + 1 }
    ensures same { IfOk result (λ c. AgreeBelow len (of_list F.field c.items)
        (λ i. of_list F.field coeffs.now (degree - i))) }
    ensures len { IfOk result (λ c. length c.items ≡ len) }
{
    let mut reversed = Vec::with_capacity(alloc, len)?;
    for i in 0..len {
        reversed.push(coefficient_at(coeffs, degree - i))?;
    }
    Ok(reversed)
}

/// The first `known` coefficients, and after them those of the correction, taken negatively: `len`
/// coefficients in all.
pub fn corrected<F: Field>(
    alloc: Global,
    coeffs: &[F],
    correction: &[F],
    known: usize,
    len: usize,
) -> Result<Vec<F>, AllocError>
    requires { known ≤ len }
    ensures kept { IfOk result (λ c. AgreeBelow known (of_list F.field c.items)
        (of_list F.field coeffs.now)) }
    ensures rest { IfOk result (λ c. AgreeBelow (len - known) (past known (of_list F.field c.items))
        (opposite F.field (of_list F.field correction.now))) }
    ensures len { IfOk result (λ c. length c.items ≡ len) }
{
    let mut corrected = Vec::with_capacity(alloc, len)?;
    for i in 0..len {
        corrected.push(if i < known {
            coefficient_at(coeffs, i)
        } else {
            -coefficient_at(correction, i - known)
        })?;
    }
    Ok(corrected)
}
