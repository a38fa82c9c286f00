//! Products of x - r over roots.

ghost use Rattle.std.specs.Prelude.{◌≡◌, ◌+◌, ◌<◌, length, IfOk, OnOk};
ghost use Rattle.ark_math_polynomials.specs.Linear.{linear_factor};
ghost use Rattle.ark_math.specs.Univariate.{of_list, product};
ghost use Rattle.ark_math_polynomials.specs.Nodes.{nodes};

use ark_traits::Field;
use std::alloc::{AllocError, Global};

/// The coefficients of the product of x - r over the roots, which are multiplied in two at a time: for lists so short that
/// halves don't pay.
pub fn product_of_few<F: Field>(alloc: Global, roots: &[F]) -> Result<Vec<F>, AllocError>
    ensures product { IfOk result (λ v. of_list F.field v.items ≡ nodes F.field roots.now) }
    ensures len { IfOk result (λ v. length v.items ≡ length roots.now + 1) }
{
    let mut coeffs = Vec::with_capacity(alloc, roots.len().saturating_add(1))?;
    coeffs.push(F::one())?;
    for k in 0..roots.len() / 2 {
        multiply_by_two(&mut coeffs, roots[2 * k], roots[2 * k + 1])?;
    }
    if roots.len() % 2 == 1 {
        multiply_by_linear(&mut coeffs, roots[roots.len() - 1])?;
    }
    Ok(coeffs)
}

// Multiplies the polynomial with these coefficients by x - r, in place, from the highest one down.
fn multiply_by_linear<F: Field>(coeffs: &mut Vec<F>, root: F) -> Result<(), AllocError>
    ensures product { OnOk result (of_list F.field coeffs.new.items
        ≡ product F.field (of_list F.field coeffs.old.items) (linear_factor F.field root)) }
    ensures len { OnOk result (length coeffs.new.items ≡ length coeffs.old.items + 1) }
{
    coeffs.push(F::zero())?;
    for i in (1..coeffs.len()).rev() {
        coeffs[i] = coeffs[i - 1] - root * coeffs[i];
    }
    coeffs[0] = -(root * coeffs[0]);
    Ok(())
}

// Multiplies it by x - r for two roots: by x^2, less x times their sum, and their product.
fn multiply_by_two<F: Field>(coeffs: &mut Vec<F>, root: F, other: F) -> Result<(), AllocError>
    requires { 0 < length coeffs.old.items }
    ensures product { OnOk result (of_list F.field coeffs.new.items ≡ product F.field
        (product F.field (of_list F.field coeffs.old.items) (linear_factor F.field root))
        (linear_factor F.field other)) }
    ensures len { OnOk result (length coeffs.new.items ≡ length coeffs.old.items + 2) }
{
    let sum = root + other;
    let both = root * other;
    coeffs.push(F::zero())?;
    coeffs.push(F::zero())?;
    for i in (2..coeffs.len()).rev() {
        coeffs[i] = coeffs[i - 2] - sum * coeffs[i - 1] + both * coeffs[i];
    }
    coeffs[1] = both * coeffs[1] - sum * coeffs[0];
    coeffs[0] = both * coeffs[0];
    Ok(())
}
