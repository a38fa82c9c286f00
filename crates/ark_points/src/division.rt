//! Division by x - z.

ghost use Rattle.std.specs.Prelude.{◌≡◌, ℕ, ◌+◌, drop, IfOk, IsOkUnless};
ghost use Rattle.ark_math_polynomials.specs.Linear.{constant, linear_factor};
ghost use Rattle.ark_math.specs.Module.{itself};
ghost use Rattle.ark_math.specs.Transform.{value_at};
ghost use Rattle.ark_math.specs.Univariate.{IsBelow, IsValue, added, of_list, product};

use ark_traits::{Field, PolyError};
use ark_univariate::DenseUVPolynomial;
use ark_univariate::polynomial::univariate::DensePolynomial;
use std::alloc::Global;

/// The quotient of a polynomial by x - z, and its value at the point z, which is what the division leaves: by Horner's
/// rule, whose steps are the quotient's coefficients. What is left of the polynomial without its value is the quotient
/// times x - z, and no other polynomial's product with x - z: the opening of a commitment scheme.
///
/// It takes one pass with a product for each coefficient, and memory for the quotient. The only error is `Memory`.
pub fn divide_by_linear<F: Field>(
    alloc: Global,
    polynomial: &DensePolynomial<F>,
    point: F,
) -> Result<(DensePolynomial<F>, F), PolyError>
    ensures value { IfOk result (λ p. IsValue F.field (of_list F.field polynomial.now) point p.1) }
    ensures quotient { IfOk result (λ p. of_list F.field polynomial.now ≡ added F.field
        (product F.field (of_list F.field p.0) (linear_factor F.field point)) (constant F.field p.1)) }
    ensures only { IfOk result (λ p. (q : ℕ → F) (n : ℕ) → IsBelow F.field n q
        → of_list F.field polynomial.now ≡ added F.field (product F.field q (linear_factor F.field point))
        (constant F.field p.1) → q ≡ of_list F.field p.0) }
    ensures memory { IsOkUnless result PolyError.Memory }
{
    let mut coeffs = Vec::from_slice(alloc, polynomial.coeffs())?;
    let value = divide_in_place(coeffs.as_mut_slice(), point);
    Ok((DensePolynomial::from_coefficients_vec(coeffs), value))
}

// Leaves the coefficients of the quotient by x - z, and gives the value at z. Coefficient i of the quotient is the value
// of the coefficients past i.
fn divide_in_place<F: Field>(coeffs: &mut [F], point: F) -> F
    ensures value { result ≡ value_at F.field (itself F.field) coeffs.old point }
    ensures quotient { (i : ℕ) → of_list F.field coeffs.new i
        ≡ value_at F.field (itself F.field) (drop (i + 1) coeffs.old) point }
{
    let mut value = F::zero();
    for i in (0..coeffs.len()).rev() {
        let own = coeffs[i];
        coeffs[i] = value;
        value = value * point + own;
    }
    value
}
