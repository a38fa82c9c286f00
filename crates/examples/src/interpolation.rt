//! An interpolation: from values over a domain to a value anywhere.

ghost use Rattle.std.specs.Prelude.{◌≡◌, ℕ, length, IfOk, IsOkUnless};
ghost use Rattle.ark_math_domains.specs.Points.{AreValues};
ghost use Rattle.ark_math.specs.Univariate.{IsBelow, IsValue};

use ark_base::{FftField, PolyError};
use ark_poly::{EvaluationDomain, Evaluations, Polynomial};
use std::alloc::Global;

/// The value at a point of the polynomial with these values at the domain's elements: whichever polynomial of a degree
/// below their number has them. Of shares over a coset it so gives the secret, which is the value at zero.
pub fn interpolated_value<F: FftField, D: EvaluationDomain<F>>(
    alloc: Global,
    domain: D,
    values: Vec<F>,
    point: F,
) -> Result<F, PolyError>
    requires { length values.items ≡ (D.domain domain).size }
    ensures value { IfOk result (λ y. (p : ℕ → F) → IsBelow F.field (D.domain domain).size p
        → AreValues F.field (D.domain domain) p values.items → IsValue F.field p point y) }
    ensures memory { IsOkUnless result PolyError.Memory }
{
    let polynomial = Evaluations::from_vec_and_domain(values, domain).interpolate(alloc)?;
    polynomial.evaluate(alloc, &point)
}
