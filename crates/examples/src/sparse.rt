//! The values of a sparse polynomial over a domain.

ghost use Rattle.std.specs.Prelude.{IfOk, IsOkUnless};
ghost use Rattle.ark_math_domains.specs.Points.{AreValues};
ghost use Rattle.ark_math.specs.Univariate.{of_pairs};

use ark_base::{FftField, PolyError};
use ark_poly::univariate::SparsePolynomial;
use ark_poly::{EvaluationDomain, Evaluations};
use std::alloc::Global;

/// The values at the domain's elements of the polynomial with these terms, given by degree and coefficient. The degrees
/// may be far past the domain's size.
pub fn values_of_terms<F: FftField, D: EvaluationDomain<F>>(
    alloc: Global,
    domain: D,
    terms: &[(usize, F)],
) -> Result<Evaluations<F, D>, PolyError>
    ensures values { IfOk result (λ v. AreValues F.field (D.domain domain) (of_pairs F.field terms.now) v.evals) }
    ensures memory { IsOkUnless result PolyError.Memory }
{
    let polynomial = SparsePolynomial::from_coefficients_slice(alloc, terms)?;
    polynomial.evaluate_over_domain_by_ref(alloc, domain)
}
