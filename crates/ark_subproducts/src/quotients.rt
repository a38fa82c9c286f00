//! Products and remainders of polynomials, through transforms where the field has domains for them.

ghost use Rattle.std.specs.Prelude.{◌≡◌, ℕ, IfOk, IsOkUnless};
ghost use Rattle.ark_math.specs.Univariate.{IsQuotient, of_list, product};
ghost use Rattle.ark_subproducts.specs.Tree.{IsMonic};

use ark_traits::{FftField, PolyError};
use ark_univariate::DenseUVPolynomial;
use ark_univariate::univariate::DensePolynomial;
use std::alloc::Global;

/// The product: one coefficient by another where the field has no domain for it.
pub fn product_of<F: FftField>(
    alloc: Global,
    left: &DensePolynomial<F>,
    right: &DensePolynomial<F>,
) -> Result<DensePolynomial<F>, PolyError>
    ensures product { IfOk result (λ p. of_list F.field p
        ≡ product F.field (of_list F.field left.now) (of_list F.field right.now)) }
    ensures memory { IsOkUnless result PolyError.Memory }
{
    match left.mul(alloc, right) {
        // What overflows is too long for memory.
        Err(PolyError::NoDomain) => left.naive_mul(alloc, right).map_err(|_| PolyError::Memory),
        answer => answer,
    }
}

/// What is left of a polynomial by a divisor whose leading coefficient is one.
pub fn remainder<F: FftField>(
    alloc: Global,
    polynomial: &DensePolynomial<F>,
    divisor: &DensePolynomial<F>,
) -> Result<DensePolynomial<F>, PolyError>
    requires monic { (n : ℕ) × IsMonic F.field n (of_list F.field divisor.now) }
    ensures remainder { IfOk result (λ r. (q : ℕ → F) × IsQuotient F.field (of_list F.field polynomial.now)
        (of_list F.field divisor.now) q (of_list F.field r)) }
    ensures memory { IsOkUnless result PolyError.Memory }
{
    match polynomial.divide_by_transforms(alloc, divisor)? {
        Some(division) => Ok(division.1),
        None => Err(PolyError::NoDomain),
    }
}
