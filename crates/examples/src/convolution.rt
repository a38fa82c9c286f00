//! The convolution of two lists, by the product of polynomials.

ghost use Rattle.std.specs.Prelude.{◌≡◌, IfOk};
ghost use Rattle.ark_math.specs.Outcome.{IsOkUnlessEither};
ghost use Rattle.ark_math.specs.Univariate.{IsTrimmed, of_list, product};

use ark_base::{FftField, PolyError};
use ark_poly::DenseUVPolynomial;
use ark_poly::univariate::DensePolynomial;
use std::alloc::Global;

/// The convolution of two lists, without zeros at its end: item k is the sum of `left[i] * right[k - i]`
/// over all i. Where the field has no domain for its length it is made without one, by all products of two
/// items. The only errors are `Memory`, and `Overflow` where the length is past `usize::MAX`.
pub fn convolution<F: FftField>(alloc: Global, left: &[F], right: &[F]) -> Result<Vec<F>, PolyError>
    ensures product { IfOk result (λ both. of_list F.field both.items
        ≡ product F.field (of_list F.field left.now) (of_list F.field right.now)) }
    ensures trimmed { IfOk result (λ both. IsTrimmed F.field both.items) }
    ensures errors { IsOkUnlessEither result PolyError.Memory PolyError.Overflow }
{
    let left = DensePolynomial::from_coefficients_slice(alloc, left)?;
    let right = DensePolynomial::from_coefficients_slice(alloc, right)?;
    let both = match left.mul(alloc, &right) {
        Err(PolyError::NoDomain) => left.naive_mul(alloc, &right)?,
        through_a_domain => through_a_domain?,
    };
    Ok(Vec::from_slice(alloc, both.coeffs())?)
}
