//! Products of polynomials.

ghost use Rattle.std.specs.Prelude.{◌≡◌, ◌↔◌, IfOk, IfErr, OnOk, OnErr, IsOkUnless};
ghost use Rattle.ark_math.specs.Univariate.{of_list, product};
ghost use Rattle.ark_words.specs.Faults.{IsPlain};
ghost use Rattle.ark_words.specs.Numbers.{BothReduced};
ghost use Rattle.ark_words.specs.Products.{FitProduct, AreMultiplied};

use crate::element::WordElement;
use crate::error::WordsError;
use crate::lists::both;
use crate::padded::put_with_zeros;
use ark_traits::{FftField, PolyError};
use ark_univariate::polynomial::DenseUVPolynomial;
use ark_univariate::polynomial::univariate::DensePolynomial;
use std::alloc::Global;

/// The coefficients of the product of two polynomials, the lowest first, and zeros in what is left: there is
/// room where both factors together have at most one number more than the product. An empty factor is the
/// zero polynomial. It takes what `mul` of `DensePolynomial` does, and memory for the elements; where the
/// field has no domain for the product, what `naive_mul` does.
///
/// The errors are judged in this order: `Length` where a list isn't whole elements, or there is no room;
/// `NotReduced` where a number isn't below the modulus; `Memory` where none of these holds.
pub fn multiply<F: WordElement>(
    alloc: Global,
    left: &[u64],
    right: &[u64],
    product: &mut [u64],
) -> Result<(), WordsError>
    ensures product { OnOk result (AreMultiplied F.spelled left.now right.now product.new) }
    ensures kept { OnErr result (product.new ≡ product.old) }
    ensures taken { OnOk result (FitProduct F.spelled left.now right.now product.old
        × BothReduced F.spelled left.now right.now) }
    ensures length { (result ≡ Err WordsError.Length)
        ↔ (¬ FitProduct F.spelled left.now right.now product.old) }
    ensures not_reduced { (result ≡ Err WordsError.NotReduced)
        ↔ (FitProduct F.spelled left.now right.now product.old
        × (¬ BothReduced F.spelled left.now right.now)) }
    ensures no_other { IfErr result IsPlain }
{
    let width = F::WIDTH;
    if left.len() % width != 0 || right.len() % width != 0 || product.len() % width != 0 {
        return Err(WordsError::Length);
    }
    if left.len() / width + right.len() / width > product.len() / width + 1 {
        return Err(WordsError::Length);
    }
    let (left, right) = both::<F>(alloc, left, right)?;
    let left = DensePolynomial::from_coefficients_vec(left);
    let right = DensePolynomial::from_coefficients_vec(right);
    let found = product_of(alloc, &left, &right)?;
    put_with_zeros(product, found.coeffs());
    Ok(())
}

// The product, by transforms where the field has a domain for it.
fn product_of<F: FftField>(
    alloc: Global,
    left: &DensePolynomial<F>,
    right: &DensePolynomial<F>,
) -> Result<DensePolynomial<F>, WordsError>
    ensures product { IfOk result (λ p. of_list F.field p
        ≡ product F.field (of_list F.field left.now) (of_list F.field right.now)) }
    ensures memory { IsOkUnless result WordsError.Memory }
{
    match left.mul(alloc, right) {
        Ok(product) => Ok(product),
        Err(PolyError::NoDomain) => left.naive_mul(alloc, right).map_err(|_| WordsError::Memory),
        Err(_) => Err(WordsError::Memory),
    }
}
