//! Constant polynomials, and parts of products.

ghost use Rattle.std.specs.Prelude.{◌≡◌, ℕ, ◌+◌, ◌<◌, ◌≤◌, length, IfOk, IsOkUnless};
ghost use Rattle.ark_math_polynomials.specs.Linear.{constant as constant_of};
ghost use Rattle.ark_math.specs.Univariate.{of_list, product};

use ark_bit_reversed::items::clear;
use ark_coeffs::dense::add_scaled;
use ark_traits::{Field, PolyError};
use ark_univariate::DenseUVPolynomial;
use ark_univariate::univariate::DensePolynomial;
use std::alloc::Global;

/// The polynomial y.
pub fn constant<F: Field>(alloc: Global, y: F) -> Result<DensePolynomial<F>, PolyError>
    ensures constant { IfOk result (λ p. of_list F.field p ≡ constant_of F.field y) }
    ensures memory { IsOkUnless result PolyError.Memory }
{
    let mut coeffs = Vec::new(alloc);
    coeffs.push(y)?;
    Ok(DensePolynomial::from_coefficients_vec(coeffs))
}

/// Puts coefficients of a product in the items' place, from `start` on; the left factor has at most one more than that.
pub fn write_part<F: Field>(items: &mut [F], left: &[F], right: &[F], start: usize)
    requires { length left.now ≤ start + 1 }
    ensures len { length items.new ≡ length items.old }
    ensures part { (j : ℕ) → j < length items.old → of_list F.field items.new j
        ≡ product F.field (of_list F.field left.now) (of_list F.field right.now) (start + j) }
{
    clear(items);
    for i in 0..left.len() {
        let row = run_of(right, start - i, items.len());
        add_scaled(items, left[i], row);
    }
}

// The items from a place on, as many as there are and at most so many.
fn run_of<F: Field>(items: &[F], start: usize, most: usize) -> &[F]
    ensures len { length result.now ≤ most }
    ensures items { (j : ℕ) → j < most → of_list F.field result.now j ≡ of_list F.field items.now (start + j) }
{
    let rest = &items[start.min(items.len())..];
    &rest[..most.min(rest.len())]
}
