//! Points and polynomials moved by a factor.
//!
//! Values down a tree are found the quickest where none of its points is a root of unity. Small integers often have 1
//! among them: times a generator they mostly are no roots of unity, and a polynomial moved the other way has the same
//! values there.

ghost use Rattle.std.specs.Prelude.{◌≡◌, IfOk};
ghost use Rattle.ark_math.specs.Univariate.{of_list};
ghost use Rattle.ark_points.specs.Steps.{ArePairsMoved, at_multiple};

use ark_bit_reversed::items::scale_by_powers;
use ark_traits::Field;
use ark_univariate::DenseUVPolynomial;
use ark_univariate::polynomial::univariate::DensePolynomial;
use std::alloc::{AllocError, Global};

/// The x of each pair times the factor, with its y.
pub fn moved_pairs<F: Field>(
    alloc: Global,
    pairs: &[(F, F)],
    factor: F,
) -> Result<Vec<(F, F)>, AllocError>
    ensures { IfOk result (λ v. ArePairsMoved F.field factor pairs.now v.items) }
{
    let mut moved = Vec::from_slice(alloc, pairs)?;
    scale_each_x(moved.as_mut_slice(), factor);
    Ok(moved)
}

// Multiplies the x of each pair by the factor.
fn scale_each_x<F: Field>(pairs: &mut [(F, F)], factor: F)
    ensures { ArePairsMoved F.field factor pairs.old pairs.new }
{
    for i in 0..pairs.len() {
        let pair = pairs[i];
        pairs[i] = (pair.0 * factor, pair.1);
    }
}

/// The polynomial that has at each x the value of the given one at the factor times x. It takes two products a
/// coefficient, and memory for the coefficients.
pub fn with_powers<F: Field>(
    alloc: Global,
    polynomial: &DensePolynomial<F>,
    factor: F,
) -> Result<DensePolynomial<F>, AllocError>
    ensures { IfOk result (λ p. of_list F.field p
        ≡ at_multiple F.field factor (of_list F.field polynomial.now)) }
{
    let mut coeffs = Vec::from_slice(alloc, polynomial.coeffs())?;
    scale_by_powers(coeffs.as_mut_slice(), factor);
    Ok(DensePolynomial::from_coefficients_vec(coeffs))
}
