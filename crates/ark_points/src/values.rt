//! Values at many points.

ghost use Rattle.std.specs.Prelude.{◌≡◌, ◌<◌, length, IfOk, IsOkUnless};
ghost use Rattle.ark_math.specs.Univariate.{of_list};
ghost use Rattle.ark_math_points.specs.AtPoints.{AreValuesAt, HasValues};
ghost use Rattle.ark_subproducts.specs.Tree.{IsTreeOver};

use crate::lookup::values_by_lookup;
use ark_bit_reversed::BlockRoots;
use ark_subproducts::{SubproductTree, naive_evaluate_at, remainder, values_by_table};
use ark_traits::{FftField, PolyError};
use ark_univariate::polynomial::univariate::DensePolynomial;
use ark_univariate::{DenseUVPolynomial, EvaluationDomain, GeneralEvaluationDomain};
use std::alloc::Global;

// Up to so many points or coefficients each value is found for itself.
const FEW: usize = 256;

/// The values of a polynomial at points, in their order. Points may be repeated.
///
/// For long lists it takes O(n log^2 n) operations, through products over domains of the field: down a tree
/// of products of x - z, where each part of the points is handed what has the polynomial's values there; and
/// memory for the tree. Where the field has no roots of unity for a power of two of the points or coefficients,
/// each half of the points is handed what the product over it leaves, by the divisions and products of
/// `DensePolynomial`, which take as long as these. Where all points are zero or elements of a domain for a few
/// times as many elements, up to 32, as there are points or coefficients, their values are looked up among those over
/// the domain: in O(n log n) operations, and memory for these. Short lists, and all where the field has no domain for
/// them, go as `naive_evaluate_at` does. The only error is `Memory`.
pub fn evaluate_at<F: FftField>(
    alloc: Global,
    polynomial: &DensePolynomial<F>,
    points: &[F],
) -> Result<Vec<F>, PolyError>
    ensures len { IfOk result (λ v. length v.items ≡ length points.now) }
    ensures values { IfOk result (λ v. HasValues F.field (length points.now) (of_list F.field points.now)
        (of_list F.field v.items) (of_list F.field polynomial.now)) }
    ensures memory { IsOkUnless result PolyError.Memory }
{
    let is_short = points.len() <= FEW || polynomial.coeffs().len() <= FEW;
    if is_short || GeneralEvaluationDomain::<F>::new(points.len()).is_none() {
        return naive_evaluate_at(alloc, polynomial, points);
    }
    values_at_many::<F, GeneralEvaluationDomain<F>>(alloc, polynomial, points)
}

// The values at some points: looked up, by a table of roots of unity, or by remainders where the field has no such table.
fn values_at_many<F: FftField, D: EvaluationDomain<F>>(
    alloc: Global,
    polynomial: &DensePolynomial<F>,
    points: &[F],
) -> Result<Vec<F>, PolyError>
    requires not_empty { 0 < length points.now }
    ensures values { IfOk result (λ v. AreValuesAt F.field points.now v.items (of_list F.field polynomial.now)) }
    ensures memory { IsOkUnless result PolyError.Memory }
{
    if let Some(values) = values_by_lookup::<F, D>(alloc, polynomial, points)? {
        return Ok(values);
    }
    let count = points.len().max(polynomial.coeffs().len());
    match BlockRoots::new(alloc, count)? {
        Some(blocks) => values_by_table(alloc, &blocks, polynomial, points),
        None => values_by_remainders(alloc, polynomial, points),
    }
}

// The values at some points, from what is left of the polynomial by the product of x - z over them.
fn values_by_remainders<F: FftField>(
    alloc: Global,
    polynomial: &DensePolynomial<F>,
    points: &[F],
) -> Result<Vec<F>, PolyError>
    requires not_empty { 0 < length points.now }
    ensures values { IfOk result (λ v. AreValuesAt F.field points.now v.items (of_list F.field polynomial.now)) }
    ensures memory { IsOkUnless result PolyError.Memory }
{
    let tree = SubproductTree::new(alloc, points)?;
    let rest = remainder(alloc, polynomial, tree.product())?;
    tree.values(alloc, &rest, points)
}

/// The values at the points of a tree, of which there are some: looked up, or by the tree.
pub fn values_with_tree<F: FftField, D: EvaluationDomain<F>>(
    alloc: Global,
    tree: &SubproductTree<F>,
    polynomial: &DensePolynomial<F>,
    points: &[F],
) -> Result<Vec<F>, PolyError>
    requires not_empty { 0 < length points.now }
    requires tree { IsTreeOver F.field points.now tree.now }
    ensures values { IfOk result (λ v. AreValuesAt F.field points.now v.items (of_list F.field polynomial.now)) }
    ensures memory { IsOkUnless result PolyError.Memory }
{
    match values_by_lookup::<F, D>(alloc, polynomial, points)? {
        Some(values) => Ok(values),
        None => tree.values(alloc, polynomial, points),
    }
}
