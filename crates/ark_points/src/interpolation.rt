//! The polynomial through given points.

ghost use Rattle.std.specs.Prelude.{◌≡◌, ◌≢◌, ℕ, ◌<◌, length, map, IfOk, IsOkUnless, Err};
ghost use Rattle.ark_math_polynomials.specs.Linear.{linear_factor};
ghost use Rattle.ark_math.specs.Outcome.{IsOkUnlessEither};
ghost use Rattle.ark_math.specs.Univariate.{IsBelow, of_list};
ghost use Rattle.ark_math_points.specs.AtPoints.{AreDifferent, HasRepeated, HasValues, IsThrough, x_of, y_of};
ghost use Rattle.ark_math_polynomials.specs.Nodes.{nodes};
ghost use Rattle.ark_subproducts.specs.Tree.{IsTreeOver, derived};

use crate::error::PointsError;
use crate::lookup::domain_of_samples;
use crate::moved::{moved_pairs, with_powers};
use crate::pairs::first_parts;
use crate::repeated::has_repeated;
use crate::values::values_with_tree;
use ark_bit_reversed::items::has_zero;
use ark_subproducts::{SubproductTree, constant};
use ark_traits::{FftField, Field, PolyError, Polynomial, batch_inversion};
use ark_univariate::polynomial::univariate::DensePolynomial;
use ark_univariate::{DenseUVPolynomial, EvaluationDomain, GeneralEvaluationDomain};
use std::alloc::{AllocError, Global};

// Up to so many pairs are taken one by one.
const FEW: usize = 64;

/// The polynomial through the given pairs of x and y, of a degree below their number: it has the value y at each x, and
/// no other one has. `RepeatedPoint` where two pairs have one x.
///
/// For many pairs it takes O(n log^2 n) operations, through products over domains of the field: Lagrange's form, summed up
/// a tree of products of x - z; and memory for the tree. Where the field has no roots of unity for a power of two of the
/// pairs, it goes as `evaluate_at` does then. Few pairs, and all where the field has no domain for them, go as
/// `naive_from_points` does.
pub fn from_points<F: FftField>(
    alloc: Global,
    points: &[(F, F)],
) -> Result<DensePolynomial<F>, PointsError>
    ensures below { IfOk result (λ p. IsBelow F.field (length points.now) (of_list F.field p)) }
    ensures values { IfOk result (λ p. HasValues F.field (length points.now) (x_of F.field points.now)
        (y_of F.field points.now) (of_list F.field p)) }
    ensures only { IfOk result (λ p. (a : ℕ → F) → IsBelow F.field (length points.now) a
        → HasValues F.field (length points.now) (x_of F.field points.now) (y_of F.field points.now) a
        → a ≡ of_list F.field p) }
    ensures different { IfOk result (λ p. AreDifferent (length points.now) (x_of F.field points.now)) }
    ensures repeated { (result ≡ Err PointsError.RepeatedPoint)
        → HasRepeated (length points.now) (x_of F.field points.now) }
    ensures errors { IsOkUnlessEither result PointsError.Memory PointsError.RepeatedPoint }
{
    if points.len() <= FEW || GeneralEvaluationDomain::<F>::new(points.len()).is_none() {
        return naive_from_points(alloc, points);
    }
    through_many::<F, GeneralEvaluationDomain<F>>(alloc, points)
}

// The polynomial through some pairs, by the one through those with x moved off the roots of unity: by a generator, but not
// where values at x are looked up among those over a domain.
fn through_many<F: FftField, D: EvaluationDomain<F>>(
    alloc: Global,
    points: &[(F, F)],
) -> Result<DensePolynomial<F>, PointsError>
    requires not_empty { 0 < length points.now }
    ensures through { IfOk result (λ p. IsThrough F.field points.now (of_list F.field p)) }
    ensures repeated { (result ≡ Err PointsError.RepeatedPoint)
        → HasRepeated (length points.now) (x_of F.field points.now) }
    ensures errors { IsOkUnlessEither result PointsError.Memory PointsError.RepeatedPoint }
{
    let factor = factor_for::<F, D>(points);
    let moved = moved_pairs(alloc, points, factor)?;
    let through = through_pairs::<F, D>(alloc, &moved)?;
    Ok(with_powers(alloc, &through, factor)?)
}

// By what the x of some pairs are moved.
fn factor_for<F: FftField, D: EvaluationDomain<F>>(points: &[(F, F)]) -> F
    requires { 0 < length points.now }
    ensures { result ≢ F.field.zero }
{
    let last = points.len() - 1;
    let (first, middle, end) = (points[0].0, points[last / 2].0, points[last].0);
    match domain_of_samples::<F, D>(points.len(), first, middle, end) {
        Some(_) => F::one(),
        None => F::GENERATOR,
    }
}

// The polynomial through some pairs, by a tree over their x as they are.
fn through_pairs<F: FftField, D: EvaluationDomain<F>>(
    alloc: Global,
    points: &[(F, F)],
) -> Result<DensePolynomial<F>, PointsError>
    requires not_empty { 0 < length points.now }
    ensures through { IfOk result (λ p. IsThrough F.field points.now (of_list F.field p)) }
    ensures repeated { (result ≡ Err PointsError.RepeatedPoint)
        → HasRepeated (length points.now) (x_of F.field points.now) }
    ensures errors { IsOkUnlessEither result PointsError.Memory PointsError.RepeatedPoint }
{
    let xs = first_parts(alloc, points)?;
    let tree = SubproductTree::new(alloc, &xs)?;
    through_tree::<F, D>(alloc, &tree, &xs, points)
}

// The polynomial through pairs that have these x.
fn through_tree<F: FftField, D: EvaluationDomain<F>>(
    alloc: Global,
    tree: &SubproductTree<F>,
    xs: &[F],
    points: &[(F, F)],
) -> Result<DensePolynomial<F>, PointsError>
    requires not_empty { 0 < length points.now }
    requires xs { xs.now ≡ map (λ p. p.0) points.now }
    requires tree { IsTreeOver F.field xs.now tree.now }
    ensures through { IfOk result (λ p. IsThrough F.field points.now (of_list F.field p)) }
    ensures repeated { (result ≡ Err PointsError.RepeatedPoint)
        → HasRepeated (length points.now) (x_of F.field points.now) }
    ensures errors { IsOkUnlessEither result PointsError.Memory PointsError.RepeatedPoint }
{
    let slopes = slopes::<F, D>(alloc, tree, xs)?;
    if has_zero(&slopes) {
        // Two points are one, as the plain way tells.
        let polynomial = naive_from_points(alloc, points)?;
        return Ok(polynomial);
    }
    Ok(summed_up(alloc, tree, xs, &slopes, points)?)
}

// Lagrange's sum for pairs that have these x, with these slopes of the product of x - z at them.
fn summed_up<F: FftField>(
    alloc: Global,
    tree: &SubproductTree<F>,
    xs: &[F],
    slopes: &[F],
    points: &[(F, F)],
) -> Result<DensePolynomial<F>, PolyError>
    requires xs { xs.now ≡ map (λ p. p.0) points.now }
    requires tree { IsTreeOver F.field xs.now tree.now }
    requires len { length slopes.now ≡ length xs.now }
    requires slopes { HasValues F.field (length xs.now) (of_list F.field xs.now) (of_list F.field slopes.now)
        (derived F.field (nodes F.field xs.now)) }
    requires not_zero { (i : ℕ) → i < length slopes.now → of_list F.field slopes.now i ≢ F.field.zero }
    ensures through { IfOk result (λ p. IsThrough F.field points.now (of_list F.field p)) }
    ensures memory { IsOkUnless result PolyError.Memory }
{
    let weights = weights(alloc, slopes, points)?;
    let sum = tree.weighed(alloc, xs, &weights)?;
    Ok(sum)
}

// The slope at each point of the product of x - z over all of them.
fn slopes<F: FftField, D: EvaluationDomain<F>>(
    alloc: Global,
    tree: &SubproductTree<F>,
    points: &[F],
) -> Result<Vec<F>, PolyError>
    requires not_empty { 0 < length points.now }
    requires tree { IsTreeOver F.field points.now tree.now }
    ensures len { IfOk result (λ v. length v.items ≡ length points.now) }
    ensures slopes { IfOk result (λ v. HasValues F.field (length points.now) (of_list F.field points.now)
        (of_list F.field v.items) (derived F.field (nodes F.field points.now))) }
    ensures memory { IsOkUnless result PolyError.Memory }
{
    let coeffs = derivative(alloc, tree.product().coeffs())?;
    let derivative = DensePolynomial::from_coefficients_vec(coeffs);
    values_with_tree::<F, D>(alloc, tree, &derivative, points)
}

// The coefficients of the formal derivative.
fn derivative<F: Field>(alloc: Global, coeffs: &[F]) -> Result<Vec<F>, AllocError>
    ensures { IfOk result (λ v. of_list F.field v.items ≡ derived F.field (of_list F.field coeffs.now)) }
{
    let mut lowered = Vec::with_capacity(alloc, coeffs.len())?;
    let mut exponent = F::zero();
    for i in 1..coeffs.len() {
        exponent = exponent + F::one();
        lowered.push(exponent * coeffs[i])?;
    }
    Ok(lowered)
}

// Each y by the slope at its place.
fn weights<F: Field>(alloc: Global, slopes: &[F], points: &[(F, F)]) -> Result<Vec<F>, PolyError>
    requires len { length slopes.now ≡ length points.now }
    requires not_zero { (i : ℕ) → i < length slopes.now → of_list F.field slopes.now i ≢ F.field.zero }
    ensures len { IfOk result (λ v. length v.items ≡ length points.now) }
    ensures weights { IfOk result (λ v. (i : ℕ) → i < length points.now → F.field.times
        (of_list F.field v.items i) (of_list F.field slopes.now i) ≡ y_of F.field points.now i) }
    ensures memory { IsOkUnless result PolyError.Memory }
{
    let mut weights = Vec::from_slice(alloc, slopes)?;
    batch_inversion(alloc, weights.as_mut_slice())?;
    multiply_by_values(weights.as_mut_slice(), points);
    Ok(weights)
}

// Multiplies each item by the y at its place.
fn multiply_by_values<F: Field>(items: &mut [F], points: &[(F, F)])
    requires { length items.old ≡ length points.now }
    ensures len { length items.new ≡ length items.old }
    ensures products { (i : ℕ) → i < length points.now → of_list F.field items.new i
        ≡ F.field.times (of_list F.field items.old i) (y_of F.field points.now i) }
{
    for i in 0..points.len() {
        let point = points[i];
        items[i] = items[i] * point.1;
    }
}

/// The polynomial through the given pairs of x and y, a pair at a time, by Newton's way: what `from_points` answers.
///
/// It takes some two products for each two pairs, and an inversion for each.
pub fn naive_from_points<F: Field>(
    alloc: Global,
    points: &[(F, F)],
) -> Result<DensePolynomial<F>, PointsError>
    ensures below { IfOk result (λ p. IsBelow F.field (length points.now) (of_list F.field p)) }
    ensures values { IfOk result (λ p. HasValues F.field (length points.now) (x_of F.field points.now)
        (y_of F.field points.now) (of_list F.field p)) }
    ensures only { IfOk result (λ p. (a : ℕ → F) → IsBelow F.field (length points.now) a
        → HasValues F.field (length points.now) (x_of F.field points.now) (y_of F.field points.now) a
        → a ≡ of_list F.field p) }
    ensures different { IfOk result (λ p. AreDifferent (length points.now) (x_of F.field points.now)) }
    ensures repeated { (result ≡ Err PointsError.RepeatedPoint)
        → HasRepeated (length points.now) (x_of F.field points.now) }
    ensures errors { IsOkUnlessEither result PointsError.Memory PointsError.RepeatedPoint }
{
    let xs = first_parts(alloc, points)?;
    if has_repeated(&xs) {
        return Err(PointsError::RepeatedPoint);
    }
    Ok(through_different(alloc, points)?)
}

// The polynomial through pairs with different x.
fn through_different<F: Field>(
    alloc: Global,
    points: &[(F, F)],
) -> Result<DensePolynomial<F>, PolyError>
    requires { AreDifferent (length points.now) (x_of F.field points.now) }
    ensures below { IfOk result (λ p. IsBelow F.field (length points.now) (of_list F.field p)) }
    ensures values { IfOk result (λ p. HasValues F.field (length points.now) (x_of F.field points.now)
        (y_of F.field points.now) (of_list F.field p)) }
{
    let mut polynomial = DensePolynomial::zero(alloc)?;
    // Zero at the points so far, and nowhere else.
    let mut nodes = constant(alloc, F::one())?;
    for i in 0..points.len() {
        let point = points[i];
        let known = polynomial.evaluate(alloc, &point.0)?;
        let node = nodes.evaluate(alloc, &point.0)?;
        let inverse = node.inverse().unwrap();
        let step = (point.1 - known) * inverse;
        polynomial.add_assign_scaled(alloc, step, &nodes)?;
        let factor = linear(alloc, point.0)?;
        nodes = nodes.naive_mul(alloc, &factor)?;
    }
    Ok(polynomial)
}

// The polynomial x - z.
fn linear<F: Field>(alloc: Global, z: F) -> Result<DensePolynomial<F>, PolyError>
    ensures { IfOk result (λ p. of_list F.field p ≡ linear_factor F.field z) }
{
    let mut coeffs = Vec::new(alloc);
    coeffs.push(-z)?;
    coeffs.push(F::one())?;
    Ok(DensePolynomial::from_coefficients_vec(coeffs))
}
