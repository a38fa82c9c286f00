//! SubproductTree of `x - z` over few points, what they weigh, and values at few points, a point or a coefficient at a time.

ghost use Rattle.std.specs.Prelude.{◌≡◌, ℕ, ◌+◌, ◌-◌, ◌/◌, ◌<◌, ◌≤◌, drop, length, take, IfOk, OnOk};
ghost use Rattle.ark_math.specs.Univariate.{of_list, product, scaled};
ghost use Rattle.ark_math_points.specs.AtPoints.{HasValues};
ghost use Rattle.ark_subproducts.specs.Steps.{power_sum};
ghost use Rattle.ark_math_polynomials.specs.Nodes.{nodes};
ghost use Rattle.ark_subproducts.specs.Tree.{AreFewProducts, IsScaledRemainder, weighed};

use crate::multiple::Multiple;
use crate::parts::write_part;
use ark_bit_reversed::items::{clear, sum_of};
use ark_bit_reversed::product_of_few;
use ark_coeffs::dense::{multiply_each, naive_product, scale_each, zeros};
use ark_traits::Field;
use ark_univariate::DenseUVPolynomial;
use ark_univariate::univariate::DensePolynomial;
use std::alloc::{AllocError, Global};

/// Parts of at most so many points are not halved.
pub const FEW_POINTS: usize = 32;

/// The product of x - z over few points, and the coefficients of those over both halves of the points.
#[derive(Drop)]
pub struct FewProducts<F: Field> {
    pub whole: DensePolynomial<F>,
    pub low: Vec<F>,
    pub high: Vec<F>,
}

impl<F: Field> FewProducts<F> {
    /// Over these points, in their order.
    pub fn new(alloc: Global, points: &[F]) -> Result<Self, AllocError>
        ensures { IfOk result (λ p. AreFewProducts F.field points.now p) }
    {
        let half = points.len() / 2;
        let low = product_of_few(alloc, &points[..half])?;
        let high = product_of_few(alloc, &points[half..])?;
        let whole = whole_product(alloc, &low, &high)?;
        Ok(FewProducts { whole, low, high })
    }
}

// The product of the polynomials with these coefficients.
fn whole_product<F: Field>(
    alloc: Global,
    left: &[F],
    right: &[F],
) -> Result<DensePolynomial<F>, AllocError>
    ensures { IfOk result (λ p. of_list F.field p
        ≡ product F.field (of_list F.field left.now) (of_list F.field right.now)) }
{
    // What overflows is too long for memory.
    let coeffs = naive_product(alloc, left, right).map_err(|_| AllocError)?;
    Ok(DensePolynomial::from_coefficients_vec(coeffs))
}

/// Writes the values at few points of the polynomial whose scaled remainder is what is given, by its coefficients, a half of
/// the points at a time.
pub fn write_few_values<F: Field>(
    alloc: Global,
    products: &FewProducts<F>,
    points: &[F],
    given: &Multiple<F>,
    values: &mut [F],
) -> Result<(), AllocError>
    requires products { AreFewProducts F.field points.now products.now }
    requires few { length given.now.items.items ≤ length points.now }
    requires len { length values.old ≡ length points.now }
    ensures len { length values.new ≡ length values.old }
    ensures values { OnOk result ((p : ℕ → F) → IsScaledRemainder F.field (length points.now) (nodes F.field points.now) p
        (scaled F.field given.now.scale (of_list F.field given.now.items.items)) → HasValues F.field (length points.now)
        (of_list F.field points.now) (of_list F.field values.new) p) }
{
    let half = points.len() / 2;
    let mut room = zeros(alloc, points.len())?;
    let remainders = room.as_mut_slice();
    halve_remainder(remainders, products, points, given);
    let (for_low, for_high) = remainders.split_at_mut(half);
    let (to_low, to_high) = values.split_at_mut(half);
    write_values_of_remainder(&products.low, &points[..half], for_low, to_low);
    write_values_of_remainder(&products.high, &points[half..], for_high, to_high);
    Ok(())
}

// Puts the scaled remainder over the first half of the points, from the one given over all, in the items' place, and behind it
// that over the others: middle products with the products over the other halves.
fn halve_remainder<F: Field>(
    items: &mut [F],
    products: &FewProducts<F>,
    points: &[F],
    given: &Multiple<F>,
)
    requires len { length items.old ≡ length points.now }
    requires products { AreFewProducts F.field points.now products.now }
    ensures len { length items.new ≡ length items.old }
    ensures low { (j : ℕ) → j < length points.now / 2 → of_list F.field items.new j ≡ F.field.times
        (product F.field (nodes F.field (drop (length points.now / 2) points.now)) (of_list F.field given.now.items.items)
        (length points.now - length points.now / 2 + j)) given.now.scale }
    ensures high { (j : ℕ) → j < length points.now - length points.now / 2
        → of_list F.field items.new (length points.now / 2 + j) ≡ F.field.times
        (product F.field (nodes F.field (take (length points.now / 2) points.now)) (of_list F.field given.now.items.items)
        (length points.now / 2 + j)) given.now.scale }
{
    let half = points.len() / 2;
    let (for_low, for_high) = items.split_at_mut(half);
    write_part(for_low, &products.high, &given.items, points.len() - half);
    write_part(for_high, &products.low, &given.items, half);
    scale_each(items, given.scale);
}

// Writes the values at the points of the polynomial with the given scaled remainder: those of the product times it from the
// points' number on. These coefficients take the given ones' place.
fn write_values_of_remainder<F: Field>(
    over_points: &[F],
    points: &[F],
    given: &mut [F],
    values: &mut [F],
)
    requires over_points { of_list F.field over_points.now ≡ nodes F.field points.now }
    requires count { length over_points.now ≡ length points.now + 1 }
    requires given { length given.old ≡ length points.now }
    requires len { length values.old ≡ length points.now }
    ensures len { length values.new ≡ length values.old }
    ensures values { (p : ℕ → F) → IsScaledRemainder F.field (length points.now) (nodes F.field points.now) p
        (of_list F.field given.old) → HasValues F.field (length points.now) (of_list F.field points.now)
        (of_list F.field values.new) p }
{
    write_part(values, over_points, given, points.len());
    given.copy_from_slice(values);
    write_values_of(given, points, values);
}

// The coefficients from the points' number on of the product over all points times the given polynomial.
fn product_past<F: Field>(
    alloc: Global,
    over_points: &DensePolynomial<F>,
    points: &[F],
    given: &[F],
) -> Result<Vec<F>, AllocError>
    requires over_points { of_list F.field over_points.now ≡ nodes F.field points.now }
    requires few { length given.now ≤ length points.now }
    ensures past { IfOk result (λ v. of_list F.field v.items ≡ (λ i. product F.field (nodes F.field points.now)
        (of_list F.field given.now) (i + length points.now))) }
    ensures len { IfOk result (λ v. length v.items ≡ length points.now) }
{
    let mut past = zeros(alloc, points.len())?;
    write_part(
        past.as_mut_slice(),
        over_points.coeffs(),
        given,
        points.len(),
    );
    Ok(past)
}

// Writes the values at the points of the polynomial with these coefficients, the highest first: at all points in turn, so that
// no product waits for the last one.
fn write_values_of<F: Field>(coeffs: &[F], points: &[F], values: &mut [F])
    requires { length values.old ≡ length points.now }
    ensures len { length values.new ≡ length values.old }
    ensures values { HasValues F.field (length points.now) (of_list F.field points.now)
        (of_list F.field values.new) (of_list F.field coeffs.now) }
{
    clear(values);
    for i in (0..coeffs.len()).rev() {
        multiply_and_add(values, points, coeffs[i]);
    }
}

// Multiplies each value by its point, and adds a coefficient.
fn multiply_and_add<F: Field>(values: &mut [F], points: &[F], coefficient: F)
    requires { length values.old ≡ length points.now }
    ensures len { length values.new ≡ length values.old }
    ensures values { (i : ℕ) → i < length points.now → of_list F.field values.new i ≡ F.field.plus
        (F.field.times (of_list F.field values.old i) (of_list F.field points.now i)) coefficient }
{
    for i in 0..points.len() {
        values[i] = values[i] * points[i] + coefficient;
    }
}

/// The sum of each weight times the product of x - z over the other points, from the product over all of them.
pub fn weighed_few<F: Field>(
    alloc: Global,
    product: &DensePolynomial<F>,
    points: &[F],
    weights: &[F],
) -> Result<Vec<F>, AllocError>
    requires product { of_list F.field product.now ≡ nodes F.field points.now }
    requires len { length weights.now ≡ length points.now }
    ensures sum { IfOk result (λ s. of_list F.field s.items
        ≡ weighed F.field points.now (of_list F.field weights.now)) }
    ensures len { IfOk result (λ s. length s.items ≡ length points.now) }
{
    let sums = power_sums(alloc, points, weights)?;
    product_past(alloc, product, points, &sums)
}

// The sums of the weights times powers of their points, that of the power 0 last.
fn power_sums<F: Field>(alloc: Global, points: &[F], weights: &[F]) -> Result<Vec<F>, AllocError>
    requires { length weights.now ≡ length points.now }
    ensures sums { IfOk result (λ s. (k : ℕ) → k < length points.now → of_list F.field s.items k
        ≡ power_sum F.field points.now (of_list F.field weights.now) (length points.now - 1 - k)) }
    ensures len { IfOk result (λ s. length s.items ≡ length points.now) }
{
    let mut terms = Vec::from_slice(alloc, weights)?;
    let mut sums = zeros(alloc, points.len())?;
    for place in (0..points.len()).rev() {
        sums[place] = sum_of(&terms);
        multiply_each(terms.as_mut_slice(), points);
    }
    Ok(sums)
}
