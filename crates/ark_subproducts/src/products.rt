//! Products of x - z over points by transforms over blocks of roots of unity: each from the values of those over both halves.

ghost use Rattle.std.specs.Prelude.{◌≡◌, ℕ, ◌+◌, ◌-◌, ◌*◌, ◌^◌, ◌<◌, ◌≤◌, length, IfOk, IsOkUnless};
ghost use Rattle.ark_bit_reversed.specs.Blocks.{AreFirstValues, IsPowerOfTwo, size_of};
ghost use Rattle.ark_math_polynomials.specs.Nodes.{nodes};
ghost use Rattle.ark_math.specs.Univariate.{of_list, product};
ghost use Rattle.ark_subproducts.specs.Tree.{IsBegun};

use crate::quotients::product_of;
use ark_bit_reversed::{BlockRoots, product_of_few};
use ark_coeffs::dense::{multiply_each, subtract_each};
use ark_traits::{FftField, Field, PolyError};
use ark_univariate::DenseUVPolynomial;
use ark_univariate::univariate::DensePolynomial;
use std::alloc::{AllocError, Global};

// Up to so many factors x - z are multiplied without transforms.
const FEW_FACTORS: usize = 40;

// At most so many coefficients of a product come back below the others, as far as it has more than values.
const MOST_PAST: usize = 512;

/// The values at the first `count` elements of the product of x - z over the points.
pub fn product_values<F: FftField>(
    alloc: Global,
    table: &BlockRoots<F>,
    points: &[F],
    count: usize,
) -> Result<Vec<F>, AllocError>
    requires power { IsPowerOfTwo count }
    requires within { count ≤ size_of table.now }
    requires few { length points.now ≤ count }
    requires many { 64 ≤ count }
    ensures values { IfOk result (λ v. AreFirstValues F.field table.now count (nodes F.field points.now) v.items) }
{
    let (coeffs, known) = product(alloc, table, points, count_for(points.len()))?;
    extended(alloc, table, &coeffs, known, count)
}

/// The product of x - z over any points. Where the field has no roots of unity for as many, both halves are multiplied.
pub fn product_over<F: FftField>(
    alloc: Global,
    points: &[F],
) -> Result<DensePolynomial<F>, PolyError>
    ensures product { IfOk result (λ p. of_list F.field p ≡ nodes F.field points.now) }
    ensures memory { IsOkUnless result PolyError.Memory }
{
    if points.len() <= FEW_FACTORS {
        return Ok(DensePolynomial::from_coefficients_vec(product_of_few(alloc, points)?));
    }
    if let Some(table) = BlockRoots::new(alloc, points.len())? {
        let (coeffs, _) = product(alloc, &table, points, count_for(points.len()))?;
        return Ok(DensePolynomial::from_coefficients_vec(coeffs));
    }
    let half = points.len() / 2;
    let low = product_over(alloc, &points[..half])?;
    let high = product_over(alloc, &points[half..])?;
    product_of(alloc, &low, &high)
}

// As many values as a product of so many points is found by: a power of two, which may be a little less.
fn count_for(len: usize) -> usize
    requires { len ≤ 2 ^ 63 }
    ensures power { IsPowerOfTwo result }
    ensures enough { 16 * len ≤ 17 * result }
    ensures least { (count : ℕ) → IsPowerOfTwo count → len ≤ count → result ≤ count }
{
    let past = MOST_PAST.min(len / 17);
    (len - past).next_power_of_two()
}

// The coefficients of the product of x - z over the points; and of many its values at the first `count` elements.
fn product<F: FftField>(
    alloc: Global,
    table: &BlockRoots<F>,
    points: &[F],
    count: usize,
) -> Result<(Vec<F>, Option<Vec<F>>), AllocError>
    requires power { IsPowerOfTwo count }
    requires within { count ≤ size_of table.now }
    requires enough { 16 * length points.now ≤ 17 * count }
    ensures product { IfOk result (λ p. of_list F.field p.0.items ≡ nodes F.field points.now) }
    ensures len { IfOk result (λ p. length p.0.items ≡ length points.now + 1) }
    ensures begun { IfOk result (λ p. (n : ℕ) → 64 ≤ n → count ≤ n
        → IsBegun F.field table.now n p.0.items p.1) }
{
    if points.len() <= FEW_FACTORS {
        return Ok((product_of_few(alloc, points)?, None));
    }
    let half = points.len() / 2;
    let low = product(alloc, table, &points[..half], count / 2)?;
    let high = product(alloc, table, &points[half..], count / 2)?;
    joined(alloc, table, low, high, count)
}

// The product of two polynomials that are given by their coefficients, and maybe by their values at half as many elements.
fn joined<F: FftField>(
    alloc: Global,
    table: &BlockRoots<F>,
    low: (Vec<F>, Option<Vec<F>>),
    high: (Vec<F>, Option<Vec<F>>),
    count: usize,
) -> Result<(Vec<F>, Option<Vec<F>>), AllocError>
    requires power { IsPowerOfTwo count }
    requires within { count ≤ size_of table.now }
    requires low { IsBegun F.field table.now count low.0.items low.1 }
    requires high { IsBegun F.field table.now count high.0.items high.1 }
    requires low_some { 0 < length low.0.items }
    requires high_some { 0 < length high.0.items }
    requires few { length high.0.items ≤ count }
    requires room { length low.0.items + length high.0.items ≤ count + count }
    ensures product { IfOk result (λ p. of_list F.field p.0.items
        ≡ product F.field (of_list F.field low.0.items) (of_list F.field high.0.items)) }
    ensures len { IfOk result (λ p. length p.0.items + 1 ≡ length low.0.items + length high.0.items) }
    ensures begun { IfOk result (λ p. (n : ℕ) → count ≤ n
        → IsBegun F.field table.now n p.0.items p.1) }
{
    let (low, low_known) = low;
    let (high, high_known) = high;
    let mut values = extended(alloc, table, &low, low_known, count)?;
    let others = extended(alloc, table, &high, high_known, count)?;
    multiply_each(values.as_mut_slice(), &others);
    let coeffs = coefficients(alloc, table, &values, &low, &high)?;
    Ok((coeffs, Some(values)))
}

// The values at the first `count` elements of the polynomial with these coefficients; the first of them may be known.
pub(crate) fn extended<F: FftField>(
    alloc: Global,
    table: &BlockRoots<F>,
    coeffs: &[F],
    known: Option<Vec<F>>,
    count: usize,
) -> Result<Vec<F>, AllocError>
    requires power { IsPowerOfTwo count }
    requires within { count ≤ size_of table.now }
    requires begun { IsBegun F.field table.now count coeffs.now known }
    ensures values { IfOk result (λ v. AreFirstValues F.field table.now count (of_list F.field coeffs.now) v.items) }
{
    match known {
        Some(first) => {
            let mut values = first;
            table.extend(&mut values, coeffs, count)?;
            Ok(values)
        }
        None => table.values(alloc, coeffs, count),
    }
}

// The coefficients of the product of two polynomials from its values, of which there may be fewer: where a power of x is one,
// the coefficients from that power on come back below.
pub(crate) fn coefficients<F: FftField>(
    alloc: Global,
    table: &BlockRoots<F>,
    values: &[F],
    left: &[F],
    right: &[F],
) -> Result<Vec<F>, AllocError>
    requires power { IsPowerOfTwo (length values.now) }
    requires within { length values.now ≤ size_of table.now }
    requires left { 0 < length left.now }
    requires right { 0 < length right.now }
    requires few { length right.now ≤ length values.now }
    requires room { length left.now + length right.now ≤ length values.now + length values.now }
    ensures product { IfOk result (λ p. AreFirstValues F.field table.now (length values.now)
        (product F.field (of_list F.field left.now) (of_list F.field right.now)) values.now
        → of_list F.field p.items ≡ product F.field (of_list F.field left.now) (of_list F.field right.now)) }
    ensures len { IfOk result (λ p. length p.items + 1 ≡ length left.now + length right.now) }
{
    let len = left.len() + (right.len() - 1);
    let mut coeffs = Vec::with_capacity(alloc, len.max(values.len()))?;
    coeffs.extend_from_slice(values)?;
    table.interpolate(coeffs.as_mut_slice());
    let upper = coefficients_past(alloc, left, right, values.len())?;
    subtract_each(coeffs.as_mut_slice(), &upper);
    coeffs.extend_from_slice(&upper)?;
    coeffs.truncate(len);
    Ok(coeffs)
}

// The coefficients of a product from `start` on, which isn't below the second factor's degree.
fn coefficients_past<F: Field>(
    alloc: Global,
    left: &[F],
    right: &[F],
    start: usize,
) -> Result<Vec<F>, AllocError>
    requires right { 0 < length right.now }
    requires few { length right.now ≤ start + 1 }
    ensures past { IfOk result (λ v. (i : ℕ) → of_list F.field v.items i
        ≡ product F.field (of_list F.field left.now) (of_list F.field right.now) (start + i)) }
    ensures len { IfOk result (λ v. length v.items ≡ length left.now - (start + 1 - length right.now)) }
{
    let below = start - (right.len() - 1);
    let mut upper = Vec::from_slice(alloc, &left[below.min(left.len())..])?;
    multiply_upper(upper.as_mut_slice(), right);
    Ok(upper)
}

// Puts the coefficients of the product with a factor in place of the coefficients: those from the factor's
// degree on.
fn multiply_upper<F: Field>(coeffs: &mut [F], factor: &[F])
    ensures { (i : ℕ) → of_list F.field coeffs.new i ≡ product F.field (of_list F.field coeffs.old)
        (of_list F.field factor.now) (length factor.now - 1 + i) }
{
    for i in 0..coeffs.len() {
        coeffs[i] = coefficient_at_degree(&coeffs[i..], factor);
    }
}

// The coefficient of the product with a factor at the factor's degree.
fn coefficient_at_degree<F: Field>(coeffs: &[F], factor: &[F]) -> F
    ensures { result ≡ product F.field (of_list F.field coeffs.now) (of_list F.field factor.now)
        (length factor.now - 1) }
{
    let mut sum = F::zero();
    for i in 0..coeffs.len().min(factor.len()) {
        sum += coeffs[i] * factor[factor.len() - 1 - i];
    }
    sum
}
