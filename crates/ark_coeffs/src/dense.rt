//! Coefficients by their exponents: item i of a list is the coefficient at i.

ghost use Rattle.std.specs.Prelude.{◌≡◌, ◌≢◌, ◌↔◌, ℕ, ◌+◌, ◌-◌, ◌<◌, ◌≤◌, length, IfOk, OnOk, OnErr};
ghost use Rattle.std.specs.Prelude.{IsOkUnless, IsTrue, List, replicate, take, drop};
ghost use Rattle.ark_math.specs.Outcome.{IsOkUnlessEither};
ghost use Rattle.ark_math.specs.Module.{itself, sum_below};
ghost use Rattle.ark_math.specs.Field.{IsPlaceQuotient};
ghost use Rattle.ark_math.specs.Univariate.{IsBelow, IsTrimmed, IsValue, of_list, added, difference, opposite};
ghost use Rattle.ark_math.specs.Univariate.{monomial, product, scaled};

use ark_traits::{Field, PolyError, batch_inversion};
use std::alloc::{AllocError, Global};

/// How many coefficients there are up to the last that isn't zero.
pub fn trimmed_len<F: Field>(coeffs: &[F]) -> usize
    ensures within { result ≤ length coeffs.now }
    ensures rest { IsBelow F.field result (of_list F.field coeffs.now) }
    ensures last { 0 < result → of_list F.field coeffs.now (result - 1) ≢ F.field.zero }
{
    for i in (0..coeffs.len()).rev() {
        if !coeffs[i].is_zero() {
            return i + 1;
        }
    }
    0
}

/// Whether the last coefficient isn't zero, where there is one.
pub fn is_trimmed<F: Field>(coeffs: &[F]) -> bool
    ensures { IsTrue result ↔ IsTrimmed F.field coeffs.now }
{
    match coeffs.last() {
        Some(last) => !last.is_zero(),
        None => true,
    }
}

/// Adds to each coefficient the one of the same exponent.
pub fn add_each<F: Field>(coeffs: &mut [F], other: &[F])
    requires { length other.now ≤ length coeffs.old }
    ensures { of_list F.field coeffs.new ≡ added F.field (of_list F.field coeffs.old)
        (of_list F.field other.now) }
{
    for i in 0..other.len() {
        coeffs[i] += other[i];
    }
}

/// Subtracts from each coefficient the one of the same exponent.
pub fn subtract_each<F: Field>(coeffs: &mut [F], other: &[F])
    requires { length other.now ≤ length coeffs.old }
    ensures { of_list F.field coeffs.new ≡ added F.field (of_list F.field coeffs.old)
        (opposite F.field (of_list F.field other.now)) }
{
    for i in 0..other.len() {
        coeffs[i] -= other[i];
    }
}

/// Adds to each coefficient a multiple of the one of the same exponent.
pub fn add_scaled<F: Field>(coeffs: &mut [F], factor: F, other: &[F])
    requires { length other.now ≤ length coeffs.old }
    ensures { of_list F.field coeffs.new ≡ added F.field (of_list F.field coeffs.old)
        (scaled F.field factor (of_list F.field other.now)) }
{
    for i in 0..other.len() {
        coeffs[i] += factor * other[i];
    }
}

/// Multiplies each coefficient by the factor.
pub fn scale_each<F: Field>(coeffs: &mut [F], factor: F)
    ensures { of_list F.field coeffs.new ≡ scaled F.field factor (of_list F.field coeffs.old) }
{
    for i in 0..coeffs.len() {
        coeffs[i] *= factor;
    }
}

/// Negates each coefficient.
pub fn negate_each<F: Field>(coeffs: &mut [F])
    ensures { of_list F.field coeffs.new ≡ opposite F.field (of_list F.field coeffs.old) }
{
    for i in 0..coeffs.len() {
        coeffs[i] = -coeffs[i];
    }
}

/// Multiplies each item by the one at its place.
pub fn multiply_each<F: Field>(items: &mut [F], other: &[F])
    requires { length other.now ≡ length items.old }
    ensures { (i : ℕ) → of_list F.field items.new i
        ≡ F.field.times (of_list F.field items.old i) (of_list F.field other.now i) }
{
    for i in 0..other.len() {
        items[i] *= other[i];
    }
}

/// Divides each item by the one at its place, by one batch inversion: zero where the divisor is. After an
/// error the items are as they were.
pub fn divide_each<F: Field>(alloc: Global, items: &mut [F], other: &[F]) -> Result<(), PolyError>
    requires { length other.now ≡ length items.old }
    ensures quotients { OnOk result ((i : ℕ) → i < length items.old
        → IsPlaceQuotient F.field (of_list F.field items.old i) (of_list F.field other.now i)
        (of_list F.field items.new i)) }
    ensures kept { OnErr result (items.new ≡ items.old) }
    ensures memory { IsOkUnless result PolyError.Memory }
{
    let mut inverses = Vec::from_slice(alloc, other)?;
    batch_inversion(alloc, inverses.as_mut_slice())?;
    multiply_each(items, &inverses);
    Ok(())
}

/// The sum of the products of the items at each place.
pub fn sum_of_products<F: Field>(left: &[F], right: &[F]) -> F
    requires { length right.now ≤ length left.now }
    ensures { result ≡ sum_below (itself F.field) (length right.now)
        (λ i. F.field.times (of_list F.field left.now i) (of_list F.field right.now i)) }
{
    let mut sum = F::zero();
    for i in 0..right.len() {
        sum += left[i] * right[i];
    }
    sum
}

/// Adds the product of two lists of coefficients.
pub fn add_product<F: Field>(coeffs: &mut [F], left: &[F], right: &[F])
    requires zeros { coeffs.old ≡ replicate (length left.now + length right.now - 1) F.field.zero }
    ensures { of_list F.field coeffs.new ≡ product F.field (of_list F.field left.now)
        (of_list F.field right.now) }
{
    for i in 0..left.len() {
        for j in 0..right.len() {
            coeffs[i + j] += left[i] * right[j];
        }
    }
}

/// The value at a point, by Horner's method in steps of four coefficients: of a step's products one alone
/// waits for the step before it. As many products as coefficients, and three for powers of the point.
pub fn value_at<F: Field>(coeffs: &[F], point: F) -> F
    ensures { IsValue F.field (of_list F.field coeffs.now) point result }
{
    let square = point * point;
    let cube = square * point;
    let fourth = square * square;
    let rest = coeffs.len() % 4;
    let mut value = F::zero();
    for k in (0..coeffs.len() / 4).rev() {
        let i = rest + 4 * k;
        let low = coeffs[i] + coeffs[i + 1] * point;
        let high = coeffs[i + 2] * square + coeffs[i + 3] * cube;
        value = value * fourth + (low + high);
    }
    for i in (0..rest).rev() {
        value = value * point + coeffs[i];
    }
    value
}

/// The product, by all products of two coefficients; empty where a factor is. `Overflow` exactly where
/// neither factor is empty and the product's length is past `usize::MAX`.
pub fn naive_product<F: Field>(alloc: Global, left: &[F], right: &[F]) -> Result<Vec<F>, PolyError>
    ensures product { IfOk result (λ c. of_list F.field c.items
        ≡ product F.field (of_list F.field left.now) (of_list F.field right.now)) }
    ensures overflow { (result ≡ Err PolyError.Overflow) ↔ (0 < length left.now) × (0 < length right.now)
        × (usize.MAX < length left.now + length right.now - 1) }
    ensures errors { IsOkUnlessEither result PolyError.Memory PolyError.Overflow }
{
    if left.is_empty() || right.is_empty() {
        return Ok(Vec::new(alloc));
    }
    let Some(len) = left.len().checked_add(right.len() - 1) else {
        return Err(PolyError::Overflow);
    };
    let mut coeffs = zeros(alloc, len)?;
    add_product(coeffs.as_mut_slice(), left, right);
    Ok(coeffs)
}

/// This many zeros.
pub fn zeros<F: Field>(alloc: Global, len: usize) -> Result<Vec<F>, AllocError>
    ensures { IfOk result (λ c. c.items ≡ replicate len F.field.zero) }
{
    let mut coeffs = Vec::with_capacity(alloc, len)?;
    coeffs.resize(len, F::zero())?;
    Ok(coeffs)
}

/// A copy of the coefficients, with room for at least this many.
pub fn copy_with_room<F: Field>(
    alloc: Global,
    coeffs: &[F],
    room: usize,
) -> Result<Vec<F>, AllocError>
    ensures { IfOk result (λ c. c.items ≡ coeffs.now) }
{
    let mut copy = Vec::with_capacity(alloc, coeffs.len().max(room))?;
    copy.extend_from_slice(coeffs)?;
    Ok(copy)
}

/// A copy of the coefficients, with zeros up to this length.
pub fn extended<F: Field>(alloc: Global, coeffs: &[F], len: usize) -> Result<Vec<F>, AllocError>
    requires { length coeffs.now ≤ len }
    ensures same { IfOk result (λ c. of_list F.field c.items ≡ of_list F.field coeffs.now) }
    ensures len { IfOk result (λ c. length c.items ≡ len) }
{
    let mut copy = Vec::with_capacity(alloc, len)?;
    copy.extend_from_slice(coeffs)?;
    copy.resize(len, F::zero())?;
    Ok(copy)
}

/// The product with `x^n - constant`: the coefficients moved up by `n` places, less the constant times
/// themselves. It takes one product for each coefficient, and memory for the answer alone.
pub fn multiplied_by_binomial<F: Field>(
    alloc: Global,
    coeffs: &[F],
    n: usize,
    constant: F,
) -> Result<Vec<F>, AllocError>
    requires { n + length coeffs.now ≤ usize.MAX }
    ensures { IfOk result (λ c. of_list F.field c.items ≡ product F.field (of_list F.field coeffs.now)
        (difference F.field (monomial F.field n F.field.one) (monomial F.field 0 constant))) }
{
    let mut product = Vec::with_capacity(alloc, n + coeffs.len())?;
    product.resize(n, F::zero())?;
    product.extend_from_slice(coeffs)?;
    add_scaled(product.as_mut_slice(), -constant, coeffs);
    Ok(product)
}

/// Adds zeros up to this length, unless there are as many items. After an error the items are as they were.
pub fn grow<F: Field>(coeffs: &mut Vec<F>, len: usize) -> Result<(), AllocError>
    ensures same { of_list F.field coeffs.new.items ≡ of_list F.field coeffs.old.items }
    ensures len { OnOk result (len ≤ length coeffs.new.items) }
    ensures kept { OnErr result (coeffs.new.items ≡ coeffs.old.items) }
{
    if coeffs.len() < len {
        coeffs.resize(len, F::zero())?;
    }
    Ok(())
}

/// Cuts off the zeros at the end.
pub fn trim<F: Field>(coeffs: &mut Vec<F>)
    ensures same { of_list F.field coeffs.new.items ≡ of_list F.field coeffs.old.items }
    ensures trimmed { IsTrimmed F.field coeffs.new.items }
{
    coeffs.truncate(trimmed_len(coeffs));
}

/// Divides by `x^n - constant` in place: the first `n` items are then the remainder's, and those from `n` on
/// the quotient's. Each item from `n` on is carried down by `n` places, times the constant.
pub fn divide_by_binomial<F: Field>(coeffs: &mut [F], n: usize, constant: F)
    requires { 0 < n }
    ensures { of_list F.field coeffs.old ≡ added F.field
        (product F.field (of_list F.field (drop n coeffs.new))
        (difference F.field (monomial F.field n F.field.one) (monomial F.field 0 constant)))
        (of_list F.field (take n coeffs.new)) }
{
    for i in (n..coeffs.len()).rev() {
        let carried = constant * coeffs[i];
        coeffs[i - n] += carried;
    }
}

/// The remainder by `x^n - constant` in place of the coefficients, at most `n` items. It takes one product
/// for each coefficient from `n` on.
pub fn reduce_by_binomial<F: Field>(coeffs: &mut Vec<F>, n: usize, constant: F)
    requires { 0 < n }
    ensures division { (q : List F) × (of_list F.field coeffs.old.items ≡ added F.field
        (product F.field (of_list F.field q)
        (difference F.field (monomial F.field n F.field.one) (monomial F.field 0 constant)))
        (of_list F.field coeffs.new.items)) }
    ensures len { length coeffs.new.items ≤ n }
{
    divide_by_binomial(coeffs.as_mut_slice(), n, constant);
    coeffs.truncate(n);
}

/// Quotient and remainder by `x^n - constant`, each in a list of its own, of which the remainder's has at
/// most `n` items. It takes one product for each coefficient from `n` on.
pub fn divided_by_binomial<F: Field>(
    alloc: Global,
    coeffs: &[F],
    n: usize,
    constant: F,
) -> Result<(Vec<F>, Vec<F>), AllocError>
    requires { 0 < n }
    ensures division { IfOk result (λ p. of_list F.field coeffs.now ≡ added F.field
        (product F.field (of_list F.field p.0.items)
        (difference F.field (monomial F.field n F.field.one) (monomial F.field 0 constant)))
        (of_list F.field p.1.items)) }
    ensures below { IfOk result (λ p. IsBelow F.field n (of_list F.field p.1.items)) }
{
    let mut remainder = Vec::from_slice(alloc, coeffs)?;
    divide_by_binomial(remainder.as_mut_slice(), n, constant);
    let kept = n.min(remainder.len());
    let quotient = remainder.split_off(kept)?;
    Ok((quotient, remainder))
}
