//! Values at points of which some are roots of unity: these are looked up in a table, and the others go down a tree.

ghost use Rattle.std.specs.Prelude.{◌≡◌, ℕ, ◌<◌, ◌≤◌, ◌⊎◌, length, IfOk, IsOkUnless};
ghost use Rattle.ark_bit_reversed.specs.Blocks.{AreFirstValues, AreReversed, IsPowerOfTwo, element_of, size_of};
ghost use Rattle.ark_math.specs.Field.{power};
ghost use Rattle.ark_math.specs.Univariate.{IsValue, of_list};
ghost use Rattle.ark_math_points.specs.AtPoints.{AreValuesAt, HasValues};
ghost use Rattle.ark_subproducts.specs.Steps.{AreOffRoots, ArePowers, IsKnown, IsOffRoot};
ghost use Rattle.ark_subproducts.specs.Tree.{IsBlockTreeOver};

use crate::blocks::BlockTree;
use crate::halves::Part;
use crate::table::powers_of;
use crate::values::naive_evaluate_at;
use ark_bit_reversed::BlockRoots;
use ark_traits::{FftField, Field, PolyError};
use ark_univariate::DenseUVPolynomial;
use ark_univariate::univariate::DensePolynomial;
use std::alloc::{AllocError, Global};

/// A polynomial, and its values at all elements of a table, of which there are no fewer than coefficients.
#[derive(Drop)]
pub struct Known<'a, F: FftField> {
    pub blocks: &'a BlockRoots<F>,
    pub polynomial: &'a DensePolynomial<F>,
    pub values: &'a [F],
}

/// The values at points, in their order, of a polynomial with no more coefficients than the table has elements.
pub fn values_by_table<F: FftField>(
    alloc: Global,
    blocks: &BlockRoots<F>,
    polynomial: &DensePolynomial<F>,
    points: &[F],
) -> Result<Vec<F>, PolyError>
    requires not_empty { 0 < length points.now }
    requires room { length points.now ≤ size_of blocks.now }
    requires few { length polynomial.now ≤ size_of blocks.now }
    ensures values { IfOk result (λ v. AreValuesAt F.field points.now v.items (of_list F.field polynomial.now)) }
    ensures memory { IsOkUnless result PolyError.Memory }
{
    let size = blocks.size();
    let values = blocks.values(alloc, polynomial.coeffs(), size)?;
    let powers = powers_of(alloc, points, size)?;
    let known = Known {
        blocks,
        polynomial,
        values: &values,
    };
    values_off_roots(alloc, &known, points, powers)
}

/// The same of any polynomial, with a tree over the points by a table for as many.
pub fn values_by_tree<F: FftField>(
    alloc: Global,
    blocks: &BlockRoots<F>,
    tree: &BlockTree<F>,
    polynomial: &DensePolynomial<F>,
    points: &[F],
) -> Result<Vec<F>, PolyError>
    requires not_empty { 0 < length points.now }
    requires room { length points.now ≤ size_of blocks.now }
    requires tree { IsBlockTreeOver F.field blocks.now (size_of blocks.now) points.now tree.now }
    ensures values { IfOk result (λ v. AreValuesAt F.field points.now v.items (of_list F.field polynomial.now)) }
    ensures memory { IsOkUnless result PolyError.Memory }
{
    let size = blocks.size();
    if polynomial.coeffs().len() > size {
        return naive_evaluate_at(alloc, polynomial, points);
    }
    let values = blocks.values(alloc, polynomial.coeffs(), size)?;
    let powers = powers_of(alloc, points, size)?;
    let part = Part {
        blocks,
        points,
        count: size,
    };
    if let Some(found) = tree.values(alloc, &part, &powers, &values)? {
        return Ok(found);
    }
    let known = Known {
        blocks,
        polynomial,
        values: &values,
    };
    values_off_roots(alloc, &known, points, powers)
}

/// The values of a known polynomial; each point's power is that for the number of the table's elements. In place of a root
/// of unity zero goes down the tree.
pub fn values_off_roots<F: FftField>(
    alloc: Global,
    known: &Known<'_, F>,
    points: &[F],
    powers: Vec<F>,
) -> Result<Vec<F>, PolyError>
    requires not_empty { 0 < length points.now }
    requires room { length points.now ≤ size_of known.now.blocks.now }
    requires powers { ArePowers F.field (size_of known.now.blocks.now) points.now powers.items }
    requires known { IsKnown F.field known.now }
    ensures values { IfOk result (λ v. AreValuesAt F.field points.now v.items
        (of_list F.field known.now.polynomial.now)) }
    ensures memory { IsOkUnless result PolyError.Memory }
{
    let (others, powers) = without_roots(alloc, points, powers)?;
    let mut values = values_of_others(alloc, known, &others, &powers)?;
    put_back(
        known.blocks,
        points,
        &others,
        known.values,
        values.as_mut_slice(),
    );
    Ok(values)
}

// The points, with zero in place of the roots of unity, and the powers of these.
fn without_roots<F: Field>(
    alloc: Global,
    points: &[F],
    powers: Vec<F>,
) -> Result<(Vec<F>, Vec<F>), AllocError>
    requires { length powers.items ≡ length points.now }
    ensures others { IfOk result (λ p. (n : ℕ) → 0 < n → ArePowers F.field n points.now powers.items
        → AreOffRoots F.field n points.now p.0.items) }
    ensures powers { IfOk result (λ p. (n : ℕ) → 0 < n → ArePowers F.field n points.now powers.items
        → ArePowers F.field n p.0.items p.1.items) }
{
    let mut others = Vec::from_slice(alloc, points)?;
    let mut powers = powers;
    take_out_roots(others.as_mut_slice(), powers.as_mut_slice());
    Ok((others, powers))
}

// The values of a known polynomial where none of the points is a root of unity.
fn values_of_others<F: FftField>(
    alloc: Global,
    known: &Known<'_, F>,
    points: &[F],
    powers: &[F],
) -> Result<Vec<F>, PolyError>
    requires not_empty { 0 < length points.now }
    requires room { length points.now ≤ size_of known.now.blocks.now }
    requires powers { ArePowers F.field (size_of known.now.blocks.now) points.now powers.now }
    requires known { IsKnown F.field known.now }
    ensures values { IfOk result (λ v. AreValuesAt F.field points.now v.items
        (of_list F.field known.now.polynomial.now)) }
    ensures memory { IsOkUnless result PolyError.Memory }
{
    let part = Part {
        blocks: known.blocks,
        points,
        count: count_for(known.blocks, points.len()),
    };
    let tree = BlockTree::new(alloc, &part)?;
    match tree.values(alloc, &part, powers, known.values)? {
        Some(values) => Ok(values),
        None => naive_evaluate_at(alloc, known.polynomial, points),
    }
}

// The least power of two that isn't below the number of points.
fn count_for<F: FftField>(blocks: &BlockRoots<F>, points: usize) -> usize
    requires some { 0 < points }
    requires few { points ≤ size_of blocks.now }
    ensures power { IsPowerOfTwo result }
    ensures room { points ≤ result }
    ensures within { result ≤ size_of blocks.now }
{
    let size = blocks.size();
    if points > size / 2 {
        size
    } else {
        points.next_power_of_two()
    }
}

// Puts zero in the place of each root of unity, and of its power.
fn take_out_roots<F: Field>(points: &mut [F], powers: &mut [F])
    requires { length powers.old ≡ length points.old }
    ensures points { length points.new ≡ length points.old }
    ensures powers { length powers.new ≡ length points.old }
    ensures each { (i : ℕ) → i < length points.old → IsOffRoot F.field (of_list F.field points.old i)
        (of_list F.field powers.old i) (of_list F.field points.new i) (of_list F.field powers.new i) }
{
    for i in 0..points.len() {
        if powers[i].is_one() {
            points[i] = F::zero();
            powers[i] = F::zero();
        }
    }
}

// Puts the values at roots of unity in their places, from those at the table's elements.
fn put_back<F: FftField>(
    blocks: &BlockRoots<F>,
    points: &[F],
    others: &[F],
    known: &[F],
    values: &mut [F],
)
    requires others { AreOffRoots F.field (size_of blocks.now) points.now others.now }
    requires known { length known.now ≡ size_of blocks.now }
    requires len { length values.old ≡ length points.now }
    ensures len { length values.new ≡ length values.old }
    ensures values { (p : ℕ → F) → AreFirstValues F.field blocks.now (size_of blocks.now) p known.now
        → HasValues F.field (length points.now) (of_list F.field others.now) (of_list F.field values.old) p
        → HasValues F.field (length points.now) (of_list F.field points.now) (of_list F.field values.new) p }
{
    for i in 0..points.len() {
        values[i] = value_at(blocks, points[i], others[i], known, values[i]);
    }
}

// The value at a point from that at another one, which it is if it is no root of unity.
fn value_at<F: FftField>(blocks: &BlockRoots<F>, point: F, other: F, known: &[F], value: F) -> F
    requires other { (other ≡ point) ⊎ (power F.field point (size_of blocks.now) ≡ F.field.one) }
    requires known { length known.now ≡ size_of blocks.now }
    ensures { (p : ℕ → F) → AreFirstValues F.field blocks.now (size_of blocks.now) p known.now
        → IsValue F.field p other value → IsValue F.field p point result }
{
    if point == other {
        value
    } else {
        known[index_of(blocks, point, blocks.size())]
    }
}

// The index of a root of unity among the table's first elements, as many as its order divides.
fn index_of<F: FftField>(blocks: &BlockRoots<F>, root: F, count: usize) -> usize
    requires elements { AreReversed F.field (size_of blocks.now) (element_of F.field blocks.now) }
    requires power { IsPowerOfTwo count }
    requires within { count ≤ size_of blocks.now }
    requires root { power F.field root count ≡ F.field.one }
    ensures below { result < count }
    ensures is { element_of F.field blocks.now result ≡ root }
{
    if count == 1 {
        return 0;
    }
    // Of the two square roots of the square the first one, or the one behind it.
    let first = 2 * index_of(blocks, root * root, count / 2);
    if blocks.element(first) == root {
        first
    } else {
        first + 1
    }
}
