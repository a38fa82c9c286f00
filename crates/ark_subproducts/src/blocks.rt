//! The subproduct tree over a table of roots of unity: no list is moved, and values over twice as many elements are the
//! known ones with as many behind them.
//!
//! Values go down it as down a scaled remainder tree: each half is given the middle product of what the whole has and the
//! product over the other half, which is the transposed way of summing products up the tree.

ghost use Rattle.std.specs.Prelude.{◌≡◌, ℕ, ◌+◌, ◌/◌, ◌<◌, ◌≤◌, drop, length, take, IfOk, IfSome, List, OnOk};
ghost use Rattle.ark_bit_reversed.specs.Blocks.{AreFirstValues, IsPowerOfTwo, size_of};
ghost use Rattle.ark_math.specs.Univariate.{IsBelow, added, of_list, product, scaled};
ghost use Rattle.ark_math_points.specs.AtPoints.{HasValues};
ghost use Rattle.ark_math_polynomials.specs.Nodes.{nodes};
ghost use Rattle.ark_subproducts.specs.Tree.{AreFactors, AreValuesOver, HasMiddle, HasRoom, IsBlockTreeOver, IsGivenTo, IsMiddle};
ghost use Rattle.ark_subproducts.specs.Tree.{IsPart, IsProductOver, IsScaledRemainder, IsScaledRemainderBefore};
ghost use Rattle.ark_subproducts.specs.Tree.{IsTreeOfPart, Represents, RepresentsMultiple, weighed};

use crate::few::{FEW_POINTS, FewProducts, weighed_few, write_few_values};
use crate::halves::Part;
use crate::multiple::Multiple;
use crate::products::coefficients;
use crate::tree::Tree;
use ark_bit_reversed::BlockRoots;
use ark_bit_reversed::items::{add_products, place_products};
use ark_coeffs::dense::multiply_each;
use ark_traits::{FftField, Field};
use ark_univariate::DenseUVPolynomial;
use ark_univariate::univariate::DensePolynomial;
use std::alloc::{AllocError, Global};

/// The product of x - z over points; and of many points the products of both halves, each with its values over the first
/// elements of a table, of which there is at least one for each point.
pub type BlockTree<F> = Tree<FewProducts<F>, DensePolynomial<F>, Vec<F>>;

impl<F: FftField> BlockTree<F> {
    /// Over the points of a part, in their order, with values over its elements.
    pub fn new(alloc: Global, part: &Part<'_, F>) -> Result<Box<Self>, AllocError>
        requires part { IsPart part.now }
        ensures tree { IfOk result (λ t. IsTreeOfPart F.field part.now t.value) }
    {
        Ok(BlockTree::with_values(alloc, part)?.0)
    }

    // The same; and where the tree has halves the product's values over these elements.
    fn with_values(
        alloc: Global,
        part: &Part<'_, F>,
    ) -> Result<(Box<Self>, Option<Vec<F>>), AllocError>
        requires part { IsPart part.now }
        ensures tree { IfOk result (λ t. IsTreeOfPart F.field part.now t.0.value) }
        ensures values { IfOk result (λ t. IfSome t.1 (λ v. AreValuesOver F.field part.now
            (nodes F.field part.now.points.now) v.items)) }
    {
        if part.points.len() <= FEW_POINTS {
            let products = FewProducts::new(alloc, part.points)?;
            return Ok((Box::new(alloc, Tree::Few(products))?, None));
        }
        let low_part = part.low();
        let low = BlockTree::with_values(alloc, &low_part)?;
        let high_part = part.high();
        let high = BlockTree::with_values(alloc, &high_part)?;
        joined(alloc, part, low, high)
    }

    /// The product of x - z over all points.
    pub fn product(&self) -> &DensePolynomial<F>
        ensures { (roots : List F) (count : ℕ) (points : List F)
            → IsBlockTreeOver F.field roots count points self.now
            → of_list F.field result.now ≡ nodes F.field points }
    {
        match self {
            Tree::Few(products) => &products.whole,
            Tree::Halves(product, _, _, _, _) => product,
        }
    }

    // Its coefficients.
    fn coeffs(&self) -> &[F]
        ensures { (roots : List F) (count : ℕ) (points : List F)
            → IsBlockTreeOver F.field roots count points self.now → IsProductOver F.field points result.now }
    {
        self.product().coeffs()
    }

    /// Writes the values at the points, in their order, of the polynomial whose scaled remainder has these
    /// coefficients.
    pub fn write_values(
        &self,
        alloc: Global,
        part: &Part<'_, F>,
        coeffs: &[F],
        values: &mut [F],
    ) -> Result<(), AllocError>
        requires part { IsPart part.now }
        requires not_empty { 0 < length part.now.points.now }
        requires tree { IsTreeOfPart F.field part.now self.now }
        requires few { length coeffs.now ≤ length part.now.points.now }
        requires len { length values.old ≡ length part.now.points.now }
        ensures len { length values.new ≡ length values.old }
        ensures values { OnOk result ((p : ℕ → F) → IsScaledRemainder F.field (length part.now.points.now)
            (nodes F.field part.now.points.now) p (of_list F.field coeffs.now)
            → HasValues F.field (length part.now.points.now) (of_list F.field part.now.points.now)
            (of_list F.field values.new) p) }
    {
        let items = represented(alloc, part, self, coeffs)?;
        let given = Multiple {
            items,
            scale: F::one(),
            end: part.points.len(),
        };
        self.write_values_from(alloc, part, &given, values)
    }

    /// The same, where what is given has the scaled remainder as its last coefficients, as many as there are points.
    pub fn write_values_from(
        &self,
        alloc: Global,
        part: &Part<'_, F>,
        given: &Multiple<F>,
        values: &mut [F],
    ) -> Result<(), AllocError>
        requires part { IsPart part.now }
        requires not_empty { 0 < length part.now.points.now }
        requires tree { IsTreeOfPart F.field part.now self.now }
        requires given { IsGivenTo part.now self.now given.now }
        requires len { length values.old ≡ length part.now.points.now }
        ensures len { length values.new ≡ length values.old }
        ensures values { OnOk result ((p s : ℕ → F) → RepresentsMultiple F.field part.now self.now given.now s
            → IsScaledRemainderBefore F.field given.now.end (length part.now.points.now)
            (nodes F.field part.now.points.now) p s
            → HasValues F.field (length part.now.points.now) (of_list F.field part.now.points.now)
            (of_list F.field values.new) p) }
    {
        match self {
            Tree::Few(products) => write_few_values(alloc, products, part.points, given, values),
            Tree::Halves(_, low, low_values, high, high_values) => {
                let (to_low, to_high) = values.split_at_mut(part.points.len() / 2);
                let low_part = part.low();
                let for_low = middle_product(alloc, &low_part, low, high_values, given)?;
                low.write_values_from(alloc, &low_part, &for_low, to_low)?;
                let high_part = part.high();
                let for_high = middle_product(alloc, &high_part, high, low_values, given)?;
                high.write_values_from(alloc, &high_part, &for_high, to_high)
            }
        }
    }

    /// The sum of each weight times the product of x - z over the other points; and its values over the part's elements,
    /// where the tree has halves.
    pub fn weighed(
        &self,
        alloc: Global,
        part: &Part<'_, F>,
        weights: &[F],
    ) -> Result<(Vec<F>, Option<Vec<F>>), AllocError>
        requires part { IsPart part.now }
        requires tree { IsTreeOfPart F.field part.now self.now }
        requires weights { length weights.now ≡ length part.now.points.now }
        ensures sum { IfOk result (λ p. of_list F.field p.0.items
            ≡ weighed F.field part.now.points.now (of_list F.field weights.now)) }
        ensures few { IfOk result (λ p. length p.0.items ≤ part.now.count) }
        ensures values { IfOk result (λ p. IfSome p.1 (λ v. AreValuesOver F.field part.now
            (of_list F.field p.0.items) v.items)) }
    {
        match self {
            Tree::Few(products) => {
                let sum = weighed_few(alloc, &products.whole, part.points, weights)?;
                Ok((sum, None))
            }
            Tree::Halves(_, low, low_values, high, high_values) => {
                let (low_weights, high_weights) = weights.split_at(part.points.len() / 2);
                let low_part = part.low();
                let (low_sum, low_known) = low.weighed(alloc, &low_part, low_weights)?;
                let first = part.values_from_half(alloc, &low_sum, low_known)?;
                let high_part = part.high();
                let (high_sum, high_known) = high.weighed(alloc, &high_part, high_weights)?;
                let second = part.values_from_half(alloc, &high_sum, high_known)?;
                let first = Factors {
                    values: first,
                    factor: high_values,
                };
                let second = Factors {
                    values: second,
                    factor: low_values,
                };
                sum_of_products(alloc, part.blocks, first, second)
            }
        }
    }
}

// The tree over all points from those over their halves, and its product's values.
fn joined<F: FftField>(
    alloc: Global,
    part: &Part<'_, F>,
    low: (Box<BlockTree<F>>, Option<Vec<F>>),
    high: (Box<BlockTree<F>>, Option<Vec<F>>),
) -> Result<(Box<BlockTree<F>>, Option<Vec<F>>), AllocError>
    requires part { IsPart part.now }
    requires many { 2 < length part.now.points.now }
    requires low { IsBlockTreeOver F.field part.now.blocks.now (part.now.count / 2)
        (take (length part.now.points.now / 2) part.now.points.now) low.0.value }
    requires high { IsBlockTreeOver F.field part.now.blocks.now (part.now.count / 2)
        (drop (length part.now.points.now / 2) part.now.points.now) high.0.value }
    requires low_values { IfSome low.1 (λ v. AreFirstValues F.field part.now.blocks.now (part.now.count / 2)
        (nodes F.field (take (length part.now.points.now / 2) part.now.points.now)) v.items) }
    requires high_values { IfSome high.1 (λ v. AreFirstValues F.field part.now.blocks.now (part.now.count / 2)
        (nodes F.field (drop (length part.now.points.now / 2) part.now.points.now)) v.items) }
    ensures tree { IfOk result (λ t. IsTreeOfPart F.field part.now t.0.value) }
    ensures values { IfOk result (λ t. IfSome t.1 (λ v. AreValuesOver F.field part.now
        (nodes F.field part.now.points.now) v.items)) }
{
    let (low, low_known) = low;
    let (high, high_known) = high;
    let left = low.coeffs();
    let right = high.coeffs();
    let low_values = part.values_from_half(alloc, left, low_known)?;
    let high_values = part.values_from_half(alloc, right, high_known)?;
    // With room for as many more values.
    let room = part.count.saturating_add(part.count);
    let values = place_products(alloc, &low_values, &high_values, room)?;
    let coeffs = coefficients(alloc, part.blocks, &values, left, right)?;
    let product = DensePolynomial::from_coefficients_vec(coeffs);
    let tree = Tree::Halves(product, low, low_values, high, high_values);
    Ok((Box::new(alloc, tree)?, Some(values)))
}

// The list that represents this polynomial for the tree.
fn represented<F: FftField>(
    alloc: Global,
    part: &Part<'_, F>,
    tree: &BlockTree<F>,
    coeffs: &[F],
) -> Result<Vec<F>, AllocError>
    requires part { IsPart part.now }
    requires few { length coeffs.now ≤ part.now.count }
    ensures room { IfOk result (λ v. (n : ℕ) → length coeffs.now ≤ n
        → HasRoom tree.now n part.now.count (length v.items)) }
    ensures given { IfOk result (λ v. Represents F.field part.now.blocks.now tree.now part.now.count
        (of_list F.field coeffs.now) v.items) }
{
    match tree {
        Tree::Few(_) => Vec::from_slice(alloc, coeffs),
        Tree::Halves(_, _, _, _, _) => part.blocks.values(alloc, coeffs, part.count),
    }
}

// The middle product for a part of what its whole was given and of the product over the other points, which has these values:
// as many coefficients as the part has points, the last of them before `end`. Where the tree takes values it is twice that by
// half of the scale, which costs least.
fn middle_product<F: FftField>(
    alloc: Global,
    part: &Part<'_, F>,
    tree: &BlockTree<F>,
    factor: &[F],
    given: &Multiple<F>,
) -> Result<Multiple<F>, AllocError>
    requires part { IsPart part.now }
    requires middle { HasMiddle part.now factor.now given.now }
    ensures given { IfOk result (λ m. IsGivenTo part.now tree.now m) }
    ensures end { IfOk result (λ m. m.end ≡ length part.now.points.now) }
    ensures middle { IfOk result (λ m. (a s t : ℕ → F)
        → AreFirstValues F.field part.now.blocks.now (part.now.count + part.now.count) a factor.now
        → AreFirstValues F.field part.now.blocks.now (part.now.count + part.now.count) s given.now.items.items
        → IsMiddle F.field part.now given.now (product F.field a s) t
        → RepresentsMultiple F.field part.now tree.now m (scaled F.field given.now.scale t)) }
{
    let len = part.points.len();
    if let Tree::Halves(_, _, _, _, _) = tree {
        if len == part.count && given.end - len == len {
            let doubled = part
                .blocks
                .twice_upper_half(alloc, factor, &given.items, part.count)?;
            return Ok(Multiple {
                items: doubled,
                scale: given.scale * part.blocks.half(),
                end: len,
            });
        }
    }
    let items = middle_coefficients(alloc, part, tree, factor, given)?;
    Ok(Multiple {
        items,
        scale: given.scale,
        end: len,
    })
}

// The same without the scale: the list that represents these coefficients for the tree.
fn middle_coefficients<F: FftField>(
    alloc: Global,
    part: &Part<'_, F>,
    tree: &BlockTree<F>,
    factor: &[F],
    given: &Multiple<F>,
) -> Result<Vec<F>, AllocError>
    requires part { IsPart part.now }
    requires middle { HasMiddle part.now factor.now given.now }
    ensures room { IfOk result (λ v. HasRoom tree.now (length part.now.points.now) part.now.count
        (length v.items)) }
    ensures middle { IfOk result (λ v. (a s t : ℕ → F)
        → AreFirstValues F.field part.now.blocks.now (part.now.count + part.now.count) a factor.now
        → AreFirstValues F.field part.now.blocks.now (part.now.count + part.now.count) s given.now.items.items
        → IsMiddle F.field part.now given.now (product F.field a s) t
        → Represents F.field part.now.blocks.now tree.now part.now.count t v.items) }
{
    let mut coeffs = place_products(alloc, factor, &given.items, factor.len())?;
    part.blocks.interpolate(coeffs.as_mut_slice());
    let start = given.end - part.points.len();
    represented(alloc, part, tree, &coeffs[start..given.end])
}

// The values of a polynomial, and those of a factor.
#[derive(Drop)]
struct Factors<'a, F: Field> {
    values: Vec<F>,
    factor: &'a [F],
}

// The sum of two products, and its values.
fn sum_of_products<F: FftField>(
    alloc: Global,
    blocks: &BlockRoots<F>,
    first: Factors<'_, F>,
    second: Factors<'_, F>,
) -> Result<(Vec<F>, Option<Vec<F>>), AllocError>
    requires power { IsPowerOfTwo (length first.values.items) }
    requires within { length first.values.items ≤ size_of blocks.now }
    requires first_factor { length first.factor.now ≡ length first.values.items }
    requires second { length second.values.items ≡ length first.values.items }
    requires second_factor { length second.factor.now ≡ length first.values.items }
    ensures sum { IfOk result (λ p. (f a s b : ℕ → F)
        → AreFactors F.field blocks.now first.entry f a → AreFactors F.field blocks.now second.entry s b
        → IsBelow F.field (length first.entry.values.items) (added F.field (product F.field f a) (product F.field s b))
        → (of_list F.field p.0.items ≡ added F.field (product F.field f a) (product F.field s b))
        × IfSome p.1 (λ v. AreFirstValues F.field blocks.now (length first.entry.values.items)
        (of_list F.field p.0.items) v.items)) }
    ensures few { IfOk result (λ p. length p.0.items ≡ length first.entry.values.items) }
{
    let mut values = first.values;
    let items = values.as_mut_slice();
    multiply_each(items, first.factor);
    add_products(items, &second.values, second.factor);
    let mut coeffs = Vec::from_slice(alloc, &values)?;
    blocks.interpolate(coeffs.as_mut_slice());
    Ok((coeffs, Some(values)))
}
