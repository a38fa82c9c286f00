//! Points halved over and over, and the product of x - z over the points of each part.

ghost use Rattle.std.specs.Prelude.{◌≡◌, ◌/◌, ◌<◌, ◌≤◌, drop, length, take, IfOk, IsOkUnless, List};
ghost use Rattle.ark_bit_reversed.specs.Blocks.{size_of};
ghost use Rattle.ark_math.specs.Univariate.{IsBelow, of_list};
ghost use Rattle.ark_math_points.specs.AtPoints.{AreValuesAt};
ghost use Rattle.ark_math_polynomials.specs.Nodes.{nodes};
ghost use Rattle.ark_subproducts.specs.Tree.{IsBlockTreeOver, IsMonic, IsTreeOver, weighed};

use crate::blocks::BlockTree;
use crate::few::{FEW_POINTS, weighed_few};
use crate::halves::Part;
use crate::quotients::{product_of, remainder};
use crate::roots::values_by_tree;
use crate::values::naive_evaluate_at;
use ark_bit_reversed::{BlockRoots, product_of_few};
use ark_traits::{FftField, PolyError, Polynomial};
use ark_univariate::DenseUVPolynomial;
use ark_univariate::univariate::DensePolynomial;
use std::alloc::{AllocError, Global};

/// What belongs to all of a list; and where it is long the same of both halves, with more of each.
#[derive(Drop)]
pub enum Tree<L: Drop, P: Drop, V: Drop> {
    Few(L),
    Halves(P, Box<Tree<L, P, V>>, V, Box<Tree<L, P, V>>, V),
}

/// The product of x - z over points that are few; or roots of unity for as many, and by them a tree of products.
#[derive(Drop)]
pub enum Leaf<F: FftField> {
    Plain(DensePolynomial<F>),
    Blocks(BlockRoots<F>, Box<BlockTree<F>>),
}

/// The product of x - z over points, for each number of them: parts for which the field has roots of unity are its leaves.
pub type SubproductTree<F> = Tree<Leaf<F>, DensePolynomial<F>, ()>;

impl<F: FftField> SubproductTree<F> {
    /// Over these points, in their order.
    pub fn new(alloc: Global, points: &[F]) -> Result<Box<Self>, PolyError>
        ensures tree { IfOk result (λ t. IsTreeOver F.field points.now t.value) }
        ensures memory { IsOkUnless result PolyError.Memory }
    {
        if points.len() <= FEW_POINTS {
            let product = DensePolynomial::from_coefficients_vec(product_of_few(alloc, points)?);
            return Ok(Box::new(alloc, Tree::Few(Leaf::Plain(product)))?);
        }
        if let Some(blocks) = BlockRoots::new(alloc, points.len())? {
            let tree = block_tree(alloc, &blocks, points)?;
            return Ok(Box::new(alloc, Tree::Few(Leaf::Blocks(blocks, tree)))?);
        }
        let half = points.len() / 2;
        let low = SubproductTree::new(alloc, &points[..half])?;
        let high = SubproductTree::new(alloc, &points[half..])?;
        joined(alloc, points, low, high)
    }

    /// The product of x - z over all points.
    pub fn product(&self) -> &DensePolynomial<F>
        ensures product { (points : List F) → IsTreeOver F.field points self.now
            → of_list F.field result.now ≡ nodes F.field points }
        ensures monic { (points : List F) → IsTreeOver F.field points self.now
            → IsMonic F.field (length points) (of_list F.field result.now) }
    {
        self.whole()
    }

    // What the tree keeps for all points.
    fn whole(&self) -> &DensePolynomial<F>
        ensures { (points : List F) → IsTreeOver F.field points self.now
            → of_list F.field result.now ≡ nodes F.field points }
    {
        match self {
            Tree::Few(Leaf::Plain(product)) => product,
            Tree::Few(Leaf::Blocks(_, tree)) => tree.product(),
            Tree::Halves(product, _, _, _, _) => product,
        }
    }

    /// The values of a polynomial at the points, in their order.
    pub fn values(
        &self,
        alloc: Global,
        polynomial: &DensePolynomial<F>,
        points: &[F],
    ) -> Result<Vec<F>, PolyError>
        requires not_empty { 0 < length points.now }
        requires tree { IsTreeOver F.field points.now self.now }
        ensures values { IfOk result (λ v. AreValuesAt F.field points.now v.items (of_list F.field polynomial.now)) }
        ensures memory { IsOkUnless result PolyError.Memory }
    {
        match self {
            Tree::Few(Leaf::Plain(_)) => naive_evaluate_at(alloc, polynomial, points),
            Tree::Few(Leaf::Blocks(blocks, tree)) => {
                values_by_tree(alloc, blocks, tree, polynomial, points)
            }
            Tree::Halves(_, low, _, high, _) => {
                let half = points.len() / 2;
                let for_low = remainder(alloc, polynomial, low.product())?;
                let for_high = remainder(alloc, polynomial, high.product())?;
                let mut values = low.values(alloc, &for_low, &points[..half])?;
                let others = high.values(alloc, &for_high, &points[half..])?;
                values.extend_from_slice(&others)?;
                Ok(values)
            }
        }
    }

    /// The sum of each weight times the product of x - z over the other points.
    pub fn weighed(
        &self,
        alloc: Global,
        points: &[F],
        weights: &[F],
    ) -> Result<DensePolynomial<F>, PolyError>
        requires tree { IsTreeOver F.field points.now self.now }
        requires len { length weights.now ≡ length points.now }
        ensures sum { IfOk result (λ p. of_list F.field p
            ≡ weighed F.field points.now (of_list F.field weights.now)) }
        ensures below { IfOk result (λ p. IsBelow F.field (length points.now) (of_list F.field p)) }
        ensures memory { IsOkUnless result PolyError.Memory }
    {
        match self {
            Tree::Few(Leaf::Plain(product)) => {
                let coeffs = weighed_few(alloc, product, points, weights)?;
                Ok(DensePolynomial::from_coefficients_vec(coeffs))
            }
            Tree::Few(Leaf::Blocks(blocks, tree)) => {
                let part = Part {
                    blocks,
                    points,
                    count: blocks.size(),
                };
                let (coeffs, _) = tree.weighed(alloc, &part, weights)?;
                Ok(DensePolynomial::from_coefficients_vec(coeffs))
            }
            Tree::Halves(_, low, _, high, _) => {
                let half = points.len() / 2;
                let of_low = low.weighed(alloc, &points[..half], &weights[..half])?;
                let of_high = high.weighed(alloc, &points[half..], &weights[half..])?;
                let first = product_of(alloc, &of_low, high.product())?;
                let second = product_of(alloc, &of_high, low.product())?;
                Ok(first.add(alloc, &second)?)
            }
        }
    }
}

// The tree of products by a table for as many points.
fn block_tree<F: FftField>(
    alloc: Global,
    blocks: &BlockRoots<F>,
    points: &[F],
) -> Result<Box<BlockTree<F>>, AllocError>
    requires { length points.now ≤ size_of blocks.now }
    ensures tree { IfOk result (λ t. IsBlockTreeOver F.field blocks.now (size_of blocks.now) points.now t.value) }
{
    let part = Part {
        blocks,
        points,
        count: blocks.size(),
    };
    BlockTree::new(alloc, &part)
}

// The product over all points with those over their halves.
fn joined<F: FftField>(
    alloc: Global,
    points: &[F],
    low: Box<SubproductTree<F>>,
    high: Box<SubproductTree<F>>,
) -> Result<Box<SubproductTree<F>>, PolyError>
    requires many { 1 < length points.now }
    requires low { IsTreeOver F.field (take (length points.now / 2) points.now) low.value }
    requires high { IsTreeOver F.field (drop (length points.now / 2) points.now) high.value }
    ensures tree { IfOk result (λ t. IsTreeOver F.field points.now t.value) }
    ensures memory { IsOkUnless result PolyError.Memory }
{
    let product = product_of(alloc, low.product(), high.product())?;
    Ok(Box::new(alloc, Tree::Halves(product, low, (), high, ()))?)
}
