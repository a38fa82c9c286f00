//! Values at the points of a tree by its table of roots of unity, where none of the points is one of these:
//! there the polynomial's values are divided by those of the product of x - z, and go down the tree as they are.

ghost use Rattle.std.specs.Prelude.{◌≡◌, ◌≢◌, ℕ, ◌+◌, ◌<◌, length, IfOk, IfSome, OnOk};
ghost use Rattle.ark_bit_reversed.specs.Blocks.{AreFirstValues, IsPowerOfTwo, size_of};
ghost use Rattle.ark_math_polynomials.specs.Nodes.{nodes};
ghost use Rattle.ark_math.specs.Univariate.{IsBelow, of_list, product};
ghost use Rattle.ark_math_points.specs.AtPoints.{AreValuesAt, HasValues};
ghost use Rattle.ark_subproducts.specs.Steps.{ArePowers};
ghost use Rattle.ark_subproducts.specs.Tree.{IsHalved, IsPart, IsTreeOfPart};

use crate::blocks::BlockTree;
use crate::halves::Part;
use crate::multiple::Multiple;
use crate::tree::Tree;
use ark_bit_reversed::items::{has_zero, multiply_by_gaps, place_products, raise_each};
use ark_coeffs::dense::{multiply_each, zeros};
use ark_traits::{FftField, Field, batch_inversion};
use ark_univariate::DenseUVPolynomial;
use std::alloc::{AllocError, Global};

impl<F: FftField> BlockTree<F> {
    /// The values at the points, in their order, of a polynomial with these values at the table's elements; each
    /// point's power is that for the number of elements. `None` where one of the points is such an element, or the
    /// points are too few to be halved.
    pub fn values(
        &self,
        alloc: Global,
        part: &Part<'_, F>,
        powers: &[F],
        known: &[F],
    ) -> Result<Option<Vec<F>>, AllocError>
        requires part { IsPart part.now }
        requires not_empty { 0 < length part.now.points.now }
        requires tree { IsTreeOfPart F.field part.now self.now }
        requires powers { ArePowers F.field (size_of part.now.blocks.now) part.now.points.now powers.now }
        requires known { length known.now ≡ size_of part.now.blocks.now }
        ensures values { IfOk result (λ found. IfSome found (λ v. (p : ℕ → F)
            → IsBelow F.field (size_of part.now.blocks.now) p
            → AreFirstValues F.field part.now.blocks.now (size_of part.now.blocks.now) p known.now
            → AreValuesAt F.field part.now.points.now v.items p)) }
    {
        let size = part.blocks.size();
        let Some(divisors) = self.product_values(alloc, part, size)? else {
            return Ok(None);
        };
        if has_zero(&divisors) {
            return Ok(None);
        }
        let quotients = quotients(alloc, known, divisors)?;
        let mut values = zeros(alloc, part.points.len())?;
        let items = values.as_mut_slice();
        self.write_values_past(alloc, part, quotients, items)?;
        multiply_by_gaps(items, F::one(), powers);
        Ok(Some(values))
    }

    // The values of the product of x - z over the points at the table's elements. `None` where the tree has no halves.
    fn product_values(
        &self,
        alloc: Global,
        part: &Part<'_, F>,
        size: usize,
    ) -> Result<Option<Vec<F>>, AllocError>
        requires part { IsPart part.now }
        requires not_empty { 0 < length part.now.points.now }
        requires tree { IsTreeOfPart F.field part.now self.now }
        requires size { size ≡ size_of part.now.blocks.now }
        requires power { IsPowerOfTwo size }
        ensures halved { IfOk result (λ found. IfSome found (λ v. IsHalved self.now)) }
        ensures values { IfOk result (λ found. IfSome found (λ v. AreFirstValues F.field part.now.blocks.now
            (size_of part.now.blocks.now) (nodes F.field part.now.points.now) v.items)) }
    {
        let Tree::Halves(product, _, low_values, _, high_values) = self else {
            return Ok(None);
        };
        let mut values = place_products(alloc, low_values, high_values, size)?;
        part.blocks.extend(&mut values, product.coeffs(), size)?;
        Ok(Some(values))
    }

    // Writes at each point the value of what is past the elements' number in the product of x - z over the points times
    // a polynomial with these values at the elements.
    fn write_values_past(
        &self,
        alloc: Global,
        part: &Part<'_, F>,
        factor: Vec<F>,
        values: &mut [F],
    ) -> Result<(), AllocError>
        requires part { IsPart part.now }
        requires not_empty { 0 < length part.now.points.now }
        requires tree { IsTreeOfPart F.field part.now self.now }
        requires halved { IsHalved self.now }
        requires factor { length factor.items ≡ size_of part.now.blocks.now }
        requires len { length values.old ≡ length part.now.points.now }
        ensures len { length values.new ≡ length values.old }
        ensures values { OnOk result ((q : ℕ → F) → IsBelow F.field (size_of part.now.blocks.now) q
            → AreFirstValues F.field part.now.blocks.now (size_of part.now.blocks.now) q factor.items
            → HasValues F.field (length part.now.points.now) (of_list F.field part.now.points.now)
            (of_list F.field values.new)
            (λ j. product F.field (nodes F.field part.now.points.now) q (j + size_of part.now.blocks.now))) }
    {
        if part.blocks.size() == part.count {
            let given = Multiple {
                items: factor,
                scale: F::one(),
                end: part.count,
            };
            return self.write_values_from(alloc, part, &given, values);
        }
        let mut coeffs = factor;
        part.blocks.interpolate(coeffs.as_mut_slice());
        let start = coeffs.len() - part.points.len();
        self.write_values(alloc, part, &coeffs[start..], values)
    }
}

// Each value by the divisor at its place.
fn quotients<F: FftField>(
    alloc: Global,
    values: &[F],
    divisors: Vec<F>,
) -> Result<Vec<F>, AllocError>
    requires len { length divisors.items ≡ length values.now }
    requires not_zero { (i : ℕ) → i < length values.now → of_list F.field divisors.items i ≢ F.field.zero }
    ensures len { IfOk result (λ q. length q.items ≡ length values.now) }
    ensures quotients { IfOk result (λ q. (i : ℕ) → i < length values.now → of_list F.field values.now i
        ≡ F.field.times (of_list F.field divisors.items i) (of_list F.field q.items i)) }
{
    let mut quotients = divisors;
    batch_inversion(alloc, quotients.as_mut_slice())?;
    multiply_each(quotients.as_mut_slice(), values);
    Ok(quotients)
}

/// The power of each point for this exponent.
pub fn powers_of<F: Field>(
    alloc: Global,
    points: &[F],
    exponent: usize,
) -> Result<Vec<F>, AllocError>
    requires { 0 < exponent }
    ensures { IfOk result (λ v. ArePowers F.field exponent points.now v.items) }
{
    let mut powers = Vec::from_slice(alloc, points)?;
    raise_each(powers.as_mut_slice(), exponent);
    Ok(powers)
}
