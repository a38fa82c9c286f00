//! Points with elements of a table for them, and both halves of these.

ghost use Rattle.std.specs.Prelude.{◌+◌, ◌/◌, ◌<◌, ◌≤◌, drop, length, take, IfOk, IfSome};
ghost use Rattle.ark_bit_reversed.specs.Blocks.{AreFirstValues};
ghost use Rattle.ark_math.specs.Univariate.{of_list};
ghost use Rattle.ark_subproducts.specs.Tree.{IsHalfOf, IsPart};

use crate::products::extended;
use ark_bit_reversed::BlockRoots;
use ark_traits::FftField;
use std::alloc::{AllocError, Global};

/// Points, and the first `count` elements of a table, at which values are known of what belongs to them: a power of two,
/// and at least one for each point.
#[derive(Drop)]
pub struct Part<'a, F: FftField> {
    pub blocks: &'a BlockRoots<F>,
    pub points: &'a [F],
    pub count: usize,
}

impl<'a, F: FftField> Part<'a, F> {
    /// The first half of the points, with half of the elements.
    pub fn low(&self) -> Part<'a, F>
        requires part { IsPart self.now }
        requires many { 1 < length self.now.points.now }
        ensures part { IsPart result }
        ensures half { IsHalfOf self.now (take (length self.now.points.now / 2) self.now.points.now) result }
    {
        let points = self.points;
        Part {
            blocks: self.blocks,
            points: &points[..points.len() / 2],
            count: self.count / 2,
        }
    }

    /// The other points, with as many.
    pub fn high(&self) -> Part<'a, F>
        requires part { IsPart self.now }
        requires many { 1 < length self.now.points.now }
        ensures part { IsPart result }
        ensures half { IsHalfOf self.now (drop (length self.now.points.now / 2) self.now.points.now) result }
    {
        let points = self.points;
        Part {
            blocks: self.blocks,
            points: &points[points.len() / 2..],
            count: self.count / 2,
        }
    }

    /// The values at the elements of a polynomial of at most one coefficient more than half as many; those at half of the
    /// elements may be known.
    pub fn values_from_half(
        &self,
        alloc: Global,
        coeffs: &[F],
        known: Option<Vec<F>>,
    ) -> Result<Vec<F>, AllocError>
        requires part { IsPart self.now }
        requires many { 1 < self.now.count }
        requires few { length coeffs.now ≤ self.now.count / 2 + 1 }
        requires known { IfSome known (λ v. AreFirstValues F.field self.now.blocks.now (self.now.count / 2)
            (of_list F.field coeffs.now) v.items) }
        ensures values { IfOk result (λ v. AreFirstValues F.field self.now.blocks.now self.now.count
            (of_list F.field coeffs.now) v.items) }
    {
        extended(alloc, self.blocks, coeffs, known, self.count)
    }
}
