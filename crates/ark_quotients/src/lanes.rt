//! Two lists of coefficients side by side.

ghost use Rattle.std.specs.Prelude.{◌≡◌, ℕ, ◌≤◌, length, map, IfOk};
ghost use Rattle.ark_math.specs.Module.{tabulate};
ghost use Rattle.ark_math.specs.Univariate.{of_list};
ghost use Rattle.ark_traits.specs.Lanes.{both_lanes};

use crate::series::coefficient_at;
use ark_traits::{Field, Lanes, Zero};
use std::alloc::{AllocError, Global};

// The first `len` items of both lists, one of each side by side, with room for `room` pairs.
fn pairs<F: Field>(
    alloc: Global,
    first: &[F],
    second: &[F],
    len: usize,
    room: usize,
) -> Result<Vec<Lanes<F>>, AllocError>
    requires first { len ≤ length first.now }
    requires second { len ≤ length second.now }
    ensures { IfOk result (λ lanes. map both_lanes lanes.items
        ≡ tabulate len (λ i. (of_list F.field first.now i, of_list F.field second.now i))) }
{
    let mut lanes = Vec::with_capacity(alloc, room)?;
    for i in 0..len {
        lanes.push(Lanes::new(first[i], second[i]))?;
    }
    Ok(lanes)
}

/// The first `len` coefficients of both lists, filled with zeros: one of the first list in lane 0, one of the
/// second in lane 1.
pub fn side_by_side<F: Field>(
    alloc: Global,
    first: &[F],
    second: &[F],
    len: usize,
) -> Result<Vec<Lanes<F>>, AllocError>
    ensures { IfOk result (λ lanes. map both_lanes lanes.items
        ≡ tabulate len (λ i. (of_list F.field first.now i, of_list F.field second.now i))) }
{
    let both = first.len().min(second.len()).min(len);
    let given = first.len().max(second.len()).min(len);
    let mut lanes = pairs(alloc, first, second, both, len)?;
    for i in both..given {
        lanes.push(Lanes::new(coefficient_at(first, i), coefficient_at(second, i)))?;
    }
    lanes.resize(len, Lanes::zero())?;
    Ok(lanes)
}

/// The product of the two lanes of each item.
pub fn products_of_lanes<F: Field>(alloc: Global, lanes: &[Lanes<F>]) -> Result<Vec<F>, AllocError>
    ensures { IfOk result (λ products. products.items ≡ map (λ t. F.field.times t.0 t.1)
        (map both_lanes lanes.now)) }
{
    let mut products = Vec::with_capacity(alloc, lanes.len())?;
    for i in 0..lanes.len() {
        let pair = lanes[i];
        products.push(pair.get(0) * pair.get(1))?;
    }
    Ok(products)
}
