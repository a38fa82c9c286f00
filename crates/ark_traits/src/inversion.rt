//! Inverses of many values by one inversion.

ghost use Rattle.std.specs.Prelude.{◌≡◌, ℕ, ◌<◌, length, OnOk, OnErr};
ghost use Rattle.ark_math.specs.Univariate.{of_list};
ghost use Rattle.ark_math.specs.Field.{IsPlaceQuotient};

use crate::field::Field;
use std::alloc::{AllocError, Global};

/// Replaces each item by its inverse, in place; zeros stay zeros. It takes one inversion and some three
/// products an item: the items at even places have a running product, and those at odd places one, so that no
/// product waits for the last. The only error is memory, and then nothing is changed.
pub fn batch_inversion<F: Field>(alloc: Global, items: &mut [F]) -> Result<(), AllocError>
    ensures inverses { OnOk result ((i : ℕ) → i < length items.old
        → IsPlaceQuotient F.field F.field.one (of_list F.field items.old i) (of_list F.field items.new i)) }
    ensures kept { OnErr result (items.new ≡ items.old) }
{
    let mut products = Vec::with_capacity(alloc, items.len())?;
    let mut next = F::one();
    let mut after = F::one();
    for i in 0..items.len() {
        products.push(next)?;
        let mut later = next;
        if !items[i].is_zero() {
            later *= items[i];
        }
        next = after;
        after = later;
    }
    let inverse = (next * after).inverse().unwrap();
    let mut next_inverse = inverse * after;
    let mut after_inverse = inverse * next;
    for i in (0..items.len()).rev() {
        let item = items[i];
        let mut before = after_inverse;
        if !item.is_zero() {
            items[i] = before * products[i];
            before *= item;
        }
        after_inverse = next_inverse;
        next_inverse = before;
    }
    Ok(())
}
