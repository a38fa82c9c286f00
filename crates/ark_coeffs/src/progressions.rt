//! Geometric progressions: indicators, and progressions less a constant, inverted, or spaced by zeros.

ghost use Rattle.std.specs.Prelude.{◌≡◌, ◌≢◌, ℕ, ◌+◌, ◌-◌, ◌*◌, ◌/◌, ◌%◌, ◌<◌, length, IfOk, IsOkUnless};
ghost use Rattle.ark_math.specs.Field.{power, minus};
ghost use Rattle.ark_math.specs.Field.{IsPlaceQuotient};
ghost use Rattle.ark_math.specs.Univariate.{of_list};

use crate::dense::zeros;
use ark_traits::{Field, PolyError, batch_inversion};
use std::alloc::{AllocError, Global};

/// One where the element `offset * root^i` is `tau`, and zero elsewhere, for the `i` below `size`. Two
/// progressions take turns, so that no product waits for the last.
pub fn indicator<F: Field>(
    alloc: Global,
    size: usize,
    offset: F,
    root: F,
    tau: F,
) -> Result<Vec<F>, AllocError>
    ensures len { IfOk result (λ l. length l.items ≡ size) }
    ensures here { IfOk result (λ l. (i : ℕ) → i < size → F.field.times offset (power F.field root i) ≡ tau
        → of_list F.field l.items i ≡ F.field.one) }
    ensures elsewhere { IfOk result (λ l. (i : ℕ) → i < size
        → F.field.times offset (power F.field root i) ≢ tau → of_list F.field l.items i ≡ F.field.zero) }
{
    let mut items = Vec::with_capacity(alloc, size)?;
    let square = root * root;
    let mut next = offset;
    let mut after = offset * root;
    for _ in 0..size {
        items.push(if next == tau { F::one() } else { F::zero() })?;
        let later = next * square;
        next = after;
        after = later;
    }
    Ok(items)
}

/// The items `first * ratio^i - constant` for the `i` below `size`. Two progressions take turns, so that no
/// product waits for the last.
pub fn progression_less<F: Field>(
    alloc: Global,
    size: usize,
    first: F,
    ratio: F,
    constant: F,
) -> Result<Vec<F>, AllocError>
    ensures len { IfOk result (λ l. length l.items ≡ size) }
    ensures items { IfOk result (λ l. (i : ℕ) → i < size → of_list F.field l.items i
        ≡ minus F.field (F.field.times first (power F.field ratio i)) constant) }
{
    let mut items = Vec::with_capacity(alloc, size)?;
    let square = ratio * ratio;
    let mut next = first;
    let mut after = first * ratio;
    for _ in 0..size {
        items.push(next - constant)?;
        let later = next * square;
        next = after;
        after = later;
    }
    Ok(items)
}

/// The inverses of `first * ratio^i - constant` for the `i` below `size`, by one batch inversion: zero where
/// that is.
pub fn inverted_progression_less<F: Field>(
    alloc: Global,
    size: usize,
    first: F,
    ratio: F,
    constant: F,
) -> Result<Vec<F>, PolyError>
    ensures len { IfOk result (λ l. length l.items ≡ size) }
    ensures inverses { IfOk result (λ l. (i : ℕ) → i < size → IsPlaceQuotient F.field F.field.one
        (minus F.field (F.field.times first (power F.field ratio i)) constant) (of_list F.field l.items i)) }
    ensures memory { IsOkUnless result PolyError.Memory }
{
    let mut items = progression_less(alloc, size, first, ratio, constant)?;
    batch_inversion(alloc, items.as_mut_slice())?;
    Ok(items)
}

/// The items `start * ratio^k` at the multiples `k * step` below `size`, and zeros between them.
pub fn spaced_progression<F: Field>(
    alloc: Global,
    size: usize,
    step: usize,
    start: F,
    ratio: F,
) -> Result<Vec<F>, AllocError>
    requires nonempty { 0 < size }
    requires apart { 0 < step }
    requires divides { size % step ≡ 0 }
    ensures len { IfOk result (λ l. length l.items ≡ size - step + 1) }
    ensures items { IfOk result (λ l. (k : ℕ) → k < size / step → of_list F.field l.items (step * k)
        ≡ F.field.times start (power F.field ratio k)) }
    ensures zeros { IfOk result (λ l. (k r : ℕ) → 0 < r → r < step → of_list F.field l.items (step * k + r)
        ≡ F.field.zero) }
{
    let len = size - step + 1;
    let mut items = zeros(alloc, len)?;
    let mut next = start;
    for k in 0..size / step {
        items[k * step] = next;
        next *= ratio;
    }
    Ok(items)
}
