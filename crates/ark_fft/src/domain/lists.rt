//! Lists cut to the size of a domain.

ghost use Rattle.std.specs.Prelude.{◌≡◌, IfOk, take};

use std::alloc::{AllocError, Global};

/// A copy of at most `count` items, with room for `count`.
pub fn first_items<T: Copy>(alloc: Global, items: &[T], count: usize) -> Result<Vec<T>, AllocError>
    ensures { IfOk result (λ first. first.items ≡ take count items.now) }
{
    let mut first = Vec::with_capacity(alloc, count)?;
    first.extend_from_slice(&items[..items.len().min(count)])?;
    Ok(first)
}
