//! Values of products of x - r over roots, at the first elements of a table.

ghost use Rattle.std.specs.Prelude.{◌≡◌, ℕ, ◌<◌, ◌≤◌, length, IfOk};
ghost use Rattle.ark_bit_reversed.specs.Blocks.{IsPowerOfTwo, element_of, size_of};
ghost use Rattle.ark_math.specs.Univariate.{of_list};
ghost use Rattle.rs_code.specs.Locator.{locator_at};

use ark_bit_reversed::BlockRoots;
use ark_subproducts::product_values;
use ark_traits::FftField;
use std::alloc::{AllocError, Global};

/// The values at the first `count` elements of the product of x - r over the roots.
pub fn values_over<F: FftField>(
    alloc: Global,
    table: &BlockRoots<F>,
    roots: &[F],
    count: usize,
) -> Result<Vec<F>, AllocError>
    requires power { IsPowerOfTwo count }
    requires within { count ≤ size_of table.now }
    requires few { length roots.now ≤ count }
    requires many { 64 ≤ count }
    ensures len { IfOk result (λ v. length v.items ≡ count) }
    ensures values { IfOk result (λ v. (i : ℕ) → i < count → of_list F.field v.items i
        ≡ locator_at F.field roots.now (element_of F.field table.now i)) }
{
    product_values(alloc, table, roots, count)
}
