//! A table that is one at one place: what chooses a value in a multilinear protocol.

ghost use Rattle.std.specs.Prelude.{◌≡◌, ◌<◌, ◌^◌, length, IfOk, IsOkUnless};
ghost use Rattle.ark_math_variables.specs.Multilinear.{weight};

use ark_base::{Field, PolyError};
use ark_poly::{Polynomial, SparseMultilinearExtension};
use std::alloc::Global;

/// How much the value at this index counts at a point: the product of `x_i` where bit i of the index is set, and of
/// `1 - x_i` elsewhere. It is the value of the extension of the table that is one at the index and zero elsewhere, of
/// which the sparse form keeps a single entry.
pub fn selector<F: Field>(alloc: Global, index: usize, point: &Vec<F>) -> Result<F, PolyError>
    requires few { length point.now.items < 64 }
    requires within { index < 2 ^ length point.now.items }
    ensures value { IfOk result (λ y. y ≡ weight F.field point.now.items index) }
    ensures memory { IsOkUnless result PolyError.Memory }
{
    let mut entries = Vec::new(alloc);
    entries.push((index, F::one()))?;
    let table = SparseMultilinearExtension::from_evaluations(alloc, point.len(), &entries)?;
    table.evaluate(alloc, point)
}
