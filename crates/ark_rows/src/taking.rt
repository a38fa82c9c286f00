//! What lists of rows hold in one lane.

ghost use Rattle.std.specs.Prelude.{◌≡◌, ℕ, ◌<◌, List, map, IfOk};
ghost use Rattle.ark_math.specs.Module.{itself};
ghost use Rattle.ark_math.specs.Domain.{Domain};
ghost use Rattle.ark_math.specs.Transform.{transform, IsInverse};
ghost use Rattle.ark_rows.specs.Lanewise.{lane, lanewise};
ghost use Rattle.ark_rows.specs.Row.{lanes};

use crate::row::Row;
use ark_traits::Field;
use std::alloc::{AllocError, Global};

/// The elements of a lane, one of each row. Where the rows are the transform of others, or the inverse one,
/// they are that of the others' elements in this lane.
pub fn lane_of<F: Field, const N: usize>(
    alloc: Global,
    rows: &[Row<F, N>],
    i: usize,
) -> Result<Vec<F>, AllocError>
    requires { i < N }
    ensures elements { IfOk result (λ v. v.items ≡ lane i (map (lanes F.field) rows.now)) }
    ensures transform { IfOk result (λ v. (d : Domain F) (c : List (ℕ → F)) → map (lanes F.field) rows.now
        ≡ transform F.field (lanewise (itself F.field)) d c
        → v.items ≡ transform F.field (itself F.field) d (lane i c)) }
    ensures inverse { IfOk result (λ v. (d : Domain F) (c : List (ℕ → F))
        → IsInverse F.field (lanewise (itself F.field)) d c (map (lanes F.field) rows.now)
        → IsInverse F.field (itself F.field) d (lane i c) v.items) }
{
    let mut elements = Vec::with_capacity(alloc, rows.len())?;
    for row in rows {
        elements.push(row.get(i))?;
    }
    Ok(elements)
}
