//! Calls of tables, and of their entries.

ghost use Rattle.std.specs.Prelude.{◌≡◌, ◌↔◌, ℕ, ◌*◌, ◌<◌, ◌^◌, length, IfOk, IsTrue};
ghost use Rattle.ark_math_variables.specs.Multilinear.{fixed};
ghost use Rattle.ark_math.specs.Univariate.{IsSparse, of_list, of_pairs};
ghost use Rattle.ark_tables.specs.Entries.{AreEntries};

use ark_tables::tables::fixed_table;
use ark_tables::windows::{are_entries, bind_variables};
use ark_traits::{Field, PolyError};
use std::alloc::{AllocError, Global};

/// What is left of a table when its first variables are bound.
pub fn bound<F: Field>(alloc: Global, table: &[F], point: &[F]) -> Result<Vec<F>, AllocError>
    requires { (n : ℕ) × (n * 2 ^ length point.now ≡ length table.now) }
    ensures { IfOk result (λ t. of_list F.field t.items
        ≡ fixed F.field (of_list F.field table.now) point.now) }
{
    fixed_table(alloc, table, point)
}

/// What is left of entries when the first variables are bound.
pub fn bound_entries<F: Field>(
    alloc: Global,
    entries: &[(usize, F)],
    point: &[F],
) -> Result<Vec<(usize, F)>, PolyError>
    requires sparse { IsSparse F.field entries.now }
    requires few { length point.now < 64 }
    ensures { IfOk result (λ e. of_pairs F.field e.items
        ≡ fixed F.field (of_pairs F.field entries.now) point.now) }
{
    bind_variables(alloc, entries, point)
}

/// Whether these are the entries of a table, its number of variables, and zero.
pub fn entries<F: Field>(entries: &[(usize, F)], num_vars: usize, zero: F) -> bool
    ensures { IsTrue result ↔ AreEntries F.field (entries.now, (num_vars, zero)) }
{
    are_entries(entries, num_vars, zero)
}
