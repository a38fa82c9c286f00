//! Calls of powers of variables.

ghost use Rattle.std.specs.Prelude.{◌≡◌, ◌↔◌, ℕ, ◌<◌, ◌^◌, IfOk, IsTrue};
ghost use Rattle.ark_math_variables.specs.Term.{IsWithin, power_of, total_degree};
ghost use Rattle.ark_tables.specs.Graded.{graded_cmp};

use ark_tables::powers::{collected_powers, compared_powers, is_within};
use ark_traits::PolyError;
use std::alloc::Global;
use std::cmp::Ordering;

/// The one list of the product of these powers.
pub fn collected(
    alloc: Global,
    powers: Vec<(usize, usize)>,
) -> Result<Vec<(usize, usize)>, PolyError>
    ensures { IfOk result (λ t. (v : ℕ) → power_of t.items v ≡ power_of powers.items v) }
{
    collected_powers(alloc, powers)
}

/// The graded order of terms.
pub fn ordered(s: &[(usize, usize)], t: &[(usize, usize)]) -> Ordering
    requires left { total_degree s.now < 2 ^ 64 }
    requires right { total_degree t.now < 2 ^ 64 }
    ensures { result ≡ graded_cmp s.now t.now }
{
    compared_powers(s, t)
}

/// Whether all variables are below this number.
pub fn within(pairs: &[(usize, usize)], num_vars: usize) -> bool
    ensures { IsTrue result ↔ IsWithin num_vars pairs.now }
{
    is_within(pairs, num_vars)
}
