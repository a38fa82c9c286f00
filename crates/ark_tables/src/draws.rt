//! Drawn entries of tables.

ghost use Rattle.std.specs.Prelude.{◌≡◌, ◌<◌, ◌≤◌, ◌^◌, length};
ghost use Rattle.std.specs.Prelude.{All, IfOk, IfSome, IsNone, IsOkUnless, IsSome};
ghost use Rattle.ark_math.specs.Univariate.{IsSparse};

use ark_coeffs::sparse::gathered_terms;
use ark_traits::{Field, PolyError};
use rand::Rng;
use std::alloc::Global;
use std::collections::HashSet;

// The first of at most `tries` drawn indices that isn't taken.
fn new_index<R: Rng>(
    taken: &HashSet<usize>,
    num_vars: usize,
    rng: &mut R,
    tries: usize,
) -> Option<usize>
    requires { num_vars < 64 }
    ensures below { IfSome result (λ i. i < 2 ^ num_vars) }
    ensures spent { tries ≡ 0 → IsNone result }
{
    for _ in 0..tries {
        let index = rng.next_u64() as usize % (1 << num_vars);
        if !taken.contains(&index) {
            return Some(index);
        }
    }
    None
}

/// Drawn values at so many drawn indices below `2^num_vars`, without zeros, by rising indices. For each index
/// at most `tries` are drawn until one is new; `None` where these are spent.
pub fn drawn_entries<F: Field, R: Rng>(
    alloc: Global,
    num_vars: usize,
    count: usize,
    rng: &mut R,
    tries: usize,
) -> Result<Option<Vec<(usize, F)>>, PolyError>
    requires { num_vars < 64 }
    ensures sparse { IfOk result (λ drawn. IfSome drawn (λ e. IsSparse F.field e.items)) }
    ensures within { IfOk result (λ drawn. IfSome drawn (λ e. All (λ p. p.0 < 2 ^ num_vars) e.items)) }
    ensures count { IfOk result (λ drawn. IfSome drawn (λ e. length e.items ≤ count)) }
    ensures spent { tries ≡ 0 → 0 < count → IfOk result IsNone }
    ensures unasked { count ≡ 0 → IfOk result IsSome }
    ensures memory { IsOkUnless result PolyError.Memory }
{
    let mut taken = HashSet::new(alloc);
    let mut entries = Vec::with_capacity(alloc, count)?;
    for _ in 0..count {
        let Some(index) = new_index(&taken, num_vars, rng, tries) else {
            return Ok(None);
        };
        taken.insert(index)?;
        entries.push((index, F::rand(rng)))?;
    }
    Ok(Some(gathered_terms(alloc, entries)?))
}
