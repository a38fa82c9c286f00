//! Lists of pairs of a point and a value.

ghost use Rattle.std.specs.Prelude.{◌≡◌, length, map, IfOk};

use std::alloc::{AllocError, Global};

/// The first part of each pair. It takes memory for these alone.
pub fn first_parts<F: Copy>(alloc: Global, pairs: &[(F, F)]) -> Result<Vec<F>, AllocError>
    ensures { IfOk result (λ v. v.items ≡ map (λ p. p.0) pairs.now) }
{
    pairs.iter().map(|pair| pair.0).collect(alloc)
}

/// Each point with the value at its place. It takes memory for these alone.
pub fn paired<F: Copy>(alloc: Global, points: &[F], values: &[F]) -> Result<Vec<(F, F)>, AllocError>
    requires { length values.now ≡ length points.now }
    ensures points { IfOk result (λ v. map (λ p. p.0) v.items ≡ points.now) }
    ensures values { IfOk result (λ v. map (λ p. p.1) v.items ≡ values.now) }
{
    let mut pairs = Vec::with_capacity(alloc, points.len())?;
    for i in 0..points.len() {
        pairs.push((points[i], values[i]))?;
    }
    Ok(pairs)
}
