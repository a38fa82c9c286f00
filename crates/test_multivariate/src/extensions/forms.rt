//! Draws of either form, and tables the plain way.

use ark_base::Field;
use ark_multi::multilinear::MultilinearExtension;
use rand_pcg::Pcg64;
use std::alloc::{AllocError, Global};

/// What a form that draws indices may try for one.
pub const TRIES: usize = 1000;

/// One drawn by its form.
pub fn drawn<F: Field, E: MultilinearExtension<F>>(
    alloc: Global,
    rng: &mut Pcg64,
    num_vars: usize,
) -> Option<E> {
    if num_vars >= 64 {
        return None;
    }
    E::rand(alloc, num_vars, rng, TRIES).ok()?
}

/// What is left of a table when its first variables are bound one at a time, the plain way.
pub fn one_at_a_time<F: Field>(
    alloc: Global,
    table: &[F],
    point: &[F],
) -> Result<Vec<F>, AllocError> {
    let mut left = Vec::from_slice(alloc, table)?;
    for x in point {
        left = halved(alloc, &left, *x)?;
    }
    Ok(left)
}

// What is left when one variable is bound. A value that is missing at the end counts as zero.
fn halved<F: Field>(alloc: Global, table: &[F], x: F) -> Result<Vec<F>, AllocError> {
    let mut half = Vec::new(alloc);
    for pair in table.chunks(2) {
        let low = pair.first().copied().unwrap_or(F::zero());
        let high = pair.get(1).copied().unwrap_or(F::zero());
        half.push(low + x * (high - low))?;
    }
    Ok(half)
}
