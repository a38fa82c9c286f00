//! Variables that are bound at once, against one at a time.

use crate::extensions::drawn::drawn_with;
use crate::extensions::forms::{drawn, one_at_a_time};
use ark_base::Field;
use ark_multi::multilinear::{
    DenseMultilinearExtension, MultilinearExtension, SparseMultilinearExtension,
};
use rand_pcg::Pcg64;
use std::alloc::Global;
use test_types::sums::{same, value};
use test_types::trials::drawn_elements;

// The table that is left when the first variables are bound, where there are so many.
fn left<F: Field, E: MultilinearExtension<F>>(alloc: Global, p: &E, first: &[F]) -> Option<Vec<F>> {
    if first.len() > p.num_vars() {
        return None;
    }
    let left = p.fix_variables(alloc, first).ok()?;
    left.to_evaluations(alloc).ok()
}

// Whether every part of a drawn point leaves what binding it one at a time leaves of the table, and the value is what
// is left of all.
fn binds<F: Field, E: MultilinearExtension<F>>(
    alloc: Global,
    rng: &mut Pcg64,
    p: Option<E>,
) -> bool {
    let Some(p) = p else {
        return false;
    };
    let (Ok(table), Ok(point)) = (
        p.to_evaluations(alloc),
        drawn_elements(alloc, rng, p.num_vars()),
    ) else {
        return false;
    };
    let mut right = true;
    for len in 0..=point.len() {
        let first = point.split_at(len).0;
        let known = one_at_a_time(alloc, &table, first).ok();
        right = right && same(left(alloc, &p, first), known);
    }
    match one_at_a_time(alloc, &table, &point) {
        Ok(last) => right && value(alloc, &p, &point) == last.first().copied(),
        Err(_) => false,
    }
}

/// Dense draws, and sparse ones with few, with half and with all of the entries.
pub fn at_once<F: Field>(alloc: Global) -> bool {
    let mut rng = Pcg64::new(43, 1);
    let mut right = true;
    for num_vars in 0..13 {
        let dense = drawn::<F, DenseMultilinearExtension<F>>(alloc, &mut rng, num_vars);
        right = right && binds(alloc, &mut rng, dense);
        for one_in in [1, 2, 1 << (num_vars / 2)] {
            let shape = (num_vars, (1 << num_vars) / one_in);
            let sparse = drawn_with::<F, Pcg64>(alloc, &mut rng, shape, 1_000_000);
            right = right && binds(alloc, &mut rng, sparse);
        }
    }
    right
}

// Whether a draw by entries and the same by all values agree at a point, and with their first three variables bound.
fn draw_agrees<F: Field>(alloc: Global, rng: &mut Pcg64) -> bool {
    let (Some(p), Ok(point)) = (
        drawn::<F, SparseMultilinearExtension<F>>(alloc, rng, 12),
        drawn_elements(alloc, rng, 12),
    ) else {
        return false;
    };
    let first = point.split_at(3.min(point.len())).0;
    match p.to_dense_multilinear_extension(alloc) {
        Ok(q) => {
            value(alloc, &p, &point) == value(alloc, &q, &point)
                && same(left(alloc, &p, first), left(alloc, &q, first))
        }
        Err(_) => false,
    }
}

/// Draws by entries, and the same by all values.
pub fn both_forms<F: Field>(alloc: Global) -> bool {
    let mut rng = Pcg64::new(54, 1);
    let mut right = true;
    for _ in 0..20 {
        right = right && draw_agrees::<F>(alloc, &mut rng);
    }
    right
}
