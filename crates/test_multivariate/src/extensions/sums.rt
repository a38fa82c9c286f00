//! Sums, differences and multiples of drawn extensions have the sums, differences and multiples of their values.

use crate::extensions::forms::drawn;
use ark_base::{Field, Polynomial};
use ark_multi::multilinear::{
    DenseMultilinearExtension, MultilinearExtension, SparseMultilinearExtension,
};
use rand_pcg::Pcg64;
use std::alloc::Global;
use test_types::sums::{add_up, has_value, is_kept_by_zero, value};
use test_types::trials::drawn_elements;

// Whether two draws differ, and they and their values add up.
fn draws_add_up<F: Field, E: MultilinearExtension<F>>(
    alloc: Global,
    rng: &mut Pcg64,
    num_vars: usize,
) -> bool {
    let (Some(p), Some(q), Ok(point)) = (
        drawn::<F, E>(alloc, rng, num_vars),
        drawn::<F, E>(alloc, rng, num_vars),
        drawn_elements(alloc, rng, num_vars),
    ) else {
        return false;
    };
    p != q && add_up(alloc, &p, &q, F::rand(rng), &point) && is_kept_by_zero(alloc, &p)
}

/// Draws of both forms.
pub fn draws<F: Field>(alloc: Global) -> bool {
    let mut rng = Pcg64::new(46, 1);
    let mut right = true;
    for _ in 0..20 {
        right = right
            && draws_add_up::<F, DenseMultilinearExtension<F>>(alloc, &mut rng, 10)
            && draws_add_up::<F, SparseMultilinearExtension<F>>(alloc, &mut rng, 10)
            && draws_add_up::<F, SparseMultilinearExtension<F>>(alloc, &mut rng, 18);
    }
    right
}

// Whether a draw's multiple, new and in place, has the multiple of its value at a drawn point, and its multiple by zero
// is zero.
fn draw_has_multiples<F: Field>(alloc: Global, rng: &mut Pcg64) -> bool {
    let (Some(mut p), Ok(point)) = (
        drawn::<F, DenseMultilinearExtension<F>>(alloc, rng, 10),
        drawn_elements(alloc, rng, 10),
    ) else {
        return false;
    };
    let factor = F::rand(rng);
    let Some(x) = value(alloc, &p, &point) else {
        return false;
    };
    has_value(alloc, p.mul_scalar(alloc, factor).ok(), &point, factor * x)
        && p.mul_assign(alloc, factor).is_ok()
        && value(alloc, &p, &point) == Some(factor * x)
        && p.mul_assign(alloc, F::zero()).is_ok()
        && p.is_zero()
}

/// Dense draws.
pub fn multiples<F: Field>(alloc: Global) -> bool {
    let mut rng = Pcg64::new(71, 1);
    let mut right = true;
    for _ in 0..20 {
        right = right && draw_has_multiples::<F>(alloc, &mut rng);
    }
    right
}
