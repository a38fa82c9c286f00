//! Plain bodies to compare the kernels with.

use ark_base::{FftField, Field, PolyError, Work};
use ark_fft::domain::radix2::plain::fft_plain;
use ark_univariate::EvaluationDomain;
use rand_pcg::Pcg64;
use std::alloc::Global;
use test_types::trials::drawn_elements;

/// Whether the transform of the list is that by plain sums.
pub fn has_plain_sums<F: FftField, D: EvaluationDomain<F>>(
    alloc: Global,
    domain: &D,
    coeffs: &[F],
) -> Result<bool, PolyError> {
    let values = domain.fft(alloc, coeffs)?;
    let mut sums = Vec::with_capacity(alloc, coeffs.len())?;
    sums.extend_from_slice(coeffs)?;
    fft_plain(domain.coset(), alloc, &mut sums, &mut Work::new())?;
    Ok(values == sums)
}

/// Whether that is so of drawn lists of several lengths.
pub fn agrees<F: FftField, D: EvaluationDomain<F>>(
    alloc: Global,
    rng: &mut Pcg64,
    domain: &D,
) -> Result<bool, PolyError> {
    let size = domain.size();
    let mut right = true;
    for len in [
        0,
        1,
        size / 4,
        (size / 4).saturating_add(1),
        size,
        size.saturating_add(3),
    ] {
        let coeffs = drawn_elements::<F, Pcg64>(alloc, rng, len)?;
        right = right && has_plain_sums(alloc, domain, &coeffs)?;
    }
    Ok(right)
}

/// The transform of as many items as the domain has elements, by passes in place.
pub fn forward<F: FftField, D: EvaluationDomain<F>>(domain: &D, items: &mut [F]) {
    D::distribute_powers(items, domain.coset_offset());
    passes(items, domain.group_gen());
}

/// The inverse transform by plain passes, in place.
pub fn inverse<F: FftField, D: EvaluationDomain<F>>(domain: &D, values: &mut [F]) {
    passes(values, domain.group_gen_inv());
    D::distribute_powers_and_mul_by_const(values, domain.coset_offset_inv(), domain.size_inv());
}

// Pairs first, then fours, and so on, over items in the order of their indices' bits read backwards.
fn passes<F: Field>(items: &mut [F], root: F) {
    let len = items.len();
    if len < 2 {
        return;
    }
    reorder(items);
    let mut size: usize = 2;
    for _ in 0..len.ilog2() {
        let step = root.pow((len / size.max(1)) as u64);
        for block in items.chunks_mut(size.max(1)) {
            join(block, step);
        }
        size = size.saturating_mul(2);
    }
}

// Exchanges the items whose indices' bits are each other's read backwards.
fn reorder<F: Field>(items: &mut [F]) {
    let len = items.len();
    for i in 0..len {
        let j = i.reverse_bits() >> (len.leading_zeros() + 1).min(63);
        if i < j && j < len {
            items.swap(i, j);
        }
    }
}

// Joins two halves of a block by the powers of a root.
fn join<F: Field>(block: &mut [F], root: F) {
    let half = block.len() / 2;
    let (lo, hi) = block.split_at_mut(half);
    let mut twiddle = F::one();
    for (x, y) in lo.iter_mut().zip(hi) {
        let turned = *y * twiddle;
        *y = *x - turned;
        *x = *x + turned;
        twiddle = twiddle * root;
    }
}
