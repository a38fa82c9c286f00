//! Transforms at every size, against plain bodies and against their inverses.

use crate::calls::coset;
use crate::plain::{agrees, forward, inverse};
use ark_base::{DomainCoeff, FftField, Field, Lanes, PolyError};
use ark_fft::domain::radix2::tables::powers;
use ark_univariate::EvaluationDomain;
use rand_pcg::Pcg64;
use std::alloc::{AllocError, Global};
use test_types::nothing::Nothing;
use test_types::trials::drawn_elements;

// Whether the transforms over the coset are the plain sums.
fn has_sums<F: FftField, D: EvaluationDomain<F>>(
    alloc: Global,
    rng: &mut Pcg64,
    size: usize,
    offset: F,
) -> bool {
    match D::new_coset(size, offset) {
        Some(domain) => matches!(agrees(alloc, rng, &domain), Ok(true)),
        None => false,
    }
}

/// Plain sums over a subgroup and two cosets of each of these sizes.
pub fn plain_sums<F: FftField, D: EvaluationDomain<F>>(alloc: Global, sizes: &[usize]) -> bool {
    let mut rng = Pcg64::new(2, 3);
    let mut right = true;
    for size in sizes {
        let drawn = F::rand(&mut rng);
        right = right
            && has_sums::<F, D>(alloc, &mut rng, *size, F::one())
            && has_sums::<F, D>(alloc, &mut rng, *size, F::GENERATOR)
            && has_sums::<F, D>(alloc, &mut rng, *size, drawn);
    }
    right
}

// Whether a drawn list is transformed, and its transform back, as passes do it.
fn has_passes<F: FftField, D: EvaluationDomain<F>>(
    alloc: Global,
    rng: &mut Pcg64,
    domain: &D,
) -> Result<bool, PolyError> {
    let coeffs = drawn_elements::<F, Pcg64>(alloc, rng, domain.size())?;
    let values = domain.fft(alloc, &coeffs)?;
    let mut passed = coeffs.clone()?;
    forward(domain, &mut passed);
    let same = passed == values;
    inverse(domain, &mut passed);
    Ok(same && passed == coeffs)
}

/// Plain passes over a subgroup and a coset of each of these sizes.
pub fn plain_passes<F: FftField, D: EvaluationDomain<F>>(alloc: Global, sizes: &[usize]) -> bool {
    let mut rng = Pcg64::new(7, 11);
    let mut right = true;
    for size in sizes {
        for offset in [1, 3] {
            match coset::<F, D>(*size, offset) {
                Ok(domain) => {
                    right = right && matches!(has_passes(alloc, &mut rng, &domain), Ok(true));
                }
                Err(_) => right = false,
            }
        }
    }
    right
}

// Whether items come back from the inverse and the transform, and from the transform and the inverse, all in place.
fn come_back<F: FftField, D: EvaluationDomain<F>, T: DomainCoeff<F>>(
    alloc: Global,
    domain: &D,
    items: &[T],
) -> Result<bool, PolyError> {
    let mut list = domain.ifft(alloc, items)?;
    domain.fft_in_place(alloc, &mut list)?;
    let back = list.as_slice() == items;
    domain.fft_in_place(alloc, &mut list)?;
    domain.ifft_in_place(alloc, &mut list)?;
    Ok(back && list.as_slice() == items)
}

// So many drawn pairs.
fn drawn_lanes<F: Field>(
    alloc: Global,
    rng: &mut Pcg64,
    len: usize,
) -> Result<Vec<Lanes<F>>, AllocError> {
    let mut list = Vec::with_capacity(alloc, len)?;
    for _ in 0..len {
        list.push(Lanes::new(F::rand(rng), F::rand(rng)))?;
    }
    Ok(list)
}

// Whether drawn elements and pairs come back over the coset.
fn both_come_back<F: FftField, D: EvaluationDomain<F>>(
    alloc: Global,
    rng: &mut Pcg64,
    size: usize,
    offset: F,
) -> bool {
    let Some(domain) = D::new_coset(size, offset) else {
        return false;
    };
    let (Ok(elements), Ok(lanes)) = (
        drawn_elements::<F, Pcg64>(alloc, rng, domain.size()),
        drawn_lanes::<F>(alloc, rng, domain.size()),
    ) else {
        return false;
    };
    matches!(come_back(alloc, &domain, &elements), Ok(true))
        && matches!(come_back(alloc, &domain, &lanes), Ok(true))
}

/// Drawn elements and pairs over the subgroup and a coset of each of these sizes.
pub fn compose<F: FftField, D: EvaluationDomain<F>>(alloc: Global, sizes: &[usize]) -> bool {
    let mut rng = Pcg64::new(17, 5);
    let mut right = true;
    for size in sizes {
        right = right
            && both_come_back::<F, D>(alloc, &mut rng, *size, F::one())
            && both_come_back::<F, D>(alloc, &mut rng, *size, F::GENERATOR);
    }
    right
}

/// Lists of items of no size, whose values are as many as the domain has elements.
pub fn of_nothings<F: FftField, D: EvaluationDomain<F>>(
    alloc: Global,
    len: usize,
) -> Result<bool, PolyError> {
    let domain: D = coset(4, 1)?;
    let mut items = Vec::new(alloc);
    items.resize(len, Nothing)?;
    Ok(domain.fft(alloc, &items)?.len() == 4 && domain.ifft(alloc, &items)?.len() == 4)
}

/// Whether the tables of the powers of roots of these orders have each of them.
pub fn twiddles<F: FftField>(alloc: Global, orders: &[usize]) -> Result<bool, PolyError> {
    let mut right = true;
    for n in orders {
        let root = F::get_root_of_unity(*n as u64).ok_or(PolyError::NoDomain)?;
        let table = powers(alloc, root, *n / 2)?;
        right = right && table.len() == *n / 2;
        for (i, power) in table.iter().enumerate() {
            right = right && *power == root.pow(i as u64);
        }
    }
    Ok(right)
}
