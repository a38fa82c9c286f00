//! How many distinct products are behind the answers of the kernels, seen from outside.

use crate::calls::coset;
use ark_base::{PolyError, Work};
use ark_fft::domain::radix2::plain::fft_plain;
use ark_univariate::EvaluationDomain;
use std::alloc::{AllocError, Global};
use test_types::numbered::Numbered;
use test_types::traced::{Products, Traced};

// The items 1, 2, .., count.
fn items<F: Numbered>(alloc: Global, count: u64) -> Result<Vec<Traced<F>>, AllocError> {
    let mut items = Vec::new(alloc);
    for i in 0..count {
        items.push(Traced::new(F::from(i.saturating_add(1))))?;
    }
    Ok(items)
}

// How many distinct products are behind the answers, and `None` where they are more than a set can hold.
fn behind<F: Numbered>(answers: &[Traced<F>]) -> Option<usize> {
    let mut all = Products::none();
    for answer in answers {
        all.join(&answer.products);
    }
    all.count()
}

// Whether there are answers with products behind them, and at most so many.
fn has_at_most<F: Numbered>(most: usize, answers: Result<Vec<Traced<F>>, PolyError>) -> bool {
    match answers {
        Ok(answers) => match behind(&answers) {
            Some(count) => 0 < count && count <= most,
            None => false,
        },
        Err(_) => false,
    }
}

/// Whether that is so, over cosets of this size, of the values of so many items and of the coefficients of as many
/// values.
pub fn are_few<F: Numbered, D: EvaluationDomain<F>>(
    alloc: Global,
    size: usize,
    count: u64,
    most: (usize, usize),
) -> bool {
    let Ok(items) = items::<F>(alloc, count) else {
        return false;
    };
    let mut right = true;
    for offset in [1, 3] {
        match coset::<F, D>(size, offset) {
            Ok(domain) => {
                right = right
                    && has_at_most(most.0, domain.fft(alloc, &items))
                    && has_at_most(most.1, domain.ifft(alloc, &items));
            }
            Err(_) => right = false,
        }
    }
    right
}

/// Whether plain sums over as many elements give the transform's values by more products than a set can hold: so many
/// do not go unseen.
pub fn plain_sums_are_seen<F: Numbered, D: EvaluationDomain<F>>(
    alloc: Global,
    size: usize,
) -> Result<bool, PolyError> {
    let domain: D = coset(size, 1)?;
    let mut list = items::<F>(alloc, size as u64)?;
    let values = domain.fft(alloc, &list)?;
    fft_plain(domain.coset(), alloc, &mut list, &mut Work::new())?;
    Ok(values == list && behind(&list).is_none())
}
