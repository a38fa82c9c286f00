//! Samples outside a domain, and how much is drawn for them.

use crate::calls::coset;
use ark_base::FftField;
use ark_univariate::EvaluationDomain;
use rand_pcg::Pcg64;
use std::alloc::Global;
use test_types::counting::Counting;

fn generator(seed: u32) -> Counting<Pcg64> {
    Counting::new(Pcg64::new(u128::from(seed), 5))
}

// The first draw of this seed that is outside the domain, and how many draws come before it.
fn foretold<F: FftField, D: EvaluationDomain<F>>(domain: &D, seed: u32) -> Option<(F, usize)> {
    let mut rng = generator(seed);
    for before in 0..1000 {
        let drawn = F::rand(&mut rng);
        if !domain.evaluate_vanishing_polynomial(drawn).is_zero() {
            return Some((drawn, before));
        }
    }
    None
}

// Whether so many tries give this sample, by so many draws.
fn gives<F: FftField, D: EvaluationDomain<F>>(
    domain: &D,
    seed: u32,
    tries: usize,
    (sample, draws): (Option<F>, usize),
) -> bool {
    let mut rng = generator(seed);
    domain.sample_element_outside_domain(&mut rng, tries) == sample && rng.draws == draws as u64
}

/// Whether, outside the subgroup of this size and with several seeds, the first draw that is outside comes, at the
/// last try too, no draw is taken after it, and one try too few gives none.
pub fn samples<F: FftField, D: EvaluationDomain<F>>(size: usize) -> bool {
    let Ok(domain) = coset::<F, D>(size, 1) else {
        return false;
    };
    let mut right = true;
    for seed in 0..64 {
        match foretold(&domain, seed) {
            Some((sample, before)) => {
                let count = before.saturating_add(1);
                right = right
                    && gives(&domain, seed, 0, (None, 0))
                    && gives(&domain, seed, before, (None, before))
                    && gives(&domain, seed, count, (Some(sample), count))
                    && gives(&domain, seed, 1000, (Some(sample), count));
            }
            None => right = false,
        }
    }
    right
}
