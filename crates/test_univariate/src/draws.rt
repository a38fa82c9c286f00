//! How much is drawn for a polynomial.

use ark_base::Field;
use ark_univariate::univariate::DensePolynomial;
use ark_univariate::{DenseUVPolynomial, Polynomial};
use rand_pcg::Pcg64;
use std::alloc::Global;
use test_types::counting::Counting;

// How many tries the leading coefficient takes after so many others, up to 100.
fn tries_taken<F: Field>(seed: u64, degree: usize) -> u64 {
    let mut rng = Pcg64::new(u128::from(seed), 1);
    for _ in 0..degree {
        F::rand(&mut rng);
    }
    for tries in 1..100 {
        if !F::rand(&mut rng).is_zero() {
            return tries;
        }
    }
    100
}

// Whether one of this degree is drawn with so many tries, and how many words are taken.
fn draws<F: Field>(alloc: Global, seed: u64, degree: usize, tries: u64) -> (bool, u64) {
    let mut rng = Counting::new(Pcg64::new(u128::from(seed), 1));
    let comes = match DensePolynomial::<F>::rand(alloc, degree, &mut rng, tries as usize) {
        Ok(Some(p)) => p.degree() == degree,
        _ => false,
    };
    (comes, rng.draws)
}

// Whether just so many tries suffice, one less does not, and each word is a coefficient or a try.
fn takes_its_tries<F: Field>(alloc: Global, seed: u64, degree: usize) -> bool {
    let tries = tries_taken::<F>(seed, degree);
    let words = (degree as u64).saturating_add(tries);
    draws::<F>(alloc, seed, degree, tries) == (true, words)
        && draws::<F>(alloc, seed, degree, tries.saturating_sub(1))
            == (false, words.saturating_sub(1))
        && draws::<F>(alloc, seed, degree, 100) == (true, words)
}

/// Draws of all degrees up to 30, with some seeds.
pub fn by_their_tries<F: Field>(alloc: Global) -> bool {
    let mut right = true;
    for seed in 0..50 {
        for degree in 0..31 {
            right = right && takes_its_tries::<F>(alloc, seed, degree);
        }
    }
    right
}
