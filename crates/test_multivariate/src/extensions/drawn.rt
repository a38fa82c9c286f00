//! What drawn extensions look like, and how much is drawn for them.

use crate::extensions::forms::{TRIES, drawn};
use ark_base::Field;
use ark_multi::multilinear::{
    DenseMultilinearExtension, MultilinearExtension, SparseMultilinearExtension,
};
use rand_core::Rng;
use rand_pcg::Pcg64;
use std::alloc::Global;
use std::collections::HashSet;
use test_types::counting::Counting;

// How many different values a dense draw has, where a word was taken for each value.
fn different_values<F: Field>(alloc: Global, num_vars: usize) -> Option<usize> {
    let mut rng = Counting::new(Pcg64::new(48, 1));
    if num_vars >= 64 {
        return None;
    }
    let p: DenseMultilinearExtension<F> = DenseMultilinearExtension::rand(
        alloc, num_vars, &mut rng, 0,
    ).ok()??;
    let mut values = p.to_evaluations(alloc).ok()?;
    if rng.draws != values.len() as u64 || values.len() != 1 << num_vars {
        return None;
    }
    values.sort_unstable();
    values.dedup();
    Some(values.len())
}

/// Whether a dense draw takes a word for each value, and one of ten variables has at least so many different ones.
pub fn dense<F: Field>(alloc: Global, different: usize) -> bool {
    let mut right = different_values::<F>(alloc, 10) >= Some(different);
    for num_vars in 0..8 {
        right = right && different_values::<F>(alloc, num_vars).is_some();
    }
    right
}

/// A sparse draw of so many entries with so many tries, where the table has room for them.
pub fn drawn_with<F: Field, R: Rng>(
    alloc: Global,
    rng: &mut R,
    (num_vars, entries): (usize, usize),
    tries: usize,
) -> Option<SparseMultilinearExtension<F>> {
    if num_vars >= 64 || entries > 1 << num_vars {
        return None;
    }
    SparseMultilinearExtension::rand_with_config(alloc, num_vars, entries, rng, tries).ok()?
}

// Whether there is a draw, and it has at least and at most so many entries, in both halves of the table.
fn has_entries<F: Field>(
    p: Option<SparseMultilinearExtension<F>>,
    num_vars: usize,
    (at_least, at_most): (usize, usize),
) -> bool {
    let Some(p) = p else {
        return false;
    };
    let (mut least, mut greatest, mut count) = (usize::MAX, 0, 0_usize);
    for (index, _) in p.iter() {
        least = least.min(*index);
        greatest = greatest.max(*index);
        count = count.saturating_add(1);
    }
    let half = (1_usize << num_vars.min(63)) / 2;
    let in_both_halves = at_most < 8 || (least < half && half <= greatest);
    p.num_vars() == num_vars && at_least <= count && count <= at_most && in_both_halves
}

const ENTRIES: [(usize, usize); 11] = [
    (0, 0),
    (0, 1),
    (1, 2),
    (2, 4),
    (4, 5),
    (6, 0),
    (6, 10),
    (6, 64),
    (10, 100),
    (40, 50),
    (63, 40),
];

// About the root of the table.
const ROOTS: [(usize, usize); 8] = [
    (0, 1),
    (1, 1),
    (2, 2),
    (3, 2),
    (4, 4),
    (9, 16),
    (16, 256),
    (20, 1024),
];

/// Sparse draws of so many entries, and those that are left to their form. A value that is drawn as zero isn't stored:
/// about one in five over the field of five elements, and one at most over large ones.
pub fn sparse<F: Field>(alloc: Global) -> bool {
    let mut rng = Pcg64::new(55, 1);
    let is_small = F::from(5).is_zero();
    let mut right = true;
    for (num_vars, entries) in ENTRIES {
        let p = drawn_with::<F, Pcg64>(alloc, &mut rng, (num_vars, entries), TRIES);
        let at_least = if is_small {
            entries / 3
        } else {
            entries.saturating_sub(1)
        };
        right = right && has_entries(p, num_vars, (at_least, entries));
    }
    for (num_vars, most) in ROOTS {
        let p = drawn::<F, SparseMultilinearExtension<F>>(alloc, &mut rng, num_vars);
        right = right && has_entries(p, num_vars, (most / 3, most));
    }
    right
}

// How many tries a new index takes.
fn tries_for_new(
    rng: &mut Counting<Pcg64>,
    taken: &mut HashSet<u64>,
    num_vars: usize,
) -> Option<usize> {
    for tries in 1..=TRIES {
        if taken.insert(rng.next_u64() % (1 << num_vars.min(63))).ok()? {
            return Some(tries);
        }
    }
    None
}

// The words of a generator that so many entries take, each an index that is new and a value, and the greatest number of
// tries that an index takes.
fn words_taken<F: Field>(
    alloc: Global,
    seed: u64,
    (num_vars, entries): (usize, usize),
) -> Option<(u64, usize)> {
    let mut rng = Counting::new(Pcg64::new(u128::from(seed), 1));
    let mut taken = HashSet::new(alloc);
    let mut most = 0;
    for _ in 0..entries {
        let tries = tries_for_new(&mut rng, &mut taken, num_vars)?;
        most = most.max(tries);
        F::rand(&mut rng);
    }
    Some((rng.draws, most))
}

// Whether with so many tries one is drawn, and how many words are taken.
fn draws<F: Field>(alloc: Global, seed: u64, shape: (usize, usize), tries: usize) -> (bool, u64) {
    let mut rng = Counting::new(Pcg64::new(u128::from(seed), 1));
    let comes = drawn_with::<F, _>(alloc, &mut rng, shape, tries).is_some();
    (comes, rng.draws)
}

// Whether just so many tries suffice for a draw that takes just so many words, and one less does not.
fn takes_tries<F: Field>(alloc: Global, seed: u64, shape: (usize, usize)) -> bool {
    let Some((words, tries)) = words_taken::<F>(alloc, seed, shape) else {
        return false;
    };
    let (comes, fewer) = draws::<F>(alloc, seed, shape, tries.saturating_sub(1));
    draws::<F>(alloc, seed, shape, tries) == (true, words) && !comes && fewer < words
}

/// Sparse draws of some shapes with some seeds. Without tries nothing is drawn but one of no entries.
pub fn by_their_tries<F: Field>(alloc: Global) -> bool {
    let mut right = draws::<F>(alloc, 50, (2, 0), 0) == (true, 0)
        && draws::<F>(alloc, 50, (2, 4), 0) == (false, 0);
    for seed in 0..20 {
        for shape in [(0, 1), (1, 2), (2, 4), (5, 32), (8, 20)] {
            right = right && takes_tries::<F>(alloc, seed, shape);
        }
    }
    right
}
