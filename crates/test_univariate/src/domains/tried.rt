//! What is tried, over which fields and kinds of domains.

use crate::domains::{draws, traces, transforms};
use crate::trials::{Kind, Trial, over};
use ark_base::PolyError;
use ark_univariate::EvaluationDomain;
use std::alloc::Global;
use std::test::Fail;
use test_types::numbered::Numbered;
use test_types::trials::Prime;

// What is tried over domains of any field and kind.
#[derive(Clone, Copy)]
enum Tried<'a> {
    /// Against plain sums, at each of these sizes.
    PlainSums(&'a [usize]),
    /// Against plain passes.
    PlainPasses(&'a [usize]),
    /// Against their inverses.
    Composition(&'a [usize]),
    /// So many items of no size.
    Nothings(usize),
    /// The tables of the powers of roots of these orders.
    Twiddles(&'a [usize]),
    /// Samples outside a subgroup of this size.
    Samples(usize),
    /// Over cosets of this size so many items have values and coefficients with at most so many products behind them.
    FewProducts(usize, u64, (usize, usize)),
    /// Plain sums have more products behind them.
    PlainProducts(usize),
}

impl Trial for Tried<'_> {
    fn holds<F: Numbered, D: EvaluationDomain<F>>(&self, alloc: Global) -> Result<bool, PolyError> {
        match *self {
            Tried::PlainSums(sizes) => Ok(transforms::plain_sums::<F, D>(alloc, sizes)),
            Tried::PlainPasses(sizes) => Ok(transforms::plain_passes::<F, D>(alloc, sizes)),
            Tried::Composition(sizes) => Ok(transforms::compose::<F, D>(alloc, sizes)),
            Tried::Nothings(len) => transforms::of_nothings::<F, D>(alloc, len),
            Tried::Twiddles(orders) => transforms::twiddles::<F>(alloc, orders),
            Tried::Samples(size) => Ok(draws::samples::<F, D>(size)),
            Tried::FewProducts(size, count, most) => {
                Ok(traces::are_few::<F, D>(alloc, size, count, most))
            }
            Tried::PlainProducts(size) => traces::plain_sums_are_seen::<F, D>(alloc, size),
        }
    }
}

const SMALL_POWERS: [usize; 9] = [1, 2, 4, 8, 16, 32, 64, 128, 256];

const POWERS: [usize; 11] = [1, 2, 4, 8, 16, 32, 64, 128, 256, 512, 1024];

// The sizes of the field of 433 elements.
const SIZES: [usize; 20] = [
    1, 2, 3, 4, 6, 8, 9, 12, 16, 18, 24, 27, 36, 48, 54, 72, 108, 144, 216, 432,
];

const TRIED: [(Prime, Kind, Tried<'static>); 21] = [
    (Prime::P65537, Kind::Radix2, Tried::PlainSums(&POWERS)),
    (
        Prime::BabyBear,
        Kind::Radix2,
        Tried::PlainSums(&SMALL_POWERS),
    ),
    (
        Prime::KoalaBear,
        Kind::Radix2,
        Tried::PlainSums(&SMALL_POWERS),
    ),
    (
        Prime::Goldilocks,
        Kind::Radix2,
        Tried::PlainSums(&SMALL_POWERS),
    ),
    (Prime::P433, Kind::Mixed, Tried::PlainSums(&SIZES)),
    (Prime::P433, Kind::General, Tried::PlainSums(&SIZES)),
    (Prime::P65537, Kind::Radix2, Tried::PlainPasses(&POWERS)),
    (Prime::P65537, Kind::General, Tried::Composition(&POWERS)),
    (Prime::P433, Kind::General, Tried::Composition(&SIZES)),
    (Prime::P433, Kind::Mixed, Tried::Composition(&SIZES)),
    (Prime::P5, Kind::Radix2, Tried::Nothings(0)),
    (Prime::P5, Kind::Radix2, Tried::Nothings(1)),
    (Prime::P5, Kind::Radix2, Tried::Nothings(4)),
    (Prime::P5, Kind::Radix2, Tried::Nothings(70000)),
    (Prime::P65537, Kind::Radix2, Tried::Twiddles(&POWERS)),
    // Four of the five elements are in the domain, so many first draws are.
    (Prime::P5, Kind::Radix2, Tried::Samples(4)),
    (Prime::P65537, Kind::General, Tried::Samples(32768)),
    (
        Prime::P65537,
        Kind::Radix2,
        Tried::FewProducts(64, 64, (256, 256)),
    ),
    (
        Prime::P65537,
        Kind::Radix2,
        Tried::FewProducts(64, 16, (192, 256)),
    ),
    (
        Prime::P433,
        Kind::Mixed,
        Tried::FewProducts(27, 27, (243, 243)),
    ),
    (Prime::P65537, Kind::Radix2, Tried::PlainProducts(64)),
];

#[test]
fn all_that_is_tried_holds(rt: HostRuntime) -> Result<(), Fail> {
    for (case, (prime, kind, tried)) in TRIED.iter().enumerate() {
        assert!(rt; over(rt.alloc(), *prime, *kind, tried)?, "case {case}");
    }
    Ok(())
}
