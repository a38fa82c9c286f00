//! What is tried, and over which fields.

use crate::extensions::{bound, drawn, exchanged, joined, sums, written};
use ark_base::PolyError;
use std::alloc::Global;
use std::test::Fail;
use test_types::numbered::Numbered;
use test_types::trials::{FieldTrial, Prime, over_field};

// What is tried over any field.
#[derive(Clone, Copy, Debug)]
enum Tried {
    BoundAtOnceAndOneAtATime,
    BothFormsOfDraws,
    /// That a dense draw of ten variables has at least so many different values.
    DenseDraws(usize),
    SparseDraws,
    SparseDrawsByTheirTries,
    WindowsExchanged,
    JoinedDraws,
    SumsOfDraws,
    MultiplesOfDraws,
    DrawsWritten,
}

impl FieldTrial for Tried {
    fn holds_in<F: Numbered>(&self, alloc: Global) -> Result<bool, PolyError> {
        Ok(match *self {
            Tried::BoundAtOnceAndOneAtATime => bound::at_once::<F>(alloc),
            Tried::BothFormsOfDraws => bound::both_forms::<F>(alloc),
            Tried::DenseDraws(different) => drawn::dense::<F>(alloc, different),
            Tried::SparseDraws => drawn::sparse::<F>(alloc),
            Tried::SparseDrawsByTheirTries => drawn::by_their_tries::<F>(alloc),
            Tried::WindowsExchanged => exchanged::windows::<F>(alloc),
            Tried::JoinedDraws => joined::draws::<F>(alloc),
            Tried::SumsOfDraws => sums::draws::<F>(alloc),
            Tried::MultiplesOfDraws => sums::multiples::<F>(alloc),
            Tried::DrawsWritten => written::draws::<F>(alloc),
        })
    }
}

const TRIED: [(Prime, Tried); 17] = [
    (Prime::P5, Tried::BoundAtOnceAndOneAtATime),
    (Prime::P65537, Tried::BoundAtOnceAndOneAtATime),
    (Prime::P65537, Tried::BothFormsOfDraws),
    (Prime::P5, Tried::DenseDraws(5)),
    (Prime::P65537, Tried::DenseDraws(1000)),
    (Prime::P5, Tried::SparseDraws),
    (Prime::P65537, Tried::SparseDraws),
    (Prime::P65537, Tried::SparseDrawsByTheirTries),
    (Prime::P5, Tried::WindowsExchanged),
    (Prime::P65537, Tried::WindowsExchanged),
    (Prime::P5, Tried::JoinedDraws),
    (Prime::P65537, Tried::JoinedDraws),
    (Prime::P5, Tried::SumsOfDraws),
    (Prime::P65537, Tried::SumsOfDraws),
    (Prime::P65537, Tried::MultiplesOfDraws),
    (Prime::P5, Tried::DrawsWritten),
    (Prime::P65537, Tried::DrawsWritten),
];

#[test]
fn all_that_is_tried_holds(rt: HostRuntime) -> Result<(), Fail> {
    for (prime, tried) in TRIED {
        assert!(rt;
            over_field(rt.alloc(), prime, &tried)?,
            "{tried:?} over {prime:?}"
        );
    }
    Ok(())
}
