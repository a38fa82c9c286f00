//! What is tried, and over which fields.

use crate::{drawn, orders};
use ark_base::PolyError;
use std::alloc::Global;
use std::test::Fail;
use test_types::numbered::Numbered;
use test_types::trials::{FieldTrial, Prime, over_field};

// What is tried over any field.
#[derive(Clone, Copy, Debug)]
enum Tried {
    SumsOfDraws,
    DrawsByThePolynomial,
    ProductOfAllTerms,
    TermsInEitherOrder,
}

impl FieldTrial for Tried {
    fn holds_in<F: Numbered>(&self, alloc: Global) -> Result<bool, PolyError> {
        match *self {
            Tried::SumsOfDraws => Ok(drawn::sums::<F>(alloc)),
            Tried::DrawsByThePolynomial => Ok(drawn::by_the_polynomial::<F>(alloc)),
            Tried::ProductOfAllTerms => drawn::product_of_all_terms::<F>(alloc),
            Tried::TermsInEitherOrder => Ok(orders::terms_in_either_order::<F>(alloc)),
        }
    }
}

const TRIED: [(Prime, Tried); 4] = [
    (Prime::P65537, Tried::SumsOfDraws),
    (Prime::P65537, Tried::DrawsByThePolynomial),
    (Prime::P65537, Tried::ProductOfAllTerms),
    (Prime::P5, Tried::TermsInEitherOrder),
];

#[test]
fn all_that_is_tried_holds(rt: HostRuntime) -> Result<(), Fail> {
    for (prime, tried) in TRIED {
        assert!(rt;
            over_field(rt.alloc(), prime, &tried)?,
            "{tried:?} over {prime:?}"
        );
    }
    Ok(())
}
