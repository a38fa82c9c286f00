//! What is tried, over which fields, and over which kinds of domains.

use crate::trials::{Kind, Trial, over};
use crate::{division, draws, mixed, points, products, sums, values};
use ark_base::PolyError;
use ark_univariate::EvaluationDomain;
use std::alloc::Global;
use std::test::Fail;
use test_types::numbered::Numbered;
use test_types::trials::{FieldTrial, Prime, over_field};

// What is tried over any field.
#[derive(Clone, Copy)]
enum OverField {
    DrawsByTheirTries,
    Sums,
    SumsOfBothForms,
    /// Products by polynomials of at most so many coefficients.
    Products(usize),
    ProductsOfTerms,
    LastCoefficients,
    Divisions,
    LongDivisions,
}

impl FieldTrial for OverField {
    fn holds_in<F: Numbered>(&self, alloc: Global) -> Result<bool, PolyError> {
        Ok(match *self {
            OverField::DrawsByTheirTries => draws::by_their_tries::<F>(alloc),
            OverField::Sums => sums::draws::<F>(alloc),
            OverField::SumsOfBothForms => mixed::draws::<F>(alloc),
            OverField::Products(most) => products::draws::<F>(alloc, most),
            OverField::ProductsOfTerms => products::of_terms::<F>(alloc),
            OverField::LastCoefficients => products::last_coefficients::<F>(alloc),
            OverField::Divisions => division::short_ones::<F>(alloc),
            OverField::LongDivisions => division::long_ones::<F>(alloc),
        })
    }
}

// The index of the first case that does not hold.
fn first_wrong(alloc: Global, cases: &[(Prime, OverField)]) -> Result<Option<usize>, PolyError> {
    for (i, (prime, tried)) in cases.iter().enumerate() {
        if !over_field(alloc, *prime, tried)? {
            return Ok(Some(i));
        }
    }
    Ok(None)
}

const SUMS: [(Prime, OverField); 6] = [
    (Prime::P5, OverField::DrawsByTheirTries),
    (Prime::P65537, OverField::DrawsByTheirTries),
    (Prime::P5, OverField::Sums),
    (Prime::P65537, OverField::Sums),
    (Prime::P5, OverField::SumsOfBothForms),
    (Prime::P65537, OverField::SumsOfBothForms),
];

#[test]
fn draws_and_sums(rt: HostRuntime) -> Result<(), Fail> {
    assert!(rt; first_wrong(rt.alloc(), &SUMS)? == None);
    Ok(())
}

const PRODUCTS: [(Prime, OverField); 9] = [
    (Prime::P433, OverField::Products(40)),
    (Prime::P65537, OverField::Products(70)),
    (Prime::P65537, OverField::ProductsOfTerms),
    (Prime::P65537, OverField::LastCoefficients),
    (Prime::P5, OverField::Divisions),
    (Prime::P433, OverField::Divisions),
    (Prime::P65537, OverField::Divisions),
    (Prime::P433, OverField::LongDivisions),
    (Prime::P65537, OverField::LongDivisions),
];

#[test]
fn products_and_quotients(rt: HostRuntime) -> Result<(), Fail> {
    assert!(rt; first_wrong(rt.alloc(), &PRODUCTS)? == None);
    Ok(())
}

// What is tried over domains of any field and kind.
#[derive(Clone, Copy)]
enum OverDomain<'a> {
    /// What domains of these sizes give at points of a field of so many elements.
    Points(u64, &'a [usize]),
    /// Polynomials of these lengths over cosets of these sizes and with these offsets: the domains have less room
    /// than the polynomials need, or more.
    Values(&'a [(usize, u64)], &'a [usize]),
    /// Terms of degrees up to `usize::MAX` over such cosets.
    HighTerms(&'a [(usize, u64)]),
}

impl Trial for OverDomain<'_> {
    fn holds<F: Numbered, D: EvaluationDomain<F>>(&self, alloc: Global) -> Result<bool, PolyError> {
        Ok(match *self {
            OverDomain::Points(elements, sizes) => points::of_sizes::<F, D>(alloc, elements, sizes),
            OverDomain::Values(cosets, lens) => values::of_lengths::<F, D>(alloc, cosets, lens),
            OverDomain::HighTerms(cosets) => values::of_high_terms::<F, D>(alloc, cosets),
        })
    }
}

const POWERS: OverDomain<'static> = OverDomain::Points(433, &[1, 2, 4, 8, 16]);

const SIZES: OverDomain<'static> = OverDomain::Points(
    433,
    &[
        1, 2, 3, 4, 6, 8, 9, 12, 16, 18, 24, 27, 36, 48, 54, 72, 108, 144, 216, 432,
    ],
);

const SMALL: OverDomain<'static> = OverDomain::Values(
    &[(1, 1), (2, 5), (4, 1), (6, 5), (9, 7), (16, 2), (27, 1)],
    &[0, 1, 2, 4, 8, 16, 28, 40, 70],
);

const EACH_POWER: OverDomain<'static> = OverDomain::Values(
    &[(1, 1), (2, 2), (4, 3), (8, 4), (16, 5), (32, 6), (64, 7)],
    &[0, 1, 2, 3, 5, 8, 16, 17, 31, 32, 33, 64, 70, 100],
);

const LARGE: OverDomain<'static> = OverDomain::Values(
    &[(128, 8), (256, 9), (512, 10)],
    &[0, 300, 512, 513, 800],
);

const LONGER: OverDomain<'static> = OverDomain::Values(&[(1024, 3)], &[2049]);

const HIGH: OverDomain<'static> = OverDomain::HighTerms(&[(1, 1), (16, 1), (8, 3)]);

const HIGH_THIRDS: OverDomain<'static> = OverDomain::HighTerms(&[(1, 1), (27, 7)]);

// The index of the first case that does not hold.
fn first_wrong_over(
    alloc: Global,
    cases: &[(Prime, Kind, OverDomain<'_>)],
) -> Result<Option<usize>, PolyError> {
    for (i, (prime, kind, tried)) in cases.iter().enumerate() {
        if !over(alloc, *prime, *kind, tried)? {
            return Ok(Some(i));
        }
    }
    Ok(None)
}

const AT_POINTS: [(Prime, Kind, OverDomain<'static>); 2] = [
    (Prime::P433, Kind::Radix2, POWERS),
    (Prime::P433, Kind::Mixed, SIZES),
];

#[test]
fn domains_at_points(rt: HostRuntime) -> Result<(), Fail> {
    assert!(rt; first_wrong_over(rt.alloc(), &AT_POINTS)? == None);
    Ok(())
}

const OVER_DOMAINS: [(Prime, Kind, OverDomain<'static>); 9] = [
    (Prime::P433, Kind::Mixed, SMALL),
    (Prime::P433, Kind::General, SMALL),
    (Prime::P65537, Kind::Radix2, SMALL),
    (Prime::P65537, Kind::General, EACH_POWER),
    (Prime::P65537, Kind::General, LARGE),
    (Prime::P65537, Kind::Radix2, LONGER),
    (Prime::P433, Kind::Mixed, HIGH),
    (Prime::P433, Kind::Mixed, HIGH_THIRDS),
    (Prime::P65537, Kind::Radix2, HIGH),
];

#[test]
fn values_over_domains(rt: HostRuntime) -> Result<(), Fail> {
    assert!(rt; first_wrong_over(rt.alloc(), &OVER_DOMAINS)? == None);
    Ok(())
}
