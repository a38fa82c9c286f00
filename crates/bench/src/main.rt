//! Times the calls that take long. With no argument each is made once and its checksum printed; with `time` each is
//! made in batches, and the nanoseconds of a call are printed.
//!
//! All but `main` is generic over the field, since what names a domain over a concrete one is dear to check.
#![tactic(auto)]

mod at_points;
mod batches;
mod bytes;
mod codes;
mod draws;
mod elements;
mod pieces;
mod points;
mod polynomials;
mod sums;
mod transforms;

use ark_base::{CanonicalSerialize, Compress, DomainCoeff, Field, Polynomial};
use ark_extension_fields::{BabyBear4, Goldilocks2};
use ark_extensions::ExtensionOf;
use ark_fields::{BabyBear, F433, F65537, Goldilocks, KoalaBear};
use ark_poly::univariate::{DensePolynomial, SparsePolynomial};
use ark_poly::{
    DenseMultilinearExtension, DenseUVPolynomial, EvaluationDomain, MixedRadixEvaluationDomain,
    MultilinearExtension, Radix2EvaluationDomain, SparseMultilinearExtension,
};
use ark_prime256::Bls12_381Scalar;
use at_points::{report_at_points, report_shares};
use batches::{Counted, Number, Reporter};
use bytes::{ReadBack, Written};
use codes::{report_codes, report_rows_in_place};
use draws::Draws;
use elements::{Operation, report_elements};
use pieces::report_pieces;
use points::{BoundTable, VARIABLES, ValueAtPoint, ValueOfBaseTable, polynomial_of_terms};
use polynomials::{
    Interpolation, LongDivision, NaiveProduct, OfTwo, Quotients, SparseProduct, Value, Way,
};
use shards_format::StripeCode;
use shards_lib::FileCode;
use std::alloc::AllocGlobal;
use std::env;
use std::io::Print;
use std::time::Clock;
use sums::{RowsBelow, TABLE_VARIABLES, TwoFactors, TwoFactorsBelow};
use transforms::{Call, OverDomain};

fn main(rt: HostRuntime) -> anyhow::Result<()> {
    let timed = match env::args(&rt)?.nth(1) {
        Some(word) => word.as_str() == "time",
        None => false,
    };
    let reporter = Reporter {
        rt: &rt,
        alloc: rt.alloc(),
        timed,
    };
    report_all::<F65537, F433, BabyBear, KoalaBear, Goldilocks, FileCode, HostRuntime>(&reporter)?;
    report_wide_field::<Bls12_381Scalar, HostRuntime>(&reporter)?;
    report_extension_field::<BabyBear, BabyBear4, HostRuntime>(
        &reporter,
        "baby_bear_products",
        [
            "baby_bear4_sums",
            "baby_bear4_products",
            "baby_bear4_inverses",
            "baby_bear4_fft_in_place",
            "baby_bear4_mle_evaluate",
            "baby_bear4_sum_check_two_factors",
        ],
    )?;
    let names = ["baby_bear4_mle_dense_evaluate", "baby_bear4_sum_check_rows"];
    report_rows_below::<BabyBear, BabyBear4, HostRuntime>(&reporter, names)?;
    let names = ["goldilocks_products", "goldilocks2_products"];
    report_products::<Goldilocks, Goldilocks2, HostRuntime>(&reporter, names)
}

// Everything, over a field with 2^16 units, one with mixed domains, and three with large domains; and the pieces of
// files by a code.
fn report_all<
    F: Counted,
    M: Counted,
    B: Counted,
    K: Counted,
    G: Counted,
    C: StripeCode,
    R: Print + Clock,
>(reporter: &Reporter<'_, R>) -> anyhow::Result<()> {
    let mut draws = Draws::new();
    let names = ["radix2_fft_in_place", "radix2_ifft_in_place"];
    let sizes = [1 << 10, 1 << 12, 1 << 14, 1 << 16];
    report_radix2::<F, R>(reporter, &mut draws, names, &sizes)?;
    report_mixed_radix::<M, R>(reporter, &mut draws)?;
    report_polynomials::<F, R>(reporter, &mut draws)?;
    report_at_points::<F, R>(reporter, ["evaluate_at", "from_points"])?;
    report_shares::<F, R>(reporter)?;
    report_codes::<F, R>(reporter)?;
    let names = ["baby_bear_fft_in_place", "baby_bear_ifft_in_place"];
    report_radix2::<B, R>(reporter, &mut draws, names, &[1 << 12])?;
    report_large_field::<B, R>(reporter, names)?;
    let names = ["baby_bear_evaluate_at", "baby_bear_from_points"];
    report_at_points::<B, R>(reporter, names)?;
    let names = ["koala_bear_fft_in_place", "koala_bear_ifft_in_place"];
    report_large_field::<K, R>(reporter, names)?;
    let names = ["goldilocks_fft_in_place", "goldilocks_ifft_in_place"];
    report_large_field::<G, R>(reporter, names)?;
    if reporter.timed {
        report_pieces::<C, R>(reporter)?;
        // How the time grows with the size.
        let names = ["growth_fft_in_place", "growth_ifft_in_place"];
        let sizes = [1 << 16, 1 << 18, 1 << 20, 1 << 22];
        report_radix2::<B, R>(reporter, &mut draws, names, &sizes)?;
    }
    Ok(())
}

fn report_radix2<F: Counted, R: Print + Clock>(
    reporter: &Reporter<'_, R>,
    draws: &mut Draws,
    names: [&'static str; 2],
    sizes: &[usize],
) -> anyhow::Result<()> {
    for size in sizes {
        if let Some(domain) = Radix2EvaluationDomain::<F>::new(*size) {
            report_both_ways(reporter, draws, names, domain)?;
        }
    }
    Ok(())
}

// A field with large domains, on draws of its own.
fn report_large_field<F: Counted, R: Print + Clock>(
    reporter: &Reporter<'_, R>,
    names: [&'static str; 2],
) -> anyhow::Result<()> {
    let mut draws = Draws::new();
    report_radix2::<F, R>(reporter, &mut draws, names, &[1 << 16, 1 << 20])
}

// The value of a table of an extension at a point, and all rounds of a sum of products of four tables below it.
fn report_rows_below<F: Field, E: ExtensionOf<F> + Number, R: Print + Clock>(
    reporter: &Reporter<'_, R>,
    [evaluate, rows]: [&'static str; 2],
) -> anyhow::Result<()> {
    let alloc = reporter.alloc;
    let mut draws = Draws::new();
    let table = draws.random_list::<E>(alloc, 1 << TABLE_VARIABLES)?;
    if table.len() == 1 << TABLE_VARIABLES {
        let mut value = ValueAtPoint {
            polynomial: DenseMultilinearExtension::from_evaluations_vec(TABLE_VARIABLES, table),
            point: draws.random_list::<E>(alloc, TABLE_VARIABLES)?,
        };
        reporter.report(evaluate, TABLE_VARIABLES, &mut value)?;
    }
    let mut tables = Vec::with_capacity(alloc, 4)?;
    for _ in 0..4u32 {
        tables.push(draws.random_list::<F>(alloc, 1 << TABLE_VARIABLES)?)?;
    }
    let last = E::zero();
    reporter.report(
        rows,
        TABLE_VARIABLES,
        &mut RowsBelow::<F, E> { tables, last },
    )
}

// Products of elements below an extension; of its own sums, products, inverses, a transform over a domain of elements
// below, and of tables of these a value at a point and a sum-check.
fn report_extension_field<
    F: Counted,
    E: ExtensionOf<F> + DomainCoeff<F> + Number,
    R: Print + Clock,
>(reporter: &Reporter<'_, R>, below: &'static str, names: [&'static str; 6]) -> anyhow::Result<()> {
    let [sums, products, inverses, transform, evaluate, sum_check] = names;
    let alloc = reporter.alloc;
    let mut draws = Draws::new();
    let left = draws.list::<F>(alloc, 1 << 10)?;
    let right = draws.list::<F>(alloc, 1 << 10)?;
    report_elements(reporter, (below, Operation::Product), left, right)?;
    for (name, operation, count) in [
        (sums, Operation::Sum, 1 << 10),
        (products, Operation::Product, 1 << 10),
        (inverses, Operation::Inverse, 1 << 4),
    ] {
        let left = draws.random_list::<E>(alloc, count)?;
        let right = draws.random_list::<E>(alloc, count)?;
        report_elements(reporter, (name, operation), left, right)?;
    }
    let items = draws.random_list::<E>(alloc, 1 << 16)?;
    report_rows_in_place::<F, E, R>(reporter, transform, items)?;
    let mut value = ValueOfBaseTable::<F, E> {
        table: draws.list(alloc, 1 << 16)?,
        point: draws.random_list(alloc, 16)?,
    };
    reporter.report(evaluate, 16, &mut value)?;
    let mut factors = TwoFactorsBelow::<F, E> {
        left: draws.list(alloc, 1 << TABLE_VARIABLES)?,
        right: draws.list(alloc, 1 << TABLE_VARIABLES)?,
        last: E::zero(),
    };
    reporter.report(sum_check, TABLE_VARIABLES, &mut factors)
}

// Products of elements below an extension, and of its own.
fn report_products<F: Counted, E: ExtensionOf<F> + Number, R: Print + Clock>(
    reporter: &Reporter<'_, R>,
    [below, products]: [&'static str; 2],
) -> anyhow::Result<()> {
    let alloc = reporter.alloc;
    let mut draws = Draws::new();
    let left = draws.list::<F>(alloc, 1 << 10)?;
    let right = draws.list::<F>(alloc, 1 << 10)?;
    report_elements(reporter, (below, Operation::Product), left, right)?;
    let left = draws.random_list::<E>(alloc, 1 << 10)?;
    let right = draws.random_list::<E>(alloc, 1 << 10)?;
    report_elements(reporter, (products, Operation::Product), left, right)
}

// A field of several words.
fn report_wide_field<F: Counted, R: Print + Clock>(
    reporter: &Reporter<'_, R>,
) -> anyhow::Result<()> {
    let mut draws = Draws::new();
    for (name, operation, count) in [
        ("bls12_381_sums", Operation::Sum, 1 << 10),
        ("bls12_381_differences", Operation::Difference, 1 << 10),
        ("bls12_381_products", Operation::Product, 1 << 10),
        ("bls12_381_inverses", Operation::Inverse, 1 << 4),
    ] {
        let left = draws.list::<F>(reporter.alloc, count)?;
        let right = draws.list::<F>(reporter.alloc, count)?;
        report_elements(reporter, (name, operation), left, right)?;
    }
    let mut draws = Draws::new();
    let names = ["bls12_381_fft_in_place", "bls12_381_ifft_in_place"];
    report_radix2::<F, R>(reporter, &mut draws, names, &[1 << 12])?;
    if reporter.timed {
        report_radix2::<F, R>(reporter, &mut draws, names, &[1 << 16, 1 << 20])?;
        let name = (Way::Transforms, "bls12_381_dense_mul");
        report_of_two::<F, R>(reporter, &mut draws, name, (1 << 15, 1 << 15))?;
    }
    Ok(())
}

fn report_mixed_radix<F: Counted, R: Print + Clock>(
    reporter: &Reporter<'_, R>,
    draws: &mut Draws,
) -> anyhow::Result<()> {
    for size in [432, 216, 27] {
        if let Some(domain) = MixedRadixEvaluationDomain::<F>::new(size) {
            let names = ["mixed_fft_in_place", "mixed_ifft_in_place"];
            report_both_ways(reporter, draws, names, domain)?;
        }
    }
    Ok(())
}

// A transform and an inverse one, under these names.
fn report_both_ways<F: Counted, D: EvaluationDomain<F>, R: Print + Clock>(
    reporter: &Reporter<'_, R>,
    draws: &mut Draws,
    names: [&'static str; 2],
    domain: D,
) -> anyhow::Result<()> {
    let [forward, inverse] = names;
    for (name, call) in [(forward, Call::Forward), (inverse, Call::Inverse)] {
        report_in_place(reporter, draws, name, domain, call)?;
    }
    Ok(())
}

fn report_in_place<F: Counted, D: EvaluationDomain<F>, R: Print + Clock>(
    reporter: &Reporter<'_, R>,
    draws: &mut Draws,
    name: &'static str,
    domain: D,
    call: Call,
) -> anyhow::Result<()> {
    let alloc = reporter.alloc;
    let mut transforms = OverDomain {
        domain,
        call,
        point: F::zero(),
        items: Vec::new(alloc),
        values: draws.list(alloc, domain.size())?,
    };
    reporter.report(name, domain.size(), &mut transforms)
}

fn report_polynomials<F: Counted, R: Print + Clock>(
    reporter: &Reporter<'_, R>,
    draws: &mut Draws,
) -> anyhow::Result<()> {
    // Over 2^16 elements, which are all but zero of the field that it is called with.
    let Some(domain) = Radix2EvaluationDomain::<F>::new(1 << 16) else {
        return Ok(());
    };
    report_over_domain(reporter, draws, domain)?;
    report_dense::<F, R>(reporter, draws)?;
    report_values(reporter, draws, domain)?;
    report_sparse::<F, R>(reporter, draws)?;
    report_division::<F, R>(reporter, draws)?;
    report_by_passes::<F, R>(reporter, draws)?;
    report_by_terms::<F, R>(reporter, draws)?;
    report_several_variables::<F, R>(reporter, draws)?;
    report_bytes::<F, R>(reporter)
}

fn report_over_domain<F: Counted, D: EvaluationDomain<F>, R: Print + Clock>(
    reporter: &Reporter<'_, R>,
    draws: &mut Draws,
    domain: D,
) -> anyhow::Result<()> {
    let alloc = reporter.alloc;
    if let Some(coset) = domain.get_coset(F::GENERATOR) {
        let name = "coset_fft_in_place";
        report_in_place(reporter, draws, name, coset, Call::Forward)?;
    }
    let last = domain.element((1 << 16) - 1);
    for (name, call, len, at_last) in [
        ("degree_aware_fft_1024_over", Call::Short, 1 << 10, false),
        ("lagrange_all", Call::Weights, 0, false),
        ("lagrange_all_at_last_element", Call::Weights, 0, true),
    ] {
        let mut calls = OverDomain {
            domain,
            call,
            point: if at_last { last } else { F::zero() },
            items: draws.list(alloc, len)?,
            values: Vec::new(alloc),
        };
        reporter.report(name, domain.size(), &mut calls)?;
    }
    Ok(())
}

// What is made of two dense polynomials of these lengths.
fn report_of_two<F: Counted, R: Print + Clock>(
    reporter: &Reporter<'_, R>,
    draws: &mut Draws,
    (way, name): (Way, &'static str),
    (left, right): (usize, usize),
) -> anyhow::Result<()> {
    let alloc = reporter.alloc;
    let mut of_two = OfTwo::<F> {
        way,
        left: draws.dense(alloc, left)?,
        right: draws.dense(alloc, right)?,
        answer: DensePolynomial::zero(alloc)?,
    };
    reporter.report(name, left, &mut of_two)
}

fn report_naive_product<F: Counted, R: Print + Clock>(
    reporter: &Reporter<'_, R>,
    draws: &mut Draws,
) -> anyhow::Result<()> {
    let alloc = reporter.alloc;
    let mut product = NaiveProduct::<F> {
        left: draws.dense(alloc, 1 << 10)?,
        right: draws.dense(alloc, 1 << 10)?,
        product: DensePolynomial::zero(alloc)?,
    };
    reporter.report("naive_mul", 1 << 10, &mut product)
}

fn report_dense<F: Counted, R: Print + Clock>(
    reporter: &Reporter<'_, R>,
    draws: &mut Draws,
) -> anyhow::Result<()> {
    report_naive_product::<F, R>(reporter, draws)?;
    for len in [1 << 13, (1 << 15) - 1] {
        let name = (Way::Transforms, "dense_mul");
        report_of_two::<F, R>(reporter, draws, name, (len, len))?;
    }
    let mut value = Value::<F> {
        polynomial: draws.dense(reporter.alloc, 1 << 16)?,
        point: draws.element(),
    };
    reporter.report("dense_evaluate", 1 << 16, &mut value)
}

fn report_values<F: Counted, D: EvaluationDomain<F>, R: Print + Clock>(
    reporter: &Reporter<'_, R>,
    draws: &mut Draws,
    domain: D,
) -> anyhow::Result<()> {
    let alloc = reporter.alloc;
    let polynomial = draws.dense::<F>(alloc, domain.size())?;
    let values = polynomial.evaluate_over_domain(alloc, domain)?;
    let mut interpolation = Interpolation {
        values: values.clone()?,
        polynomial: DensePolynomial::zero(alloc)?,
    };
    reporter.report("interpolate", domain.size(), &mut interpolation)?;
    let mut quotients = Quotients {
        divisors: values.mul(alloc, &values)?,
        quotients: values,
    };
    reporter.report("evaluations_div", domain.size(), &mut quotients)
}

fn report_sparse<F: Counted, R: Print + Clock>(
    reporter: &Reporter<'_, R>,
    draws: &mut Draws,
) -> anyhow::Result<()> {
    let alloc = reporter.alloc;
    let mut product = SparseProduct::<F> {
        left: SparsePolynomial::from_coefficients_vec(alloc, draws.terms(alloc, 1 << 10)?)?,
        right: SparsePolynomial::from_coefficients_vec(alloc, draws.terms(alloc, 1 << 10)?)?,
        product: SparsePolynomial::zero(alloc)?,
    };
    reporter.report("sparse_mul", 1 << 10, &mut product)
}

// A dividend of twice the divisor's length, through transforms.
fn report_division<F: Counted, R: Print + Clock>(
    reporter: &Reporter<'_, R>,
    draws: &mut Draws,
) -> anyhow::Result<()> {
    let name = (Way::Remainder, "divide_by_transforms");
    report_of_two::<F, R>(reporter, draws, name, (1 << 12, 1 << 11))
}

// Such a division without transforms.
fn report_by_passes<F: Counted, R: Print + Clock>(
    reporter: &Reporter<'_, R>,
    draws: &mut Draws,
) -> anyhow::Result<()> {
    let alloc = reporter.alloc;
    let mut division = LongDivision::<F> {
        dividend: draws.dense(alloc, 1 << 12)?.into(),
        divisor: draws.dense(alloc, 1 << 11)?.into(),
        remainder: DensePolynomial::zero(alloc)?,
    };
    let name = "divide_with_q_and_r_by_2048";
    reporter.report(name, 1 << 12, &mut division)
}

// By a sparse divisor, of a degree between 9 * 1,024 and 10 * 1,024.
fn report_by_terms<F: Counted, R: Print + Clock>(
    reporter: &Reporter<'_, R>,
    draws: &mut Draws,
) -> anyhow::Result<()> {
    let alloc = reporter.alloc;
    let mut division = LongDivision::<F> {
        dividend: draws.dense(alloc, 1 << 14)?.into(),
        divisor: SparsePolynomial::from_coefficients_vec(alloc, draws.terms(alloc, 10)?)?.into(),
        remainder: DensePolynomial::zero(alloc)?,
    };
    let name = "divide_with_q_and_r_by_ten_terms";
    reporter.report(name, 1 << 14, &mut division)
}

fn report_several_variables<F: Field + Number, R: Print + Clock>(
    reporter: &Reporter<'_, R>,
    draws: &mut Draws,
) -> anyhow::Result<()> {
    let mut value = ValueAtPoint {
        polynomial: polynomial_of_terms::<F>(reporter.alloc, draws, 1000)?,
        point: draws.list(reporter.alloc, VARIABLES)?,
    };
    reporter.report("multivariate_evaluate_5_vars", 1000, &mut value)?;
    let dense = ("mle_dense_evaluate", 16);
    report_extension::<F, DenseMultilinearExtension<F>, R>(reporter, draws, dense)?;
    let sparse = ("mle_sparse_evaluate_16_vars", 1 << 8);
    report_extension::<F, SparseMultilinearExtension<F>, R>(reporter, draws, sparse)?;
    report_bound_table::<F, R>(reporter, draws)?;
    report_sum_check::<F, R>(reporter)
}

// The value at a point of an extension of sixteen variables, under this name and size.
fn report_extension<F: Field + Number, E: MultilinearExtension<F>, R: Print + Clock>(
    reporter: &Reporter<'_, R>,
    draws: &mut Draws,
    (name, size): (&'static str, usize),
) -> anyhow::Result<()> {
    let Some(polynomial) = draws.extension::<F, E>(reporter.alloc, 16)? else {
        return Ok(());
    };
    let point = draws.list(reporter.alloc, 16)?;
    let mut value = ValueAtPoint { polynomial, point };
    reporter.report(name, size, &mut value)
}

// A dense table with half of its variables bound.
fn report_bound_table<F: Field + Number, R: Print + Clock>(
    reporter: &Reporter<'_, R>,
    draws: &mut Draws,
) -> anyhow::Result<()> {
    let alloc = reporter.alloc;
    let Some(extension) = draws.extension::<F, DenseMultilinearExtension<F>>(alloc, 20)? else {
        return Ok(());
    };
    let point = draws.list(alloc, 10)?;
    let mut bound = BoundTable { extension, point };
    reporter.report("mle_dense_fix_10_of_20_vars", 20, &mut bound)
}

// All rounds of a sum-check of two dense tables, whose values are the first draws.
fn report_sum_check<F: Field + Number, R: Print + Clock>(
    reporter: &Reporter<'_, R>,
) -> anyhow::Result<()> {
    let alloc = reporter.alloc;
    let mut draws = Draws::new();
    let mut factors = TwoFactors::<F> {
        left: draws.list(alloc, 1 << TABLE_VARIABLES)?,
        right: draws.list(alloc, 1 << TABLE_VARIABLES)?,
    };
    let name = "sum_check_two_factors";
    reporter.report(name, TABLE_VARIABLES, &mut factors)
}

// A dense polynomial written, and the bytes read back. Its coefficients are the first draws, whatever was drawn before.
fn report_bytes<F: Field + Number, R: Print + Clock>(
    reporter: &Reporter<'_, R>,
) -> anyhow::Result<()> {
    let alloc = reporter.alloc;
    let polynomial = Draws::new().dense::<F>(alloc, 1 << 16)?;
    let room = polynomial.serialized_size(Compress::Yes).unwrap_or(0);
    let mut written = Written {
        polynomial,
        bytes: Vec::with_capacity(alloc, room)?,
    };
    reporter.report("dense_write", 1 << 16, &mut written)?;
    let mut read = ReadBack::<F> {
        bytes: written.bytes,
        polynomial: DensePolynomial::zero(alloc)?,
    };
    reporter.report("dense_read", 1 << 16, &mut read)
}
