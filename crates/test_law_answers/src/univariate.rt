//! Cases of divisions by x - z, and of values by the weights at a point.

use ark_base::PolyError;
use ark_poly::laws::{division_at_point, weighted_sum, without_root};
use ark_univariate::univariate::DensePolynomial;
use ark_univariate::{DenseUVPolynomial, EvaluationDomain, Evaluations, GeneralEvaluationDomain};
use std::alloc::Global;
use test_cases::answers::Answer;
use test_cases::words::{element, elements, joined, no_case, one, size, text_of, told};
use test_types::numbered::Numbered;

/// The answer on a dense polynomial and a point.
pub fn answer_of_dense<F: Numbered>(alloc: Global, words: &[String]) -> Answer {
    let [name, coeffs, point] = words else {
        return no_case(alloc);
    };
    let p = DensePolynomial::from_coefficients_vec(elements::<F>(alloc, coeffs.as_str())?);
    match name.as_str() {
        "divide_at" => divided_at(alloc, &p, element(point.as_str())),
        "without_root" => quotient_at_root(alloc, &p, element(point.as_str())),
        _ => no_case(alloc),
    }
}

// The quotient, the remainder and the value, with semicolons between them.
fn divided_at<F: Numbered>(alloc: Global, p: &DensePolynomial<F>, point: F) -> Answer {
    let (quotient, remainder, value) = division_at_point(alloc, p, point)?;
    let rest = joined(
        alloc,
        text_of(alloc, remainder.coeffs()),
        ";",
        one(alloc, value),
    );
    joined(alloc, text_of(alloc, quotient.coeffs()), ";", rest)
}

fn quotient_at_root<F: Numbered>(alloc: Global, p: &DensePolynomial<F>, point: F) -> Answer {
    match without_root(alloc, p, point)? {
        Some(quotient) => text_of(alloc, quotient.coeffs()),
        None => told(alloc, "none"),
    }
}

/// The answer on values over a general domain, after whose size and offset for `new_coset` they stand.
pub fn answer_of_values<F: Numbered>(alloc: Global, words: &[String]) -> Answer {
    match words {
        [num_coeffs, offset, name, values, point] if name.as_str() == "weighted_sum" => {
            let domain = GeneralEvaluationDomain::<F>::new_coset(
                size(num_coeffs.as_str()),
                element(offset.as_str()),
            );
            let domain = domain.ok_or(PolyError::NoDomain)?;
            weighted(alloc, domain, values.as_str(), element(point.as_str()))
        }
        _ => no_case(alloc),
    }
}

fn weighted<F: Numbered, D: EvaluationDomain<F>>(
    alloc: Global,
    domain: D,
    word: &str,
    point: F,
) -> Answer {
    let evals = elements(alloc, word)?;
    if evals.len() != domain.size() {
        return no_case(alloc);
    }
    let values = Evaluations::from_vec_and_domain(evals, domain);
    one(alloc, weighted_sum(alloc, &values, point)?)
}
