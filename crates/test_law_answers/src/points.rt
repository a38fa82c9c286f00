//! Cases of values at points of a caller's own: a call and its arguments, polynomials by their coefficients. In place
//! of the numbers of a list may stand the first and the end of a run, with a `~` between them.

use ark_base::PolyError;
use ark_points::{
    PointsError, divide_by_linear, evaluate_at, first_parts, from_points, naive_evaluate_at,
    naive_from_points, paired, points_and_back, values_and_back, weights_at,
};
use ark_univariate::DenseUVPolynomial;
use ark_univariate::univariate::DensePolynomial;
use std::alloc::{AllocError, Global};
use test_cases::answers::Answer;
use test_cases::words::{element, elements, joined, no_case, no_fit, number, one, text_of};
use test_types::numbered::Numbered;

/// The answer to a call and two lists, or a list and a number.
pub fn answer<F: Numbered>(alloc: Global, words: &[String]) -> Answer {
    let [name, first, second] = words else {
        return no_case(alloc);
    };
    let list = run_or_list::<F>(alloc, first.as_str())?;
    match name.as_str() {
        "divide_by_linear" => divided(alloc, list, element(second.as_str())),
        "weights_at" => {
            text_of_outcome(alloc, weights_at(alloc, &list, element(second.as_str())))
        }
        _ => answer_of_two(
            alloc,
            name.as_str(),
            list,
            &run_or_list(alloc, second.as_str())?,
        ),
    }
}

// The answer to a call with a polynomial and points, or with points and values.
fn answer_of_two<F: Numbered>(alloc: Global, name: &str, list: Vec<F>, other: &[F]) -> Answer {
    match name {
        "evaluate_at" | "naive_evaluate_at" | "values_and_back" => {
            let p = DensePolynomial::from_coefficients_vec(list);
            at_points(alloc, name, &p, other)
        }
        _ if list.len() != other.len() => no_fit(alloc),
        _ => of_pairs(alloc, name, &paired(alloc, &list, other)?),
    }
}

fn at_points<F: Numbered>(
    alloc: Global,
    name: &str,
    p: &DensePolynomial<F>,
    points: &[F],
) -> Answer {
    match name {
        "evaluate_at" => text_of(alloc, &evaluate_at(alloc, p, points)?),
        "naive_evaluate_at" => text_of(alloc, &naive_evaluate_at(alloc, p, points)?),
        _ if p.coeffs().len() > points.len() => no_fit(alloc),
        _ => text_of_polynomial(alloc, values_and_back(alloc, p, points)),
    }
}

fn of_pairs<F: Numbered>(alloc: Global, name: &str, pairs: &[(F, F)]) -> Answer {
    match name {
        "from_points" => text_of_polynomial(alloc, from_points(alloc, pairs)),
        "naive_from_points" => text_of_polynomial(alloc, naive_from_points(alloc, pairs)),
        "points_and_back" => text_of_outcome(alloc, points_and_back(alloc, pairs)),
        "first_parts" => text_of(alloc, &first_parts(alloc, pairs)?),
        _ => no_case(alloc),
    }
}

// The quotient by x - z, and the value at z.
fn divided<F: Numbered>(alloc: Global, coeffs: Vec<F>, point: F) -> Answer {
    let p = DensePolynomial::from_coefficients_vec(coeffs);
    let (quotient, value) = divide_by_linear(alloc, &p, point)?;
    joined(
        alloc,
        text_of(alloc, quotient.coeffs()),
        ";",
        one(alloc, value),
    )
}

// The elements of a run, or those whose numbers stand between commas.
fn run_or_list<F: Numbered>(alloc: Global, word: &str) -> Result<Vec<F>, AllocError> {
    let Some((first, end)) = word.split_once('~') else {
        return elements(alloc, word);
    };
    let mut run = Vec::new(alloc);
    for k in number(first)..number(end) {
        run.push(F::of_number(k))?;
    }
    Ok(run)
}

fn text_of_polynomial<F: Numbered>(
    alloc: Global,
    outcome: Result<DensePolynomial<F>, PointsError>,
) -> Answer {
    match outcome {
        Ok(p) => text_of(alloc, p.coeffs()),
        Err(error) => refused(alloc, error),
    }
}

fn text_of_outcome<F: Numbered>(alloc: Global, outcome: Result<Vec<F>, PointsError>) -> Answer {
    match outcome {
        Ok(values) => text_of(alloc, &values),
        Err(error) => refused(alloc, error),
    }
}

// The refusal of memory, or the number and the name of another.
fn refused(alloc: Global, error: PointsError) -> Answer {
    match error {
        PointsError::Memory => Err(PolyError::Memory),
        other => Ok(format!(in alloc; "error {}: {other}", other as u32)?),
    }
}
