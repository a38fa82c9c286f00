//! Cases of one polynomial in several forms: a law and two words, terms where the polynomial is sparse and coefficients
//! where it is dense.

use ark_poly::laws::{
    both_products, degree_of_product, dense_and_back, divisions_of_all_forms, sparse_and_back,
    values_of_all_forms, values_of_both_forms,
};
use ark_univariate::univariate::{DenseOrSparsePolynomial, DensePolynomial, SparsePolynomial};
use ark_univariate::{DenseUVPolynomial, EvaluationDomain, GeneralEvaluationDomain, Polynomial};
use std::alloc::Global;
use test_cases::answers::Answer;
use test_cases::words::{
    element, elements, joined, no_case, no_fit, size, terms_of, text_of, text_of_numbers,
    text_of_terms, told,
};
use test_types::numbered::Numbered;

// A quotient and a remainder, where there are any.
type Division<F> = Option<(DensePolynomial<F>, DensePolynomial<F>)>;

/// The answer to a law and two words.
pub fn answer<F: Numbered>(alloc: Global, words: &[String]) -> Answer {
    let [name, first, second] = words else {
        return no_case(alloc);
    };
    match name.as_str() {
        "both_products" | "degree_of_product" | "sparse_and_back" => {
            let left = DensePolynomial::from_coefficients_vec(elements::<F>(alloc, first)?);
            let right = DensePolynomial::from_coefficients_vec(elements::<F>(alloc, second)?);
            answer_of_dense(alloc, name.as_str(), &left, &right)
        }
        _ => {
            let terms = terms_of::<F>(alloc, first)?;
            let sparse = SparsePolynomial::from_coefficients_vec(alloc, terms)?;
            answer_of_sparse(alloc, name.as_str(), &sparse, second.as_str())
        }
    }
}

fn answer_of_dense<F: Numbered>(
    alloc: Global,
    name: &str,
    left: &DensePolynomial<F>,
    right: &DensePolynomial<F>,
) -> Answer {
    match name {
        "both_products" => {
            let (product, plain) = both_products(alloc, left, right)?;
            joined(
                alloc,
                text_of(alloc, product.coeffs()),
                ";",
                text_of(alloc, plain.coeffs()),
            )
        }
        "degree_of_product" => degree(alloc, left, right),
        _ => text_of(alloc, sparse_and_back(alloc, left)?.coeffs()),
    }
}

fn degree<F: Numbered>(
    alloc: Global,
    left: &DensePolynomial<F>,
    right: &DensePolynomial<F>,
) -> Answer {
    if left.is_zero() || right.is_zero() {
        return no_fit(alloc);
    }
    text_of_numbers(alloc, &[degree_of_product(alloc, left, right)? as u64])
}

fn answer_of_sparse<F: Numbered>(
    alloc: Global,
    name: &str,
    sparse: &SparsePolynomial<F>,
    word: &str,
) -> Answer {
    match name {
        "dense_and_back" => text_of_terms(alloc, dense_and_back(alloc, sparse)?.coeffs()),
        "values_of_both_forms" => values(alloc, sparse, element(word)),
        "values_of_all_forms" => match GeneralEvaluationDomain::new(size(word)) {
            Some(domain) => all_values(alloc, sparse, domain),
            None => no_fit(alloc),
        },
        "divisions_of_all_forms" => {
            let terms = terms_of::<F>(alloc, word)?;
            let divisor = SparsePolynomial::from_coefficients_vec(alloc, terms)?;
            divided(alloc, sparse, &divisor)
        }
        _ => no_case(alloc),
    }
}

// The values at a point, of the dense form and of the sparse one.
fn values<F: Numbered>(alloc: Global, sparse: &SparsePolynomial<F>, point: F) -> Answer {
    let dense = DensePolynomial::from_sparse(alloc, sparse)?;
    let (of_dense, of_sparse) = values_of_both_forms(alloc, &dense, sparse, point)?;
    Ok(format!(in alloc; "{of_dense},{of_sparse}")?)
}

// The values over a domain, of the dense form, of the sparse one and of either.
fn all_values<F: Numbered, D: EvaluationDomain<F>>(
    alloc: Global,
    sparse: &SparsePolynomial<F>,
    domain: D,
) -> Answer {
    let dense = DensePolynomial::from_sparse(alloc, sparse)?;
    let either = DenseOrSparsePolynomial::from(sparse);
    let (of_dense, of_sparse, of_either) = values_of_all_forms(
        alloc, &dense, sparse, either, domain,
    )?;
    let others = joined(
        alloc,
        text_of(alloc, of_sparse.evals()),
        ";",
        text_of(alloc, of_either.evals()),
    );
    joined(alloc, text_of(alloc, of_dense.evals()), ";", others)
}

// The quotient and the remainder by terms and by coefficients.
fn divided<F: Numbered>(
    alloc: Global,
    dividend: &SparsePolynomial<F>,
    divisor: &SparsePolynomial<F>,
) -> Answer {
    let dense = DensePolynomial::from_sparse(alloc, dividend)?;
    let by_dense = DensePolynomial::from_sparse(alloc, divisor)?;
    let (answer, other) = divisions_of_all_forms(
        alloc,
        &DenseOrSparsePolynomial::from(dividend),
        &DenseOrSparsePolynomial::from(divisor),
        &DenseOrSparsePolynomial::from(&dense),
        &DenseOrSparsePolynomial::from(&by_dense),
    )?;
    joined(
        alloc,
        text_of_division(alloc, &answer),
        "|",
        text_of_division(alloc, &other),
    )
}

// The quotient and the remainder, where there are any.
fn text_of_division<F: Numbered>(alloc: Global, division: &Division<F>) -> Answer {
    match division {
        Some((quotient, remainder)) => joined(
            alloc,
            text_of(alloc, quotient.coeffs()),
            ";",
            text_of(alloc, remainder.coeffs()),
        ),
        None => told(alloc, "none"),
    }
}
