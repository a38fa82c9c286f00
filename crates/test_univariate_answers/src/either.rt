//! Cases of polynomials that are held or lent in either form: the word begins with `s` where it is sparse, and else
//! with `d`.

use crate::polynomials::{Dense, Sparse, shown_dense, shown_division, shown_sparse};
use ark_base::{Field, PolyError};
use ark_univariate::univariate::{DenseOrSparsePolynomial, DensePolynomial, SparsePolynomial};
use std::alloc::Global;
use test_cases::answers::Answer;
use test_cases::forms::Form;
use test_cases::words::{element, joined, no_case, one, text_of_flags, text_of_numbers};
use test_types::numbered::Numbered;

pub fn answer<F: Numbered>(alloc: Global, words: &[String]) -> Answer {
    let [name, word, arguments @ ..] = words else {
        return no_case(alloc);
    };
    match arguments {
        [] => answer_of_held::<F>(alloc, name.as_str(), word.as_str()),
        [lent] if name.as_str() == "borrowed" => {
            answer_of_lent::<F>(alloc, lent.as_str(), word.as_str())
        }
        [other] => answer_with_word::<F>(alloc, name.as_str(), word.as_str(), other.as_str()),
        _ => no_case(alloc),
    }
}

/// The polynomial that it holds.
pub fn held<'a, F: Numbered>(
    alloc: Global,
    word: &str,
) -> Result<DenseOrSparsePolynomial<'a, F>, PolyError> {
    match word.strip_prefix('s') {
        Some(terms) => {
            let p: SparsePolynomial<F> = Sparse.of(alloc, terms)?;
            Ok(DenseOrSparsePolynomial::from(p))
        }
        None => {
            let p: DensePolynomial<F> = Dense.of(alloc, word.trim_start_matches('d'))?;
            Ok(DenseOrSparsePolynomial::from(p))
        }
    }
}

// The answer of one that is held.
fn answer_of_held<F: Numbered>(alloc: Global, name: &str, word: &str) -> Answer {
    answer_of_one(alloc, name, &held::<F>(alloc, word)?)
}

// The answer of one that is lent.
fn answer_of_lent<F: Numbered>(alloc: Global, name: &str, word: &str) -> Answer {
    match word.strip_prefix('s') {
        Some(terms) => lent_sparse::<F>(alloc, name, terms),
        None => lent_dense::<F>(alloc, name, word.trim_start_matches('d')),
    }
}

fn lent_sparse<F: Numbered>(alloc: Global, name: &str, word: &str) -> Answer {
    let p: SparsePolynomial<F> = Sparse.of(alloc, word)?;
    answer_of_one(alloc, name, &DenseOrSparsePolynomial::from(&p))
}

fn lent_dense<F: Numbered>(alloc: Global, name: &str, word: &str) -> Answer {
    let p: DensePolynomial<F> = Dense.of(alloc, word)?;
    answer_of_one(alloc, name, &DenseOrSparsePolynomial::from(&p))
}

fn answer_of_one<F: Numbered>(
    alloc: Global,
    name: &str,
    p: &DenseOrSparsePolynomial<'_, F>,
) -> Answer {
    match name {
        "shape" => shape(alloc, p),
        "into_dense" => into_dense(alloc, p),
        "into_sparse" => into_sparse(alloc, p),
        _ => no_case(alloc),
    }
}

fn into_dense<F: Numbered>(alloc: Global, p: &DenseOrSparsePolynomial<'_, F>) -> Answer {
    shown_dense(alloc, p.clone()?.into_dense(alloc))
}

fn into_sparse<F: Numbered>(alloc: Global, p: &DenseOrSparsePolynomial<'_, F>) -> Answer {
    shown_sparse(alloc, p.clone()?.into_sparse(alloc))
}

// The degree, and whether it is zero.
fn shape<F: Field>(alloc: Global, p: &DenseOrSparsePolynomial<'_, F>) -> Answer {
    let degree = text_of_numbers(alloc, &[p.degree() as u64]);
    joined(alloc, degree, ",", text_of_flags(alloc, &[p.is_zero()]))
}

// The quotient and the remainder by another polynomial, or the value at a point.
fn answer_with_word<F: Numbered>(alloc: Global, name: &str, word: &str, other: &str) -> Answer {
    let p = held::<F>(alloc, word)?;
    match name {
        "divide" => divided(alloc, &p, other),
        "value" => value(alloc, &p, element(other)),
        _ => no_case(alloc),
    }
}

fn divided<F: Numbered>(alloc: Global, p: &DenseOrSparsePolynomial<'_, F>, word: &str) -> Answer {
    let divisor = held::<F>(alloc, word)?;
    shown_division(alloc, p.divide_with_q_and_r(alloc, &divisor))
}

fn value<F: Numbered>(alloc: Global, p: &DenseOrSparsePolynomial<'_, F>, point: F) -> Answer {
    one(alloc, p.evaluate(&point))
}
