//! Cases of polynomials in one variable: the dense ones spelled by their coefficients, the sparse ones by their terms.

use ark_base::PolyError;
use ark_univariate::univariate::{DensePolynomial, SparsePolynomial};
use ark_univariate::{DenseUVPolynomial, Polynomial};
use std::alloc::Global;
use test_cases::answers::Answer;
use test_cases::forms::{self, Form};
use test_cases::words::{
    element, elements, joined, no_case, terms_of, text_of, text_of_terms, told,
};
use test_types::numbered::Numbered;

/// Dense polynomials by their coefficients.
pub struct Dense;

impl<F: Numbered> Form<F, DensePolynomial<F>> for Dense {
    fn of(&self, alloc: Global, word: &str) -> Result<DensePolynomial<F>, PolyError> {
        Ok(DensePolynomial::from_coefficients_vec(elements(alloc, word)?))
    }

    fn point_of(&self, _alloc: Global, word: &str) -> Result<F, PolyError> {
        Ok(element(word))
    }

    fn text(&self, alloc: Global, p: &DensePolynomial<F>) -> Answer {
        text_of(alloc, p.coeffs())
    }
}

/// Sparse polynomials by their terms.
pub struct Sparse;

impl<F: Numbered> Form<F, SparsePolynomial<F>> for Sparse {
    fn of(&self, alloc: Global, word: &str) -> Result<SparsePolynomial<F>, PolyError> {
        SparsePolynomial::from_coefficients_vec(alloc, terms_of(alloc, word)?)
    }

    fn point_of(&self, _alloc: Global, word: &str) -> Result<F, PolyError> {
        Ok(element(word))
    }

    fn text(&self, alloc: Global, p: &SparsePolynomial<F>) -> Answer {
        text_of_terms(alloc, p.coeffs())
    }
}

/// The answer to an operation on a dense polynomial.
pub fn answer_of_dense<F: Numbered>(alloc: Global, words: &[String]) -> Answer {
    let [name, word, arguments @ ..] = words else {
        return no_case(alloc);
    };
    if name.as_str() == "from_slice" {
        return dense_from_slice::<F>(alloc, word.as_str());
    }
    let p: DensePolynomial<F> = Dense.of(alloc, word.as_str())?;
    answer_about_dense(alloc, name.as_str(), &p, arguments)
}

fn answer_about_dense<F: Numbered>(
    alloc: Global,
    name: &str,
    p: &DensePolynomial<F>,
    arguments: &[String],
) -> Answer {
    match arguments {
        [] if name == "to_sparse" => shown_sparse(alloc, SparsePolynomial::from_dense(alloc, p)),
        [word] => dense_with_word(alloc, name, p, word.as_str(), arguments),
        _ => forms::answer(alloc, &Dense, name, p, arguments),
    }
}

fn dense_from_slice<F: Numbered>(alloc: Global, word: &str) -> Answer {
    let coeffs = elements::<F>(alloc, word)?;
    shown_dense(
        alloc,
        DensePolynomial::from_coefficients_slice(alloc, &coeffs),
    )
}

// The answer to an operation with one word.
fn dense_with_word<F: Numbered>(
    alloc: Global,
    name: &str,
    p: &DensePolynomial<F>,
    word: &str,
    arguments: &[String],
) -> Answer {
    match name {
        "mul_scalar" => shown_dense(alloc, p.mul_scalar(alloc, element(word))),
        "mul" | "naive_mul" | "div" | "divide_by_transforms" => with_dense(alloc, name, p, word),
        _ if name.ends_with("_assign_sparse") => in_place(alloc, name, p, word),
        _ if name.ends_with("_sparse") => with_sparse(alloc, name, p, word),
        _ => forms::answer(alloc, &Dense, name, p, arguments),
    }
}

// The product or quotient with a dense polynomial.
fn with_dense<F: Numbered>(
    alloc: Global,
    name: &str,
    p: &DensePolynomial<F>,
    word: &str,
) -> Answer {
    let q = Dense.of(alloc, word)?;
    match name {
        "mul" => shown_dense(alloc, p.mul(alloc, &q)),
        "naive_mul" => shown_dense(alloc, p.naive_mul(alloc, &q)),
        "div" => shown_dense(alloc, p.div(alloc, &q)),
        _ => shown_division(alloc, p.divide_by_transforms(alloc, &q)),
    }
}

// The sum or difference with a sparse polynomial.
fn with_sparse<F: Numbered>(
    alloc: Global,
    name: &str,
    p: &DensePolynomial<F>,
    word: &str,
) -> Answer {
    let q = Sparse.of(alloc, word)?;
    match name {
        "add_sparse" => shown_dense(alloc, p.add_sparse(alloc, &q)),
        _ => shown_dense(alloc, p.sub_sparse(alloc, &q)),
    }
}

// The sum or difference with a sparse polynomial, in place.
fn in_place<F: Numbered>(alloc: Global, name: &str, p: &DensePolynomial<F>, word: &str) -> Answer {
    let q = Sparse.of(alloc, word)?;
    let mut p = p.clone()?;
    change(alloc, name, &mut p, &q)?;
    Dense.text(alloc, &p)
}

fn change<F: Numbered>(
    alloc: Global,
    name: &str,
    p: &mut DensePolynomial<F>,
    q: &SparsePolynomial<F>,
) -> Result<(), PolyError> {
    match name {
        "add_assign_sparse" => p.add_assign_sparse(alloc, q),
        _ => p.sub_assign_sparse(alloc, q),
    }
}

/// The dense polynomial that a call gave.
pub fn shown_dense<F: Numbered>(
    alloc: Global,
    given: Result<DensePolynomial<F>, PolyError>,
) -> Answer {
    text_of(alloc, given?.coeffs())
}

/// The sparse polynomial that a call gave.
pub fn shown_sparse<F: Numbered>(
    alloc: Global,
    given: Result<SparsePolynomial<F>, PolyError>,
) -> Answer {
    text_of_terms(alloc, given?.coeffs())
}

/// The quotient and the remainder that a call gave, or `none`.
pub fn shown_division<F: Numbered>(
    alloc: Global,
    given: Result<Option<(DensePolynomial<F>, DensePolynomial<F>)>, PolyError>,
) -> Answer {
    match given? {
        Some((quotient, remainder)) => text_of_both(alloc, &quotient, &remainder),
        None => told(alloc, "none"),
    }
}

/// A quotient and a remainder, with a semicolon between them.
pub fn text_of_both<F: Numbered>(
    alloc: Global,
    quotient: &DensePolynomial<F>,
    remainder: &DensePolynomial<F>,
) -> Answer {
    let quotient = text_of(alloc, quotient.coeffs());
    joined(alloc, quotient, ";", text_of(alloc, remainder.coeffs()))
}

/// The answer to an operation on a sparse polynomial.
pub fn answer_of_sparse<F: Numbered>(alloc: Global, words: &[String]) -> Answer {
    let [name, word, arguments @ ..] = words else {
        return no_case(alloc);
    };
    if name.as_str() == "from_slice" {
        return sparse_from_slice::<F>(alloc, word.as_str());
    }
    let p: SparsePolynomial<F> = Sparse.of(alloc, word.as_str())?;
    answer_about_sparse(alloc, name.as_str(), &p, arguments)
}

fn answer_about_sparse<F: Numbered>(
    alloc: Global,
    name: &str,
    p: &SparsePolynomial<F>,
    arguments: &[String],
) -> Answer {
    match arguments {
        [] if name == "to_dense" => shown_dense(alloc, DensePolynomial::from_sparse(alloc, p)),
        [factor] if name == "mul_scalar" => {
            shown_sparse(alloc, p.mul_scalar(alloc, element(factor.as_str())))
        }
        [other] if name == "mul" => product_of_sparse(alloc, p, other.as_str()),
        _ => forms::answer(alloc, &Sparse, name, p, arguments),
    }
}

fn sparse_from_slice<F: Numbered>(alloc: Global, word: &str) -> Answer {
    let terms = terms_of::<F>(alloc, word)?;
    shown_sparse(
        alloc,
        SparsePolynomial::from_coefficients_slice(alloc, &terms),
    )
}

fn product_of_sparse<F: Numbered>(alloc: Global, p: &SparsePolynomial<F>, word: &str) -> Answer {
    let q = Sparse.of(alloc, word)?;
    shown_sparse(alloc, p.mul(alloc, &q))
}
