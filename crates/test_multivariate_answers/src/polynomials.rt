//! Cases of polynomials in several variables: the number of variables, a stroke and terms with commas between them,
//! each a coefficient, a colon and powers.

use crate::terms::{push_term, term_of};
use ark_base::{Field, PolyError, Polynomial};
use ark_multi::DenseMVPolynomial;
use ark_multi::multivariate::{SparsePolynomial, SparseTerm, Term};
use std::alloc::Global;
use test_cases::answers::Answer;
use test_cases::forms::{self, Form, kept};
use test_cases::words::{element, elements, no_case, no_fit, size};
use test_types::numbered::Numbered;

// Polynomials by their terms.
struct ByTerms;

impl<F: Numbered> Form<F, SparsePolynomial<F, SparseTerm>> for ByTerms {
    fn of(&self, alloc: Global, word: &str) -> Result<SparsePolynomial<F, SparseTerm>, PolyError> {
        let (num_vars, list) = word.split_once('/').unwrap_or(("", ""));
        from_terms(alloc, size(num_vars), terms_of(alloc, list)?)
    }

    fn point_of(&self, alloc: Global, word: &str) -> Result<Vec<F>, PolyError> {
        Ok(elements(alloc, word)?)
    }

    fn text(&self, alloc: Global, p: &SparsePolynomial<F, SparseTerm>) -> Answer {
        let mut text = format!(in alloc; "{}/", p.num_vars())?;
        for (i, (coefficient, term)) in p.terms().iter().enumerate() {
            let comma = if i > 0 { "," } else { "" };
            write!(text, "{comma}{coefficient}:")?;
            push_term(&mut text, term)?;
        }
        Ok(text)
    }
}

fn terms_of<F: Numbered>(alloc: Global, list: &str) -> Result<Vec<(F, SparseTerm)>, PolyError> {
    let mut terms = Vec::new(alloc);
    if !list.is_empty() {
        for piece in list.split(',') {
            let (coefficient, powers) = piece.split_once(':').unwrap_or(("", ""));
            terms.push((element::<F>(coefficient), term_of(alloc, powers)?))?;
        }
    }
    Ok(terms)
}

// The polynomial with these terms, whose variables are below the number; zero where one isn't.
fn from_terms<F: Field>(
    alloc: Global,
    num_vars: usize,
    terms: Vec<(F, SparseTerm)>,
) -> Result<SparsePolynomial<F, SparseTerm>, PolyError> {
    if !terms.iter().all(|term| term.1.is_within(num_vars)) {
        return SparsePolynomial::zero(alloc);
    }
    SparsePolynomial::from_coefficients_vec(alloc, num_vars, terms)
}

/// The answer to an operation on a polynomial.
pub fn answer<F: Numbered>(alloc: Global, words: &[String]) -> Answer {
    let [name, word, arguments @ ..] = words else {
        return no_case(alloc);
    };
    let p: SparsePolynomial<F, SparseTerm> = ByTerms.of(alloc, word.as_str())?;
    match arguments {
        [] if name.as_str() == "from_slice" => copied(alloc, &p),
        _ => forms::answer(alloc, &ByTerms, name.as_str(), &p, arguments),
    }
}

// The polynomial that copies of its terms make.
fn copied<F: Numbered>(alloc: Global, p: &SparsePolynomial<F, SparseTerm>) -> Answer {
    let (num_vars, terms) = (p.num_vars(), p.terms());
    if !terms.iter().all(|term| term.1.is_within(num_vars)) {
        return no_fit(alloc);
    }
    kept(
        alloc,
        &ByTerms,
        SparsePolynomial::from_coefficients_slice(alloc, num_vars, terms),
    )
}
