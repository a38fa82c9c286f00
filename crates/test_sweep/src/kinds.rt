//! How polynomials of each form are spelled in words.

use crate::given::{named, pairs_of};
use ark_base::{Field, PolyError, Polynomial};
use ark_poly::multivariate::{self, SparseTerm, Term};
use ark_poly::univariate::{DensePolynomial, SparsePolynomial};
use ark_poly::{
    DenseMVPolynomial, DenseMultilinearExtension, DenseUVPolynomial, MultilinearExtension,
    SparseMultilinearExtension,
};
use std::alloc::{AllocError, Global};
use test_cases::answers::Answer;
use test_cases::words::{
    element, elements, joined, size, table_of, terms_of, text_of, text_of_numbers, text_of_terms,
};
use test_types::numbered::Numbered;

/// A form of polynomials that words spell.
pub trait Kind<F: Field>: Polynomial<F> {
    /// The polynomial that the word spells.
    fn of(alloc: Global, word: &str) -> Result<Self, PolyError>;

    /// The point that the word spells.
    fn point_of(alloc: Global, word: &str) -> Result<Self::Point, PolyError>;

    /// What it keeps.
    fn text(&self, alloc: Global) -> Answer;

    /// How many variables it keeps, or none.
    fn kept_variables(&self) -> Option<usize>;
}

/// The polynomials that the words of both names spell.
pub fn both_named<F: Field, P: Kind<F>>(
    alloc: Global,
    words: &[String],
    first: &str,
    second: &str,
) -> Result<(P, P), PolyError> {
    let left = P::of(alloc, named(words, first))?;
    let right = P::of(alloc, named(words, second))?;
    Ok((left, right))
}

/// By the coefficients.
impl<F: Numbered> Kind<F> for DensePolynomial<F> {
    fn of(alloc: Global, word: &str) -> Result<Self, PolyError> {
        Ok(DensePolynomial::from_coefficients_vec(elements(alloc, word)?))
    }

    fn point_of(_alloc: Global, word: &str) -> Result<F, PolyError> {
        Ok(element(word))
    }

    fn text(&self, alloc: Global) -> Answer {
        text_of(alloc, self.coeffs())
    }

    fn kept_variables(&self) -> Option<usize> {
        None
    }
}

/// By the terms.
impl<F: Numbered> Kind<F> for SparsePolynomial<F> {
    fn of(alloc: Global, word: &str) -> Result<Self, PolyError> {
        SparsePolynomial::from_coefficients_vec(alloc, terms_of(alloc, word)?)
    }

    fn point_of(_alloc: Global, word: &str) -> Result<F, PolyError> {
        Ok(element(word))
    }

    fn text(&self, alloc: Global) -> Answer {
        text_of_terms(alloc, self.coeffs())
    }

    fn kept_variables(&self) -> Option<usize> {
        None
    }
}

/// By the number of variables, a stroke, and terms with commas between them, each a coefficient, a colon and powers.
impl<F: Numbered> Kind<F> for multivariate::SparsePolynomial<F, SparseTerm> {
    fn of(alloc: Global, word: &str) -> Result<Self, PolyError> {
        let (num_vars, list) = word.split_once('/').unwrap_or(("", ""));
        let (num_vars, terms) = (size(num_vars), coefficients_of::<F>(alloc, list)?);
        if !terms.iter().all(|term| term.1.is_within(num_vars)) {
            return multivariate::SparsePolynomial::zero(alloc);
        }
        DenseMVPolynomial::from_coefficients_vec(alloc, num_vars, terms)
    }

    fn point_of(alloc: Global, word: &str) -> Result<Vec<F>, PolyError> {
        Ok(elements(alloc, word)?)
    }

    fn text(&self, alloc: Global) -> Answer {
        let mut text = format!(in alloc; "{}/", self.num_vars())?;
        for (i, (coefficient, term)) in self.terms().iter().enumerate() {
            let comma = if i > 0 { "," } else { "" };
            write!(text, "{comma}{coefficient}:")?;
            push_term(&mut text, term)?;
        }
        Ok(text)
    }

    fn kept_variables(&self) -> Option<usize> {
        Some(self.num_vars())
    }
}

/// Terms with their coefficients.
pub fn coefficients_of<F: Numbered>(
    alloc: Global,
    list: &str,
) -> Result<Vec<(F, SparseTerm)>, PolyError> {
    let mut terms = Vec::new(alloc);
    if !list.is_empty() {
        for piece in list.split(',') {
            let (coefficient, powers) = piece.split_once(':').unwrap_or(("", ""));
            let term = SparseTerm::new(alloc, pairs_of(alloc, powers)?)?;
            terms.push((element::<F>(coefficient), term))?;
        }
    }
    Ok(terms)
}

/// Writes a term's powers, with points between them, each a variable, a caret and a power.
pub fn push_term(text: &mut String, term: &SparseTerm) -> Result<(), AllocError> {
    for (i, (variable, power)) in term.pairs().iter().enumerate() {
        let point = if i > 0 { "." } else { "" };
        write!(text, "{point}{variable}^{power}")?;
    }
    Ok(())
}

/// By all values.
impl<F: Numbered> Kind<F> for DenseMultilinearExtension<F> {
    fn of(alloc: Global, word: &str) -> Result<Self, PolyError> {
        let p: SparseMultilinearExtension<F> = Kind::of(alloc, word)?;
        p.to_dense_multilinear_extension(alloc)
    }

    fn point_of(alloc: Global, word: &str) -> Result<Vec<F>, PolyError> {
        Ok(elements(alloc, word)?)
    }

    fn text(&self, alloc: Global) -> Answer {
        text_of(alloc, &self.to_evaluations(alloc)?)
    }

    fn kept_variables(&self) -> Option<usize> {
        Some(self.num_vars())
    }
}

/// By the number of variables, a stroke and the entries, or by all values.
impl<F: Numbered> Kind<F> for SparseMultilinearExtension<F> {
    fn of(alloc: Global, word: &str) -> Result<Self, PolyError> {
        let (num_vars, entries) = table_of::<F>(alloc, word)?;
        if num_vars >= 64 {
            return SparseMultilinearExtension::zero(alloc);
        }
        let len = 1 << num_vars;
        if !entries.iter().all(|entry| entry.0 < len) {
            return SparseMultilinearExtension::zero(alloc);
        }
        SparseMultilinearExtension::from_evaluations(alloc, num_vars, &entries)
    }

    fn point_of(alloc: Global, word: &str) -> Result<Vec<F>, PolyError> {
        Ok(elements(alloc, word)?)
    }

    fn text(&self, alloc: Global) -> Answer {
        let mut entries = Vec::new(alloc);
        for entry in self.iter() {
            entries.push(*entry)?;
        }
        let num_vars = text_of_numbers(alloc, &[self.num_vars() as u64]);
        joined(alloc, num_vars, "/", text_of_terms(alloc, &entries))
    }

    fn kept_variables(&self) -> Option<usize> {
        Some(self.num_vars())
    }
}
