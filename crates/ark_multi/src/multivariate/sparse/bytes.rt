//! Polynomials in several variables in bytes: the number of variables, and the coefficients with their terms.

ghost use Rattle.std.specs.Prelude.{◌≡◌, ◌≢◌, ◌↔◌, All, AllPairs, IsTrue};
ghost use Rattle.std.specs.declared.cmp.Ordering.TheVariants.{Less};
ghost use Rattle.ark_math_variables.specs.Term.{IsWithin};
ghost use Rattle.ark_multi.specs.SortedTerms.{AreTerms};

use crate::multivariate::{SparsePolynomial, Term};
use ark_traits::{
    CanonicalDeserialize, CanonicalSerialize, Compress, Field, SerializationError, Sink, Source,
    Spelled, Valid, list_size, read_list, write_list,
};
use std::alloc::Global;

impl<F: Field, T: Term> Spelled for SparsePolynomial<F, T> {
    ghost use Rattle.std.specs.Prelude.{ℕ, List, map};
    ghost use Rattle.ark_multi.specs.Layouts.{multivariate};
    ghost use Rattle.ark_multi.specs.LayoutLaws.{multivariate_is_format};
    ghost use Rattle.ark_multi.specs.LayoutLaws.{multivariate_shows};

    ghost format = { λ mode. multivariate (F.format mode) (T.format mode)
        (λ p. (p.num_vars, p.terms.items)) };

    ghost format_law = { λ mode. multivariate_is_format (F.format mode) (T.format mode)
        (F.format_law mode) (T.format_law mode) (λ p. (p.num_vars, p.terms.items)) };

    ghost Shown = { ℕ × List (F.Shown × T.Shown) };

    ghost shown = { λ p. (p.num_vars, map (λ c. (F.shown c.0, T.shown c.1)) p.terms.items) };

    ghost tells = { λ mode. multivariate_shows (F.format mode) (T.format mode) (F.format_law mode)
        (T.format_law mode) F.shown T.shown (F.tells mode) (T.tells mode)
        (λ p. (p.num_vars, p.terms.items)) };
}

impl<F: Field, T: Term> CanonicalSerialize for SparsePolynomial<F, T> {
    ghost use Rattle.ark_multi.specs.Layouts.{multivariate};
    ghost use Rattle.ark_math_formats.proofs.Formats.Modes.{keeps_alike};
    ghost use Rattle.ark_multi.specs.LayoutLaws.{multivariate_alike};

    fn serialize_with_mode<W: Sink>(
        &self,
        writer: &mut W,
        mode: Compress,
    ) -> Result<(), SerializationError> {
        self.num_vars.serialize_with_mode(writer, mode)?;
        write_list(&self.terms, writer, mode)
    }

    fn serialized_size(&self, mode: Compress) -> Option<usize> {
        let variables = self.num_vars.serialized_size(mode)?;
        let terms = list_size(&self.terms, mode)?;
        variables.checked_add(terms)
    }

    ghost both_modes = { λ mode other. keeps_alike
        (multivariate (F.format mode) (T.format mode) (λ p. (p.num_vars, p.terms.items)))
        (multivariate (F.format other) (T.format other) (λ p. (p.num_vars, p.terms.items)))
        (multivariate_alike (F.format mode) (F.format other) (F.modes_law mode other) (T.format mode)
        (T.format other) (T.modes_law mode other) (λ p. (p.num_vars, p.terms.items))) };
}

impl<F: Field, T: Term> Valid for SparsePolynomial<F, T> {
    fn check(&self) -> Result<(), SerializationError> {
        Ok(())
    }
}

impl<F: Field, T: Term> CanonicalDeserialize for SparsePolynomial<F, T> {
    ghost takes_memory = { Unit {0} };

    fn deserialize_with_mode<R: Source>(
        alloc: Global,
        reader: &mut R,
        mode: Compress,
    ) -> Result<Self, SerializationError> {
        let num_vars = usize::deserialize_with_mode(alloc, reader, mode)?;
        let terms = read_list::<(F, T), R>(alloc, reader, mode)?;
        if are_terms(&terms, num_vars) {
            Ok(SparsePolynomial { num_vars, terms })
        } else {
            Err(SerializationError::InvalidData)
        }
    }
}

// Whether the terms strictly rise.
fn are_rising<F, T: Ord>(terms: &[(F, T)]) -> bool
    ensures { IsTrue result ↔ AllPairs (λ c d. T.cmp c.1 d.1 ≡ Less) terms.now }
{
    terms.is_sorted_by(|term, next| term.1.cmp(&next.1).is_lt())
}

// Whether no coefficient is zero.
fn have_no_zero<F: Field, T>(terms: &[(F, T)]) -> bool
    ensures { IsTrue result ↔ All (λ c. c.0 ≢ F.field.zero) terms.now }
{
    terms.iter().all(|term| !term.0.is_zero())
}

// Whether all variables are below this number.
fn are_within<F, T: Term>(terms: &[(F, T)], num_vars: usize) -> bool
    ensures { IsTrue result ↔ All (λ c. IsWithin num_vars (T.listed c.1)) terms.now }
{
    terms.iter().all(|term| term.1.is_within(num_vars))
}

// Whether these are the terms of a polynomial in so many variables.
fn are_terms<F: Field, T: Term>(terms: &[(F, T)], num_vars: usize) -> bool
    ensures { IsTrue result ↔ AreTerms F.field T.cmp T.listed (num_vars, terms.now) }
{
    are_rising(terms) && have_no_zero(terms) && are_within(terms, num_vars)
}
