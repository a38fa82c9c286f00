//! Calls of terms, of polynomials in several variables and of multilinear extensions that change what they are given,
//! or that no case makes.

use crate::given::{element_named, named, pairs_of, size_named};
use crate::kinds::{Kind, push_term};
use crate::swept::Call;
use ark_base::{Field, PolyError};
use ark_poly::multivariate::{SparsePolynomial, SparseTerm, Term};
use ark_poly::{
    DenseMVPolynomial, DenseMultilinearExtension, MultilinearExtension, SparseMultilinearExtension,
};
use rand_pcg::Pcg64;
use std::alloc::Global;
use std::mem;
use test_cases::answers::Answer;
use test_cases::words::{elements, no_case, no_fit, one, text_of_flags};
use test_types::numbered::Numbered;

/// A term, powers, a table, values, a point, a factor, a number of variables, and the windows of variables.
#[derive(Drop)]
pub struct OfSeveral<F: Field> {
    term: SparseTerm,
    // Given by value, and so gone after a call.
    powers: Vec<(usize, usize)>,
    dense: DenseMultilinearExtension<F>,
    values: Vec<F>,
    point: Vec<F>,
    factor: F,
    number: usize,
    windows: (usize, usize, usize),
}

/// What the calls answer.
#[derive(Drop)]
pub enum Answered<F: Field> {
    Term(SparseTerm),
    Dense(DenseMultilinearExtension<F>),
    DenseInPlace,
    Value(F),
    Flag(bool),
    NoFit,
    NoCall,
}

// A term and a table.
fn forms_named<F: Numbered>(
    alloc: Global,
    words: &[String],
) -> Result<(SparseTerm, DenseMultilinearExtension<F>), PolyError> {
    let term = SparseTerm::new(alloc, pairs_of(alloc, named(words, "term"))?)?;
    let dense = Kind::of(alloc, named(words, "table"))?;
    Ok((term, dense))
}

// Values, and a point.
fn lists_named<F: Numbered>(
    alloc: Global,
    words: &[String],
) -> Result<(Vec<F>, Vec<F>), PolyError> {
    let values = elements(alloc, named(words, "values"))?;
    let point = elements(alloc, named(words, "point"))?;
    Ok((values, point))
}

impl<F: Numbered> Call for OfSeveral<F> {
    type Answered = Answered<F>;

    fn given(alloc: Global, words: &[String]) -> Result<Self, PolyError> {
        let (term, dense) = forms_named(alloc, words)?;
        let (values, point) = lists_named(alloc, words)?;
        Ok(OfSeveral {
            term,
            powers: pairs_of(alloc, named(words, "powers"))?,
            dense,
            values,
            point,
            factor: element_named(words, "factor"),
            number: size_named(words, "number"),
            windows: (
                size_named(words, "a"),
                size_named(words, "b"),
                size_named(words, "k"),
            ),
        })
    }

    fn call(&mut self, alloc: Global, name: &str) -> Result<Answered<F>, PolyError> {
        match name.split_once(' ') {
            Some(("term", "new")) => {
                let powers = mem::replace(&mut self.powers, Vec::new(alloc));
                term_of(SparseTerm::new(alloc, powers))
            }
            Some(("term", name)) => self.of_terms(name),
            Some(("multivariate", _)) => drawn_polynomial(alloc, self.number),
            Some(("dense_extension", name)) => self.of_dense(alloc, name),
            Some(("sparse_extension", name)) => self.of_sparse(alloc, name),
            _ => Ok(Answered::NoCall),
        }
    }

    fn is_same(&self, other: &Self) -> bool {
        self.term == other.term
            && self.dense == other.dense
            && self.dense.num_vars() == other.dense.num_vars()
            && self.values == other.values
            && self.point == other.point
    }

    fn text(&self, alloc: Global, answered: &Answered<F>) -> Answer {
        match answered {
            Answered::Term(term) => text_of_term(alloc, term),
            Answered::Dense(p) => p.text(alloc),
            Answered::DenseInPlace => self.dense.text(alloc),
            Answered::Value(value) => one(alloc, *value),
            Answered::Flag(flag) => text_of_flags(alloc, &[*flag]),
            Answered::NoFit => no_fit(alloc),
            Answered::NoCall => no_case(alloc),
        }
    }
}

impl<F: Numbered> OfSeveral<F> {
    // Makes a call of terms.
    fn of_terms(&self, name: &str) -> Result<Answered<F>, PolyError> {
        match name {
            "clone" => term_of(copied(&self.term)),
            "evaluate" if self.term.is_within(self.point.len()) => {
                Ok(Answered::Value(self.term.evaluate(&self.point)))
            }
            _ => Ok(Answered::NoCall),
        }
    }

    // Makes a call of tables by all values.
    fn of_dense(&mut self, alloc: Global, name: &str) -> Result<Answered<F>, PolyError> {
        match name {
            "mul_assign" => in_place(self.dense.mul_assign(alloc, self.factor)),
            "from_evaluations_slice" => self.from_values(alloc),
            "relabel_in_place" => Ok(self.relabelled_in_place()),
            _ => flag_of(is_drawn::<F, DenseMultilinearExtension<F>>(alloc, self.number)),
        }
    }

    fn from_values(&self, alloc: Global) -> Result<Answered<F>, PolyError> {
        let num_vars = self.values.len().trailing_zeros() as usize;
        if num_vars >= 64 || self.values.len() != 1 << num_vars {
            return Ok(Answered::NoFit);
        }
        dense_of(DenseMultilinearExtension::from_evaluations_slice(alloc, num_vars, &self.values))
    }

    fn relabelled_in_place(&mut self) -> Answered<F> {
        let (a, b, k) = self.windows;
        if !self.dense.relabel_fits(a, b, k) {
            return Answered::NoFit;
        }
        self.dense.relabel_in_place(a, b, k);
        Answered::DenseInPlace
    }

    // Draws a table by its entries.
    fn of_sparse(&self, alloc: Global, name: &str) -> Result<Answered<F>, PolyError> {
        match name {
            "rand" => flag_of(is_drawn::<F, SparseMultilinearExtension<F>>(alloc, self.number)),
            _ => drawn_with_entries(alloc, self.number),
        }
    }
}

// ---- outcomes as answers

fn term_of<F: Field>(made: Result<SparseTerm, PolyError>) -> Result<Answered<F>, PolyError> {
    Ok(Answered::Term(made?))
}

fn copied(term: &SparseTerm) -> Result<SparseTerm, PolyError> {
    Ok(term.clone()?)
}

fn dense_of<F: Field>(
    made: Result<DenseMultilinearExtension<F>, PolyError>,
) -> Result<Answered<F>, PolyError> {
    Ok(Answered::Dense(made?))
}

fn flag_of<F: Field>(found: Result<bool, PolyError>) -> Result<Answered<F>, PolyError> {
    Ok(Answered::Flag(found?))
}

fn in_place<F: Field>(done: Result<(), PolyError>) -> Result<Answered<F>, PolyError> {
    done?;
    Ok(Answered::DenseInPlace)
}

// Draws a polynomial of degree two.
fn drawn_polynomial<F: Field>(alloc: Global, num_vars: usize) -> Result<Answered<F>, PolyError> {
    let mut rng = Pcg64::new(48, 1);
    let drawn = SparsePolynomial::<F, SparseTerm>::rand(alloc, 2, num_vars, &mut rng)?;
    Ok(Answered::Flag(!drawn.terms().is_empty()))
}

// Draws a table of half as many entries as there are places.
fn drawn_with_entries<F: Field>(alloc: Global, num_vars: usize) -> Result<Answered<F>, PolyError> {
    if num_vars >= 64 {
        return Ok(Answered::NoFit);
    }
    let len = 1 << num_vars;
    let mut rng = Pcg64::new(48, 1);
    let drawn = SparseMultilinearExtension::<F>::rand_with_config(
        alloc,
        num_vars,
        len / 2,
        &mut rng,
        1000,
    )?;
    Ok(Answered::Flag(drawn.is_some()))
}

// Whether one of so many variables is drawn.
fn is_drawn<F: Field, E: MultilinearExtension<F>>(
    alloc: Global,
    num_vars: usize,
) -> Result<bool, PolyError> {
    let mut rng = Pcg64::new(48, 1);
    if num_vars >= 64 {
        return Ok(false);
    }
    let drawn = E::rand(alloc, num_vars, &mut rng, 1000)?;
    Ok(drawn.is_some_and(|p| p.num_vars() == num_vars))
}

fn text_of_term(alloc: Global, term: &SparseTerm) -> Answer {
    let mut text = String::new(alloc);
    push_term(&mut text, term)?;
    Ok(text)
}
