//! Calls that polynomials of every form have.

use crate::given::{element_named, named};
use crate::kinds::{Kind, both_named};
use crate::swept::Call;
use ark_base::{Compress, Field, PolyError, Polynomial};
use ark_poly::laws::polynomial_read_back;
use std::alloc::Global;
use test_cases::answers::Answer;
use test_cases::words::{no_case, no_fit, one};
use test_types::numbered::Numbered;

/// Two polynomials, a factor and a point.
#[derive(Drop)]
pub struct OfForm<F: Field, P: Polynomial<F>> {
    left: P,
    right: P,
    factor: F,
    point: P::Point,
}

/// What the calls answer.
#[derive(Drop)]
pub enum Answered<F, P> {
    Polynomial(P),
    Value(F),
    InPlace,
    NoFit,
    NoCall,
}

impl<F: Numbered, P: Kind<F>> Call for OfForm<F, P> {
    type Answered = Answered<F, P>;

    fn given(alloc: Global, words: &[String]) -> Result<Self, PolyError> {
        let (left, right) = both_named(alloc, words, "left", "right")?;
        Ok(OfForm {
            left,
            right,
            factor: element_named(words, "factor"),
            point: P::point_of(alloc, named(words, "point"))?,
        })
    }

    fn call(&mut self, alloc: Global, name: &str) -> Result<Answered<F, P>, PolyError> {
        match name {
            "clone" => polynomial_of(copied(&self.left)),
            "zero" => polynomial_of(P::zero(alloc)),
            "neg" => polynomial_of(self.left.neg(alloc)),
            "polynomial_read_back" => read_back(alloc, &self.left),
            "evaluate" if self.left.point_fits(&self.point) => {
                value_of(self.left.evaluate(alloc, &self.point))
            }
            _ if !self.left.addable(&self.right) => Ok(Answered::NoFit),
            "add" => polynomial_of(self.left.add(alloc, &self.right)),
            "sub" => polynomial_of(self.left.sub(alloc, &self.right)),
            _ => in_place(alloc, self, name),
        }
    }

    fn is_same(&self, other: &Self) -> bool {
        self.left == other.left
            && self.right == other.right
            && self.point == other.point
            && self.left.kept_variables() == other.left.kept_variables()
            && self.right.kept_variables() == other.right.kept_variables()
    }

    fn text(&self, alloc: Global, answered: &Answered<F, P>) -> Answer {
        match answered {
            Answered::Polynomial(p) => p.text(alloc),
            Answered::Value(value) => one(alloc, *value),
            Answered::InPlace => self.left.text(alloc),
            Answered::NoFit => no_fit(alloc),
            Answered::NoCall => no_case(alloc),
        }
    }
}

// Makes a call that changes its receiver.
fn in_place<F: Field, P: Polynomial<F>>(
    alloc: Global,
    given: &mut OfForm<F, P>,
    name: &str,
) -> Result<Answered<F, P>, PolyError> {
    if !given.left.addable(&given.right) {
        return Ok(Answered::NoFit);
    }
    match name {
        "add_assign" => done(given.left.add_assign(alloc, &given.right)),
        "sub_assign" => done(given.left.sub_assign(alloc, &given.right)),
        "add_assign_scaled" => {
            done(
                given
                    .left
                    .add_assign_scaled(alloc, given.factor, &given.right),
            )
        }
        _ => Ok(Answered::NoCall),
    }
}

// The polynomial that is read from its own bytes, whose only refusal is that of memory.
fn read_back<F: Field, P: Polynomial<F>>(
    alloc: Global,
    p: &P,
) -> Result<Answered<F, P>, PolyError> {
    match polynomial_read_back(alloc, p, Compress::No) {
        Ok(read) => Ok(Answered::Polynomial(read)),
        Err(_) => Err(PolyError::Memory),
    }
}

fn copied<F: Field, P: Polynomial<F>>(p: &P) -> Result<P, PolyError> {
    Ok(p.clone()?)
}

fn polynomial_of<F, P>(made: Result<P, PolyError>) -> Result<Answered<F, P>, PolyError> {
    Ok(Answered::Polynomial(made?))
}

fn value_of<F, P>(found: Result<F, PolyError>) -> Result<Answered<F, P>, PolyError> {
    Ok(Answered::Value(found?))
}

fn done<F, P>(done: Result<(), PolyError>) -> Result<Answered<F, P>, PolyError> {
    done?;
    Ok(Answered::InPlace)
}
