//! Cases of polynomials of any form: after the form stand an operation, a polynomial and further arguments.

use crate::answers::Answer;
use crate::words::{debug, element, joined, no_case, no_fit, one, text_of_flags, text_of_numbers};
use ark_base::{Field, PolyError, Polynomial};
use std::alloc::Global;
use std::hash::{DefaultHasher, Hash, Hasher};
use test_types::numbered::Numbered;

/// How polynomials of a form are spelled.
pub trait Form<F: Field, P: Polynomial<F>> {
    /// The polynomial that the word spells.
    fn of(&self, alloc: Global, word: &str) -> Result<P, PolyError>;

    /// The point that the word spells.
    fn point_of(&self, alloc: Global, word: &str) -> Result<P::Point, PolyError>;

    /// What the polynomial keeps.
    fn text(&self, alloc: Global, p: &P) -> Answer;
}

/// What the polynomial keeps that a call gave.
pub fn kept<F: Field, P: Polynomial<F>, S: Form<F, P>>(
    alloc: Global,
    form: &S,
    given: Result<P, PolyError>,
) -> Answer {
    form.text(alloc, &given?)
}

/// The answer to an operation that all forms have.
pub fn answer<F: Numbered, P: Polynomial<F>, S: Form<F, P>>(
    alloc: Global,
    form: &S,
    name: &str,
    p: &P,
    arguments: &[String],
) -> Answer {
    match arguments {
        [] => answer_of_one(alloc, form, name, p),
        [word] if name == "value" => value(alloc, form, p, word.as_str()),
        [other] => answer_of_two(alloc, form, name, p, other.as_str()),
        [factor, other] if name == "add_scaled" => {
            added_scaled(alloc, form, p, element(factor.as_str()), other.as_str())
        }
        _ => no_case(alloc),
    }
}

// The answer to an operation on one.
fn answer_of_one<F: Field, P: Polynomial<F>, S: Form<F, P>>(
    alloc: Global,
    form: &S,
    name: &str,
    p: &P,
) -> Answer {
    match name {
        "text" => form.text(alloc, p),
        "clone" => form.text(alloc, &p.clone()?),
        "zero" => kept(alloc, form, P::zero(alloc)),
        "neg" => kept(alloc, form, p.neg(alloc)),
        "debug" => debug(alloc, p),
        "shape" => shape(alloc, p),
        _ => no_case(alloc),
    }
}

// The degree, and whether it is zero.
fn shape<F: Field, P: Polynomial<F>>(alloc: Global, p: &P) -> Answer {
    let degree = text_of_numbers(alloc, &[p.degree() as u64]);
    joined(alloc, degree, ",", text_of_flags(alloc, &[p.is_zero()]))
}

fn value<F: Numbered, P: Polynomial<F>, S: Form<F, P>>(
    alloc: Global,
    form: &S,
    p: &P,
    word: &str,
) -> Answer {
    let point = form.point_of(alloc, word)?;
    if !p.point_fits(&point) {
        return no_fit(alloc);
    }
    one(alloc, p.evaluate(alloc, &point)?)
}

fn added_scaled<F: Field, P: Polynomial<F>, S: Form<F, P>>(
    alloc: Global,
    form: &S,
    p: &P,
    factor: F,
    word: &str,
) -> Answer {
    let other = form.of(alloc, word)?;
    let mut sum = p.clone()?;
    if !sum.addable(&other) {
        return no_fit(alloc);
    }
    sum.add_assign_scaled(alloc, factor, &other)?;
    form.text(alloc, &sum)
}

// The answer to an operation on two.
fn answer_of_two<F: Field, P: Polynomial<F>, S: Form<F, P>>(
    alloc: Global,
    form: &S,
    name: &str,
    p: &P,
    word: &str,
) -> Answer {
    let q = form.of(alloc, word)?;
    match name {
        "equal" => compared(alloc, p, &q),
        _ if !p.addable(&q) => no_fit(alloc),
        "add" => kept(alloc, form, p.add(alloc, &q)),
        "sub" => kept(alloc, form, p.sub(alloc, &q)),
        "add_assign" => kept(alloc, form, added(alloc, p, &q)),
        "sub_assign" => kept(alloc, form, subtracted(alloc, p, &q)),
        _ => no_case(alloc),
    }
}

fn added<F: Field, P: Polynomial<F>>(alloc: Global, p: &P, q: &P) -> Result<P, PolyError> {
    let mut sum = p.clone()?;
    if sum.addable(q) {
        sum.add_assign(alloc, q)?;
    }
    Ok(sum)
}

fn subtracted<F: Field, P: Polynomial<F>>(alloc: Global, p: &P, q: &P) -> Result<P, PolyError> {
    let mut difference = p.clone()?;
    if difference.addable(q) {
        difference.sub_assign(alloc, q)?;
    }
    Ok(difference)
}

// Whether both are equal, and whether their hashes are.
fn compared<F: Field, P: Polynomial<F>>(alloc: Global, p: &P, q: &P) -> Answer {
    text_of_flags(alloc, &[p == q, hash_of(p) == hash_of(q)])
}

/// The hash of the value.
pub fn hash_of<T: Hash>(value: &T) -> u64 {
    let mut hasher = DefaultHasher::new();
    value.hash(&mut hasher);
    hasher.finish()
}
