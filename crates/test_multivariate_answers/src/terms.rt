//! Cases of terms, spelled by their powers with points between them, each a variable, a caret and a power.

use ark_base::PolyError;
use ark_multi::multivariate::{SparseTerm, Term};
use std::alloc::{AllocError, Global};
use test_cases::answers::Answer;
use test_cases::forms::hash_of;
use test_cases::words::{
    debug, elements, joined, no_case, no_fit, one, size, text_of_flags, text_of_numbers,
};
use test_types::numbered::Numbered;

/// The answer to an operation on a term.
pub fn answer<F: Numbered>(alloc: Global, words: &[String]) -> Answer {
    let [name, word, arguments @ ..] = words else {
        return no_case(alloc);
    };
    let term = term_of(alloc, word.as_str())?;
    match arguments {
        [] => answer_of_one(alloc, name.as_str(), &term),
        [other] if name.as_str() == "compare" => compared(alloc, &term, other.as_str()),
        [point] if name.as_str() == "value" => value::<F>(alloc, &term, point.as_str()),
        _ => no_case(alloc),
    }
}

/// The term that the word spells.
pub fn term_of(alloc: Global, word: &str) -> Result<SparseTerm, PolyError> {
    let mut powers = Vec::new(alloc);
    if !word.is_empty() {
        for piece in word.split('.') {
            powers.push(power(piece))?;
        }
    }
    SparseTerm::new(alloc, powers)
}

fn power(word: &str) -> (usize, usize) {
    let (variable, power) = word.split_once('^').unwrap_or(("", ""));
    (size(variable), size(power))
}

/// Writes the term's powers after the text.
pub fn push_term(text: &mut String, term: &SparseTerm) -> Result<(), AllocError> {
    for (i, (variable, power)) in term.pairs().iter().enumerate() {
        let point = if i > 0 { "." } else { "" };
        write!(text, "{point}{variable}^{power}")?;
    }
    Ok(())
}

// The answer to an operation on the term alone.
fn answer_of_one(alloc: Global, name: &str, term: &SparseTerm) -> Answer {
    match name {
        "text" => text(alloc, term),
        "debug" => debug(alloc, term),
        "degree" => degree(alloc, term),
        "vars" => text_of_sizes(alloc, term.vars(alloc)),
        "powers" => text_of_sizes(alloc, term.powers(alloc)),
        _ => no_case(alloc),
    }
}

fn text(alloc: Global, term: &SparseTerm) -> Answer {
    let mut text = String::new(alloc);
    push_term(&mut text, term)?;
    Ok(text)
}

// The degree, and whether the term has no variable.
fn degree(alloc: Global, term: &SparseTerm) -> Answer {
    let degree = text_of_numbers(alloc, &[term.degree() as u64]);
    joined(
        alloc,
        degree,
        ",",
        text_of_flags(alloc, &[term.is_constant()]),
    )
}

// The sizes that a call gave, with commas between them.
fn text_of_sizes(alloc: Global, given: Result<Vec<usize>, PolyError>) -> Answer {
    let sizes = given?;
    let mut numbers = Vec::new(alloc);
    for size in &sizes {
        numbers.push(*size as u64)?;
    }
    text_of_numbers(alloc, &numbers)
}

fn value<F: Numbered>(alloc: Global, term: &SparseTerm, point: &str) -> Answer {
    let point = elements::<F>(alloc, point)?;
    if !term.is_within(point.len()) {
        return no_fit(alloc);
    }
    one(alloc, term.evaluate(&point))
}

// The order, and whether both are equal and have one hash.
fn compared(alloc: Global, s: &SparseTerm, other: &str) -> Answer {
    let t = &term_of(alloc, other)?;
    let order = debug(alloc, &s.cmp(t));
    joined(
        alloc,
        order,
        ",",
        text_of_flags(alloc, &[s == t, hash_of(s) == hash_of(t)]),
    )
}
