//! Cases of multilinear extensions, spelled by their tables. Windows of variables are two starts and a length.

use crate::tables::{ByEntries, ByValues};
use ark_base::{Field, PolyError};
use ark_multi::{DenseMultilinearExtension, MultilinearExtension, SparseMultilinearExtension};
use std::alloc::Global;
use test_cases::answers::Answer;
use test_cases::forms::{self, Form, kept};
use test_cases::words::{
    element, elements, no_case, no_fit, one, size, text_of, text_of_flags, text_of_numbers,
};
use test_types::numbered::Numbered;

/// The answer to an operation on tables by all their values.
pub fn answer_by_values<F: Numbered>(alloc: Global, words: &[String]) -> Answer {
    let [name, tables @ ..] = words else {
        return no_case(alloc);
    };
    match tables {
        _ if name.as_str() == "concat" => concat::<F>(alloc, tables),
        [table, arguments @ ..] => {
            answer_of_table::<F>(alloc, name.as_str(), table.as_str(), arguments)
        }
        _ => no_case(alloc),
    }
}

// The tables one after the other.
fn concat<F: Numbered>(alloc: Global, tables: &[String]) -> Answer {
    let mut parts: Vec<DenseMultilinearExtension<F>> = Vec::new(alloc);
    for table in tables {
        parts.push(ByValues.of(alloc, table.as_str())?)?;
    }
    shown(alloc, DenseMultilinearExtension::concat(alloc, &parts))
}

fn answer_of_table<F: Numbered>(
    alloc: Global,
    name: &str,
    table: &str,
    arguments: &[String],
) -> Answer {
    let p: DenseMultilinearExtension<F> = ByValues.of(alloc, table)?;
    match arguments {
        [word] => answer_with_word(alloc, name, &p, word.as_str(), arguments),
        [index, value] if name == "set" => {
            replaced(alloc, p, size(index.as_str()), element(value.as_str()))
        }
        [a, b, k] if name == "relabel_in_place" => {
            relabelled_in_place(alloc, p, windows(a.as_str(), b.as_str(), k.as_str()))
        }
        _ => answer(alloc, &ByValues, name, &p, arguments),
    }
}

// The answer of what this form alone has with one word, and else of what both have.
fn answer_with_word<F: Numbered>(
    alloc: Global,
    name: &str,
    p: &DenseMultilinearExtension<F>,
    word: &str,
    arguments: &[String],
) -> Answer {
    match name {
        "at" => value_at(alloc, p, size(word)),
        "mul_scalar" => shown(alloc, p.mul_scalar(alloc, element(word))),
        "mul_assign" => scaled_in_place(alloc, p, element(word)),
        _ => answer(alloc, &ByValues, name, p, arguments),
    }
}

// The table that a call gave.
fn shown<F: Numbered>(
    alloc: Global,
    given: Result<DenseMultilinearExtension<F>, PolyError>,
) -> Answer {
    ByValues.text(alloc, &given?)
}

fn value_at<F: Numbered>(alloc: Global, p: &DenseMultilinearExtension<F>, index: usize) -> Answer {
    if p.num_vars() >= 64 || index >= 1 << p.num_vars() {
        return no_fit(alloc);
    }
    one(alloc, p[index])
}

fn replaced<F: Numbered>(
    alloc: Global,
    mut p: DenseMultilinearExtension<F>,
    index: usize,
    value: F,
) -> Answer {
    if p.num_vars() < 64 && index < 1 << p.num_vars() {
        p.set(index, value);
    }
    ByValues.text(alloc, &p)
}

fn relabelled_in_place<F: Numbered>(
    alloc: Global,
    mut p: DenseMultilinearExtension<F>,
    (a, b, k): Windows,
) -> Answer {
    if p.relabel_fits(a, b, k) {
        p.relabel_in_place(a, b, k);
    }
    ByValues.text(alloc, &p)
}

fn scaled_in_place<F: Numbered>(
    alloc: Global,
    p: &DenseMultilinearExtension<F>,
    factor: F,
) -> Answer {
    let mut p = p.clone()?;
    p.mul_assign(alloc, factor)?;
    ByValues.text(alloc, &p)
}

/// The answer to an operation on tables by their entries.
pub fn answer_by_entries<F: Numbered>(alloc: Global, words: &[String]) -> Answer {
    let [name, table, arguments @ ..] = words else {
        return no_case(alloc);
    };
    let p: SparseMultilinearExtension<F> = ByEntries.of(alloc, table.as_str())?;
    answer_about_entries(alloc, name.as_str(), &p, arguments)
}

fn answer_about_entries<F: Numbered>(
    alloc: Global,
    name: &str,
    p: &SparseMultilinearExtension<F>,
    arguments: &[String],
) -> Answer {
    match arguments {
        [] if name == "to_dense" => { shown(alloc, p.to_dense_multilinear_extension(alloc)) }
        [index] if name == "at" => one(alloc, p[size(index.as_str())]),
        _ => answer(alloc, &ByEntries, name, p, arguments),
    }
}

// The starts of two windows of variables, and their length.
type Windows = (usize, usize, usize);

fn windows(a: &str, b: &str, k: &str) -> Windows {
    (size(a), size(b), size(k))
}

// The answer of what both forms have, and else of what all polynomials have.
fn answer<F: Numbered, E: MultilinearExtension<F>, S: Form<F, E>>(
    alloc: Global,
    form: &S,
    name: &str,
    p: &E,
    arguments: &[String],
) -> Answer {
    match arguments {
        [] if name == "num_vars" => text_of_numbers(alloc, &[p.num_vars() as u64]),
        [] if name == "values" => values(alloc, p),
        [point] if name == "fix" => fixed(alloc, form, p, point.as_str()),
        [a, b, k] => {
            with_windows(
                alloc,
                form,
                name,
                p,
                windows(a.as_str(), b.as_str(), k.as_str()),
            )
        }
        _ => forms::answer(alloc, form, name, p, arguments),
    }
}

fn values<F: Numbered, E: MultilinearExtension<F>>(alloc: Global, p: &E) -> Answer {
    text_of(alloc, &p.to_evaluations(alloc)?)
}

fn fixed<F: Numbered, E: MultilinearExtension<F>, S: Form<F, E>>(
    alloc: Global,
    form: &S,
    p: &E,
    word: &str,
) -> Answer {
    let point = elements(alloc, word)?;
    if point.len() > p.num_vars() {
        return no_fit(alloc);
    }
    kept(alloc, form, p.fix_variables(alloc, &point))
}

// Whether windows of variables fit, and what their exchange gives.
fn with_windows<F: Field, E: MultilinearExtension<F>, S: Form<F, E>>(
    alloc: Global,
    form: &S,
    name: &str,
    p: &E,
    (a, b, k): Windows,
) -> Answer {
    let fits = p.relabel_fits(a, b, k);
    match name {
        "fits" => text_of_flags(alloc, &[fits]),
        "relabel" if fits => kept(alloc, form, p.relabel(alloc, a, b, k)),
        "relabel" => no_fit(alloc),
        _ => no_case(alloc),
    }
}
