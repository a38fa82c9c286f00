//! Cases of domains: after the kind of domain stand the size and the offset for `new_coset`, an operation and its
//! arguments.

use crate::fields::option;
use crate::polynomials::{shown_dense, shown_sparse};
use ark_base::{FftField, Lanes, PolyError};
use ark_univariate::{
    EvaluationDomain, GeneralEvaluationDomain, MixedRadixEvaluationDomain, Radix2EvaluationDomain,
};
use std::alloc::{AllocError, Global};
use test_cases::answers::Answer;
use test_cases::words::{
    debug, element, elements, joined, no_case, one, size, text_of, text_of_flags, text_of_numbers,
};
use test_types::numbered::Numbered;

pub fn over_radix2<F: Numbered>(alloc: Global, words: &[String]) -> Answer {
    over::<F, Radix2EvaluationDomain<F>>(alloc, words)
}

pub fn over_mixed<F: Numbered>(alloc: Global, words: &[String]) -> Answer {
    over::<F, MixedRadixEvaluationDomain<F>>(alloc, words)
}

pub fn over_general<F: Numbered>(alloc: Global, words: &[String]) -> Answer {
    over::<F, GeneralEvaluationDomain<F>>(alloc, words)
}

fn over<F: Numbered, D: EvaluationDomain<F>>(alloc: Global, words: &[String]) -> Answer {
    let [num_coeffs, offset, name, arguments @ ..] = words else {
        return no_case(alloc);
    };
    let domain: D = coset(num_coeffs.as_str(), offset.as_str())?;
    let name = name.as_str();
    match arguments {
        [] => answer_of_all(alloc, domain, name),
        [word] => answer_with_word(alloc, domain, name, word.as_str()),
        [first, second] if name == "lanes" => lanes(alloc, domain, first.as_str(), second.as_str()),
        [num_coeffs, offset, arguments @ ..] => {
            let part = coset(num_coeffs.as_str(), offset.as_str())?;
            answer_of_part(alloc, domain, name, part, arguments)
        }
    }
}

/// The domain that `new_coset` gives.
pub fn coset<F: Numbered, D: EvaluationDomain<F>>(
    num_coeffs: &str,
    offset: &str,
) -> Result<D, PolyError> {
    D::new_coset(size(num_coeffs), element(offset)).ok_or(PolyError::NoDomain)
}

// The answer to an operation on the domain alone.
fn answer_of_all<F: Numbered, D: EvaluationDomain<F>>(
    alloc: Global,
    domain: D,
    name: &str,
) -> Answer {
    match name {
        "size" => text_of_numbers(alloc, &[domain.size() as u64]),
        "text" => debug(alloc, &domain),
        "fields" => fields(alloc, domain),
        "elements" => all_elements(alloc, domain),
        "vanishing" => shown_sparse(alloc, domain.vanishing_polynomial(alloc)),
        _ => no_case(alloc),
    }
}

// The answer to an operation with an index, a point or a list.
fn answer_with_word<F: Numbered, D: EvaluationDomain<F>>(
    alloc: Global,
    domain: D,
    name: &str,
    word: &str,
) -> Answer {
    match name {
        "element" => one(alloc, domain.element(size(word))),
        "fft" => fft(alloc, domain, word),
        "ifft" => ifft(alloc, domain, word),
        "lagrange" => {
            shown(
                alloc,
                domain.evaluate_all_lagrange_coefficients(alloc, element(word)),
            )
        }
        "vanishing" => one(alloc, domain.evaluate_vanishing_polynomial(element(word))),
        _ => no_case(alloc),
    }
}

// The answer to an operation with another domain of the kind.
fn answer_of_part<F: Numbered, D: EvaluationDomain<F>>(
    alloc: Global,
    domain: D,
    name: &str,
    part: D,
    arguments: &[String],
) -> Answer {
    match arguments {
        [] => answer_of_both(alloc, domain, name, part),
        [point] if name == "filter" => filter_at(alloc, domain, part, element(point.as_str())),
        _ => no_case(alloc),
    }
}

fn answer_of_both<F: Numbered, D: EvaluationDomain<F>>(
    alloc: Global,
    domain: D,
    name: &str,
    part: D,
) -> Answer {
    match name {
        "contains" => text_of_flags(alloc, &[domain.contains_subdomain(&part)]),
        "filter" => shown_dense(alloc, domain.filter_polynomial(alloc, &part)),
        "reindex" => reindexed(alloc, domain, part),
        _ => no_case(alloc),
    }
}

fn filter_at<F: Numbered, D: EvaluationDomain<F>>(
    alloc: Global,
    domain: D,
    part: D,
    point: F,
) -> Answer {
    option(alloc, domain.evaluate_filter_polynomial(&part, point))
}

// What a domain keeps, in this order: the size, the exponent of two in it, the size as an element and its inverse, the
// root and its inverse, the offset, its inverse and its power.
fn fields<F: Numbered, D: EvaluationDomain<F>>(alloc: Global, domain: D) -> Answer {
    let size = format!(in alloc;
        "{},{},{},{}",
        domain.size(),
        domain.log_size_of_group(),
        domain.size_as_field_element(),
        domain.size_inv()
    )?;
    let root = format!(in alloc; "{},{}", domain.group_gen(), domain.group_gen_inv())?;
    Ok(format!(in alloc;
        "{size},{root},{},{},{}",
        domain.coset_offset(),
        domain.coset_offset_inv(),
        domain.coset_offset_pow_size()
    )?)
}

fn all_elements<F: Numbered, D: EvaluationDomain<F>>(alloc: Global, domain: D) -> Answer {
    let mut all = Vec::new(alloc);
    for element in domain.elements() {
        all.push(element)?;
    }
    text_of(alloc, &all)
}

// The list that a call gave.
fn shown<F: Numbered>(alloc: Global, given: Result<Vec<F>, PolyError>) -> Answer {
    text_of(alloc, &given?)
}

fn fft<F: Numbered, D: EvaluationDomain<F>>(alloc: Global, domain: D, word: &str) -> Answer {
    let coeffs = elements::<F>(alloc, word)?;
    shown(alloc, domain.fft(alloc, &coeffs))
}

fn ifft<F: Numbered, D: EvaluationDomain<F>>(alloc: Global, domain: D, word: &str) -> Answer {
    let values = elements::<F>(alloc, word)?;
    shown(alloc, domain.ifft(alloc, &values))
}

// The transform of pairs, of which one list has the first parts and the other the second ones.
fn lanes<F: Numbered, D: EvaluationDomain<F>>(
    alloc: Global,
    domain: D,
    first: &str,
    second: &str,
) -> Answer {
    let pairs = side_by_side::<F>(alloc, first, second)?;
    let values = domain.fft(alloc, &pairs)?;
    text_of_pairs(alloc, &values)
}

fn side_by_side<F: Numbered>(
    alloc: Global,
    first: &str,
    second: &str,
) -> Result<Vec<Lanes<F>>, AllocError> {
    let mut pairs = Vec::new(alloc);
    for (x, y) in first.split(',').zip(second.split(',')) {
        pairs.push(Lanes::new(element(x), element(y)))?;
    }
    Ok(pairs)
}

// The first parts of pairs, and the second ones.
fn text_of_pairs<F: Numbered>(alloc: Global, pairs: &[Lanes<F>]) -> Answer {
    let mut first = Vec::new(alloc);
    let mut second = Vec::new(alloc);
    for pair in pairs {
        first.push(pair.get(0))?;
        second.push(pair.get(1))?;
    }
    joined(alloc, text_of(alloc, &first), " ", text_of(alloc, &second))
}

// All indices in the order that has those of the part's elements first.
fn reindexed<F: FftField, D: EvaluationDomain<F>>(alloc: Global, domain: D, part: D) -> Answer {
    let mut order = Vec::new(alloc);
    if part.size() != 0 && domain.size() % part.size() == 0 {
        for i in 0..domain.size() {
            order.push(domain.reindex_by_subdomain(part, i) as u64)?;
        }
    }
    text_of_numbers(alloc, &order)
}
