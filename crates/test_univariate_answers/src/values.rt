//! Cases of values over a domain: after the size and the offset for `new_coset` stand an operation, the values or a
//! polynomial, and further arguments.

ghost use Rattle.std.specs.Prelude.{◌≡◌, IfOk};

use crate::domains::coset;
use crate::either::held;
use crate::polynomials::{Dense, Sparse, shown_dense, text_of_both};
use ark_base::PolyError;
use ark_univariate::univariate::{DenseOrSparsePolynomial, DensePolynomial, SparsePolynomial};
use ark_univariate::{EvaluationDomain, Evaluations, GeneralEvaluationDomain};
use std::alloc::Global;
use test_cases::answers::Answer;
use test_cases::forms::{Form, hash_of};
use test_cases::words::{debug, element, elements, no_case, one, size, text_of, text_of_flags};
use test_types::numbered::Numbered;

/// The answer over a general domain.
pub fn answer<F: Numbered>(alloc: Global, words: &[String]) -> Answer {
    over::<F, GeneralEvaluationDomain<F>>(alloc, words)
}

fn over<F: Numbered, D: EvaluationDomain<F>>(alloc: Global, words: &[String]) -> Answer {
    let [num_coeffs, offset, name, word, arguments @ ..] = words else {
        return no_case(alloc);
    };
    let domain: D = coset(num_coeffs.as_str(), offset.as_str())?;
    let (name, word) = (name.as_str(), word.as_str());
    match arguments {
        [] => answer_of_one(alloc, domain, name, word),
        [other] => answer_with_word(alloc, domain, name, word, other.as_str()),
        [index, value] if name == "set" => {
            replaced(
                alloc,
                domain,
                word,
                size(index.as_str()),
                element(value.as_str()),
            )
        }
        [num_coeffs, offset, other] if name == "equal" => {
            let other_domain = coset(num_coeffs.as_str(), offset.as_str())?;
            compared(alloc, domain, word, other_domain, other.as_str())
        }
        _ => no_case(alloc),
    }
}

// The answer to an operation on one polynomial, or on values alone.
fn answer_of_one<F: Numbered, D: EvaluationDomain<F>>(
    alloc: Global,
    domain: D,
    name: &str,
    word: &str,
) -> Answer {
    match name {
        "dense" | "dense_by_ref" => of_dense(alloc, domain, name, word),
        "sparse" | "sparse_by_ref" => of_sparse(alloc, domain, name, word),
        "either" => of_either(alloc, domain, word),
        "times_vanishing" | "by_vanishing" => by_vanishing(alloc, domain, name, word),
        "zero" => shown(alloc, Evaluations::zero(alloc, domain)),
        _ => of_values(alloc, name, &values_over(alloc, domain, word)?),
    }
}

// The values that a call gave.
fn shown<F: Numbered, D: EvaluationDomain<F>>(
    alloc: Global,
    given: Result<Evaluations<F, D>, PolyError>,
) -> Answer {
    text_of(alloc, given?.evals())
}

// The values, of which the domain has as many elements.
fn values_over<F: Numbered, D: EvaluationDomain<F>>(
    alloc: Global,
    domain: D,
    word: &str,
) -> Result<Evaluations<F, D>, PolyError>
    ensures { IfOk result (λ v. v.domain ≡ domain) }
{
    let evals = elements(alloc, word)?;
    if evals.len() != domain.size() {
        return Err(PolyError::NoDomain);
    }
    Ok(Evaluations::from_vec_and_domain(evals, domain))
}

fn of_dense<F: Numbered, D: EvaluationDomain<F>>(
    alloc: Global,
    domain: D,
    name: &str,
    word: &str,
) -> Answer {
    let p: DensePolynomial<F> = Dense.of(alloc, word)?;
    match name {
        "dense" => shown(alloc, p.evaluate_over_domain(alloc, domain)),
        _ => shown(alloc, p.evaluate_over_domain_by_ref(alloc, domain)),
    }
}

fn of_sparse<F: Numbered, D: EvaluationDomain<F>>(
    alloc: Global,
    domain: D,
    name: &str,
    word: &str,
) -> Answer {
    let p: SparsePolynomial<F> = Sparse.of(alloc, word)?;
    match name {
        "sparse" => shown(alloc, p.evaluate_over_domain(alloc, domain)),
        _ => shown(alloc, p.evaluate_over_domain_by_ref(alloc, domain)),
    }
}

fn of_either<F: Numbered, D: EvaluationDomain<F>>(alloc: Global, domain: D, word: &str) -> Answer {
    let p = held(alloc, word)?;
    shown(
        alloc,
        DenseOrSparsePolynomial::evaluate_over_domain(p, alloc, domain),
    )
}

// The product with the vanishing polynomial, or the quotient and the remainder by it.
fn by_vanishing<F: Numbered, D: EvaluationDomain<F>>(
    alloc: Global,
    domain: D,
    name: &str,
    word: &str,
) -> Answer {
    let p: DensePolynomial<F> = Dense.of(alloc, word)?;
    match name {
        "times_vanishing" => shown_dense(alloc, p.mul_by_vanishing_poly(alloc, domain)),
        _ => divided_by_vanishing(alloc, domain, &p),
    }
}

fn divided_by_vanishing<F: Numbered, D: EvaluationDomain<F>>(
    alloc: Global,
    domain: D,
    p: &DensePolynomial<F>,
) -> Answer {
    let (quotient, remainder) = p.divide_by_vanishing_poly(alloc, domain)?;
    text_of_both(alloc, &quotient, &remainder)
}

// The answer to an operation on values alone.
fn of_values<F: Numbered, D: EvaluationDomain<F>>(
    alloc: Global,
    name: &str,
    values: &Evaluations<F, D>,
) -> Answer {
    match name {
        "clone" => text_of(alloc, values.clone()?.evals()),
        "debug" => debug(alloc, values),
        "interpolate" => shown_dense(alloc, values.clone()?.interpolate(alloc)),
        "interpolate_by_ref" => shown_dense(alloc, values.interpolate_by_ref(alloc)),
        _ => no_case(alloc),
    }
}

// The answer to an operation on values with an index, a factor or other values.
fn answer_with_word<F: Numbered, D: EvaluationDomain<F>>(
    alloc: Global,
    domain: D,
    name: &str,
    word: &str,
    other: &str,
) -> Answer {
    let values = values_over(alloc, domain, word)?;
    match name {
        "at" => value_at(alloc, &values, size(other)),
        "mul_scalar" => shown(alloc, values.mul_scalar(alloc, element(other))),
        _ => with_values(alloc, name, values, &values_over(alloc, domain, other)?),
    }
}

// The answer to an operation on two values at each place.
fn with_values<F: Numbered, D: EvaluationDomain<F>>(
    alloc: Global,
    name: &str,
    mut values: Evaluations<F, D>,
    others: &Evaluations<F, D>,
) -> Answer
    requires { D.domain values.domain ≡ D.domain others.now.domain }
{
    if name.ends_with("_assign") {
        change(alloc, name, &mut values, others)?;
        text_of(alloc, values.evals())
    } else {
        by_places(alloc, name, &values, others)
    }
}

fn value_at<F: Numbered, D: EvaluationDomain<F>>(
    alloc: Global,
    values: &Evaluations<F, D>,
    index: usize,
) -> Answer {
    if index >= values.domain().size() {
        return no_case(alloc);
    }
    one(alloc, values[index])
}

fn replaced<F: Numbered, D: EvaluationDomain<F>>(
    alloc: Global,
    domain: D,
    word: &str,
    index: usize,
    value: F,
) -> Answer {
    let mut values = values_over(alloc, domain, word)?;
    if index < domain.size() {
        values.set(index, value);
    }
    text_of(alloc, values.evals())
}

// What an operation makes of two values at each place.
fn by_places<F: Numbered, D: EvaluationDomain<F>>(
    alloc: Global,
    name: &str,
    values: &Evaluations<F, D>,
    others: &Evaluations<F, D>,
) -> Answer
    requires { D.domain values.now.domain ≡ D.domain others.now.domain }
{
    match name {
        "add" => shown(alloc, values.add(alloc, others)),
        "sub" => shown(alloc, values.sub(alloc, others)),
        "mul" => shown(alloc, values.mul(alloc, others)),
        "div" => shown(alloc, values.div(alloc, others)),
        _ => no_case(alloc),
    }
}

// Makes a call with other values that changes the first ones.
fn change<F: Numbered, D: EvaluationDomain<F>>(
    alloc: Global,
    name: &str,
    values: &mut Evaluations<F, D>,
    others: &Evaluations<F, D>,
) -> Result<(), PolyError>
    requires { D.domain values.old.domain ≡ D.domain others.now.domain }
{
    match name {
        "add_assign" => values.add_assign(others),
        "sub_assign" => values.sub_assign(others),
        "mul_assign" => values.mul_assign(others),
        _ => return values.div_assign(alloc, others),
    }
    Ok(())
}

// Whether the values are equal to those over another domain, and whether their hashes are.
fn compared<F: Numbered, D: EvaluationDomain<F>>(
    alloc: Global,
    domain: D,
    word: &str,
    other_domain: D,
    other: &str,
) -> Answer {
    let values = values_over(alloc, domain, word)?;
    let others = values_over(alloc, other_domain, other)?;
    text_of_flags(
        alloc,
        &[values == others, hash_of(&values) == hash_of(&others)],
    )
}
