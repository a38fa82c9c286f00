//! Answers cases of fields, of domains, of values over them, and of polynomials in one variable.
//!
//! The first word is a field's order, the second says which module reads the words from there on.
#![tactic(auto)]

mod domains;
mod either;
mod fields;
mod polynomials;
mod values;

use std::alloc::Global;
use std::process::ExitCode;
use test_cases::answers::{Answer, Answers, FieldAnswers, answer_lines, over_field};
use test_cases::words::no_case;
use test_types::numbered::Numbered;

struct UnivariateAnswers;

impl Answers for UnivariateAnswers {
    fn answer(alloc: Global, words: &[String]) -> Answer {
        over_field::<UnivariateAnswers>(alloc, words)
    }
}

impl FieldAnswers for UnivariateAnswers {
    fn answer_over<F: Numbered>(alloc: Global, words: &[String]) -> Answer {
        let [subject, words @ ..] = words else {
            return no_case(alloc);
        };
        match subject.as_str() {
            "field" => fields::answer::<F>(alloc, words),
            "radix2" => domains::over_radix2::<F>(alloc, words),
            "mixed" => domains::over_mixed::<F>(alloc, words),
            "general" => domains::over_general::<F>(alloc, words),
            "values" => values::answer::<F>(alloc, words),
            "dense" => polynomials::answer_of_dense::<F>(alloc, words),
            "sparse" => polynomials::answer_of_sparse::<F>(alloc, words),
            "either" => either::answer::<F>(alloc, words),
            _ => no_case(alloc),
        }
    }
}

fn main(rt: HostRuntime) -> ExitCode {
    answer_lines::<UnivariateAnswers, HostRuntime>(&rt)
}
