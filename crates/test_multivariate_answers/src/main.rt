//! Answers cases of terms, of polynomials in several variables, and of multilinear extensions.
//!
//! The first word is a field's order, the second says which module reads the words from there on.
#![tactic(auto)]

mod extensions;
mod polynomials;
mod tables;
mod terms;

use std::alloc::Global;
use std::process::ExitCode;
use test_cases::answers::{Answer, Answers, FieldAnswers, answer_lines, over_field};
use test_cases::words::no_case;
use test_types::numbered::Numbered;

struct MultiAnswers;

impl Answers for MultiAnswers {
    fn answer(alloc: Global, words: &[String]) -> Answer {
        over_field::<MultiAnswers>(alloc, words)
    }
}

impl FieldAnswers for MultiAnswers {
    fn answer_over<F: Numbered>(alloc: Global, words: &[String]) -> Answer {
        let [subject, words @ ..] = words else {
            return no_case(alloc);
        };
        match subject.as_str() {
            "term" => terms::answer::<F>(alloc, words),
            "multivariate" => polynomials::answer::<F>(alloc, words),
            "dense_extension" => extensions::answer_by_values::<F>(alloc, words),
            "sparse_extension" => extensions::answer_by_entries::<F>(alloc, words),
            _ => no_case(alloc),
        }
    }
}

fn main(rt: HostRuntime) -> ExitCode {
    answer_lines::<MultiAnswers, HostRuntime>(&rt)
}
