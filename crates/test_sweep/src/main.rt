//! Makes calls that answer a `Result`, and tells how each ends where memory is refused.
//!
//! A line names a call and what it is given: words between tabs, a field's order, a form, the call, and values by
//! their names. Without an argument each line of the input is answered by what its call gives. With a line as the
//! argument that call alone is made, between the lines `call` and `called` on standard output, so that what refuses
//! memory knows where the call begins and ends; after a refusal of memory it is made again, from what it left of what
//! it was given. The status then tells how it ended.
#![tactic(auto)]

mod blocks;
mod bytes;
mod codes;
mod domains;
mod forms;
mod given;
mod kinds;
mod parts;
mod programs;
mod several;
mod shares;
mod sum_checks;
mod swept;
mod transcripts;
mod univariate;
mod within;

use crate::blocks::OfBlocks;
use crate::bytes::answer_of_bytes;
use crate::codes::{OfCode, OfDecoder};
use crate::domains::OverDomain;
use crate::forms::OfForm;
use crate::parts::OfParts;
use crate::programs::OfProgram;
use crate::several::OfSeveral;
use crate::shares::OfShares;
use crate::sum_checks::OfSumChecks;
use crate::swept::{Ended, attempt};
use crate::transcripts::OfTranscripts;
use crate::univariate::OfOne;
use crate::within::{F25, OfWithin};
use ark_base::PolyError;
use ark_poly::multivariate::{self, SparseTerm};
use ark_poly::univariate::{DensePolynomial, SparsePolynomial};
use ark_poly::{
    DenseMultilinearExtension, GeneralEvaluationDomain, MixedRadixEvaluationDomain,
    Radix2EvaluationDomain, SparseMultilinearExtension,
};
use polyrun_lib::arguments;
use std::alloc::Global;
use std::process::ExitCode;
use test_cases::answers::{Answer, Answers, BLS12_381, write_answers};
use test_cases::words::words_of;
use test_types::numbered::Numbered;

struct Sweep;

impl Answers for Sweep {
    fn answer(alloc: Global, words: &[String]) -> Answer {
        match ended::<HostRuntime>(alloc, None, words)? {
            Ended::Answered(answer) => Ok(answer),
            Ended::AnsweredAgain(answer) => Ok(answer),
            Ended::Changed => Err(PolyError::Memory),
        }
    }
}

// How the call that the words name ends.
fn ended<R: Print>(
    alloc: Global,
    watched: Option<&R>,
    words: &[String],
) -> Result<Ended, PolyError> {
    let [field, form, name, given @ ..] = words else {
        return Ok(Ended::none(alloc)?);
    };
    let (form, name) = (form.as_str(), name.as_str());
    match field.as_str() {
        "5" => over_any::<ark_fields::F5, R>(alloc, watched, form, name, given),
        "25" => attempt::<OfWithin<ark_fields::F5, F25>, R>(alloc, watched, name, given),
        "433" => over_mixed::<ark_fields::F433, R>(alloc, watched, form, name, given),
        "65537" => over_general::<ark_fields::F65537, R>(alloc, watched, form, name, given),
        BLS12_381 => of_protocols::<ark_prime256::Bls12_381Scalar, R>(
            alloc, watched, form, name, given,
        ),
        _ => attempt::<OfProgram, R>(alloc, watched, name, given),
    }
}

// How a call of any form ends.
fn over_any<F: Numbered, R: Print>(
    alloc: Global,
    watched: Option<&R>,
    form: &str,
    name: &str,
    given: &[String],
) -> Result<Ended, PolyError> {
    match form {
        "dense" => attempt::<OfForm<F, DensePolynomial<F>>, R>(alloc, watched, name, given),
        "sparse" => attempt::<OfForm<F, SparsePolynomial<F>>, R>(alloc, watched, name, given),
        "radix2" => {
            attempt::<OverDomain<F, Radix2EvaluationDomain<F>>, R>(alloc, watched, name, given)
        }
        "multivariate" => {
            attempt::<OfForm<F, multivariate::SparsePolynomial<F, SparseTerm>>, R>(
                alloc, watched, name, given,
            )
        }
        "dense_extension" => {
            attempt::<OfForm<F, DenseMultilinearExtension<F>>, R>(alloc, watched, name, given)
        }
        "sparse_extension" => {
            attempt::<OfForm<F, SparseMultilinearExtension<F>>, R>(alloc, watched, name, given)
        }
        "several_variables" => attempt::<OfSeveral<F>, R>(alloc, watched, name, given),
        "decoder" => attempt::<OfDecoder<F>, R>(alloc, watched, name, given),
        "blocks" => attempt::<OfBlocks<F>, R>(alloc, watched, name, given),
        "parts" => attempt::<OfParts<F>, R>(alloc, watched, name, given),
        "shares" | "sum_checks" | "transcript" => of_protocols::<F, R>(
            alloc, watched, form, name, given,
        ),
        _ => over_mixed::<F, R>(alloc, watched, form, name, given),
    }
}

// How a call ends that is made over a field of four words too.
fn of_protocols<F: Numbered, R: Print>(
    alloc: Global,
    watched: Option<&R>,
    form: &str,
    name: &str,
    given: &[String],
) -> Result<Ended, PolyError> {
    match form {
        "shares" => attempt::<OfShares<F>, R>(alloc, watched, name, given),
        "sum_checks" => attempt::<OfSumChecks<F>, R>(alloc, watched, name, given),
        "transcript" => attempt::<OfTranscripts<F>, R>(alloc, watched, name, given),
        _ => Ended::none(alloc),
    }
}

// How a call ends that is made over a field with a small subgroup too.
fn over_mixed<F: Numbered, R: Print>(
    alloc: Global,
    watched: Option<&R>,
    form: &str,
    name: &str,
    given: &[String],
) -> Result<Ended, PolyError> {
    match form {
        "mixed" => {
            attempt::<OverDomain<F, MixedRadixEvaluationDomain<F>>, R>(alloc, watched, name, given)
        }
        "code" => attempt::<OfCode<F>, R>(alloc, watched, name, given),
        "general" | "one_variable" => over_general::<F, R>(alloc, watched, form, name, given),
        _ => answer_of_bytes::<F, R>(alloc, watched, form, name, given),
    }
}

// How a call ends that is made over a field with large subgroups too.
fn over_general<F: Numbered, R: Print>(
    alloc: Global,
    watched: Option<&R>,
    form: &str,
    name: &str,
    given: &[String],
) -> Result<Ended, PolyError> {
    match form {
        "general" => {
            attempt::<OverDomain<F, GeneralEvaluationDomain<F>>, R>(alloc, watched, name, given)
        }
        "one_variable" => {
            attempt::<OfOne<F, GeneralEvaluationDomain<F>>, R>(alloc, watched, name, given)
        }
        _ => Ended::none(alloc),
    }
}

// Makes the call that the line names, writes its answer, and gives the status.
fn answered_alone<R: Print + AllocGlobal>(rt: &R, line: &str) -> u8 {
    let alloc = rt.alloc();
    let Ok(words) = words_of(alloc, line, '\t') else {
        return 2;
    };
    match ended(alloc, Some(rt), &words) {
        Ok(Ended::Answered(answer)) => written(rt, answer.as_str(), 0),
        Ok(Ended::AnsweredAgain(answer)) => written(rt, answer.as_str(), 1),
        Ok(Ended::Changed) => 3,
        Err(_) => 2,
    }
}

// The status, where the answer could be written.
fn written<R: Print>(rt: &R, answer: &str, status: u8) -> u8 {
    match println!(rt; "{answer}") {
        Ok(()) => status,
        Err(_) => 4,
    }
}

fn main(rt: HostRuntime) -> ExitCode {
    let Ok(words) = arguments(&rt) else {
        return ExitCode::from(2);
    };
    match words.first() {
        Some(line) => ExitCode::from(answered_alone(&rt, line.as_str())),
        None => match write_answers::<Sweep, HostRuntime>(&rt) {
            Ok(()) => ExitCode::from(0),
            Err(_) => ExitCode::from(4),
        },
    }
}
