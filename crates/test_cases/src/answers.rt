//! The answers to the lines of the input.

use crate::words::{no_case, words_of};
use ark_base::{PolyError, PrimeField, PrimeField32, PrimeModulus, PrimeModulus32};
use ark_fields::{BabyBearModulus, Modulus5, Modulus433, Modulus65537};
use ark_prime256::{Bls12_381ScalarModulus, PrimeField256, PrimeModulus256};
use std::alloc::{AllocError, Global};
use std::env::Env;
use std::process::ExitCode;
use std::{env, io};
use test_types::four::Four;
use test_types::numbered::Numbered;

/// The answer to a case.
pub type Answer = Result<String, PolyError>;

/// What answers cases.
pub trait Answers {
    /// The answer to the words of a case.
    fn answer(alloc: Global, words: &[String]) -> Answer;
}

/// What answers cases over any field.
pub trait FieldAnswers {
    /// The answer to the words after the field's.
    fn answer_over<F: Numbered>(alloc: Global, words: &[String]) -> Answer;
}

/// The order of BLS12-381's group.
pub const BLS12_381: &str =
    "52435875175126190479447740508185965837690552500527637822603658699938581184513";

/// The answer over the field whose order is the first word.
pub fn over_field<T: FieldAnswers>(alloc: Global, words: &[String]) -> Answer {
    let [field, words @ ..] = words else {
        return no_case(alloc);
    };
    match field.as_str() {
        "4" => T::answer_over::<Four>(alloc, words),
        "5" => over_prime::<T, Modulus5>(alloc, words),
        "433" => over_prime::<T, Modulus433>(alloc, words),
        "65537" => over_prime::<T, Modulus65537>(alloc, words),
        "2013265921" => over_prime_32::<T, BabyBearModulus>(alloc, words),
        BLS12_381 => over_prime_256::<T, Bls12_381ScalarModulus>(alloc, words),
        _ => no_case(alloc),
    }
}

// The answer over a prime field. What names a field that is none of its parameters is dear to check, so that this is
// said once for all moduli.
fn over_prime<T: FieldAnswers, M: PrimeModulus>(alloc: Global, words: &[String]) -> Answer {
    T::answer_over::<PrimeField<M>>(alloc, words)
}

fn over_prime_32<T: FieldAnswers, M: PrimeModulus32>(alloc: Global, words: &[String]) -> Answer {
    T::answer_over::<PrimeField32<M>>(alloc, words)
}

fn over_prime_256<T: FieldAnswers, M: PrimeModulus256>(alloc: Global, words: &[String]) -> Answer {
    T::answer_over::<PrimeField256<M>>(alloc, words)
}

/// Answers the line that is the program's argument, or else each line of the input.
///
/// Of a line alone the answer is made between the lines `call` and `called`, so that what refuses memory knows where
/// to begin and to end, and made again where memory was refused. The status is then 0 for an answer at once, 1 for
/// one at the second time, 2 where there is none, and 4 where an answer could not be written.
pub fn answer_lines<T: Answers, R: Input + Print + AllocGlobal + Env>(rt: &R) -> ExitCode {
    match argument(rt) {
        Ok(Some(line)) => ExitCode::from(answered_alone::<T, R>(rt, line.as_str())),
        Ok(None) => match write_answers::<T, R>(rt) {
            Ok(()) => ExitCode::from(0),
            Err(_) => ExitCode::from(4),
        },
        Err(_) => ExitCode::from(2),
    }
}

// The first argument after the program's name.
fn argument<R: Env + AllocGlobal>(rt: &R) -> io::Result<Option<String>> {
    let mut all = env::args(rt)?;
    let _name = all.next();
    Ok(all.next())
}

// Makes the answer to a line, once more where memory was refused, and writes it.
fn answered_alone<T: Answers, R: Print + AllocGlobal>(rt: &R, line: &str) -> u8 {
    let alloc = rt.alloc();
    let Ok(words) = words_of(alloc, line, '\t') else {
        return 2;
    };
    mark(rt, b"call\n");
    let answer = T::answer(alloc, &words);
    mark(rt, b"called\n");
    match answer {
        Err(PolyError::Memory) => written(rt, T::answer(alloc, &words), 1),
        answer => written(rt, answer, 0),
    }
}

// Tells what watches the requests for memory where an answer begins and ends.
fn mark<R: Print>(rt: &R, line: &[u8]) {
    let _ = rt.write_all(line);
}

// Writes an answer, and gives the status that was meant for it.
fn written<R: Print + AllocGlobal>(rt: &R, answer: Answer, status: u8) -> u8 {
    let Ok(text) = text_of_answer(rt.alloc(), answer) else {
        return 2;
    };
    match println!(rt; "{text}") {
        Ok(()) => status,
        Err(_) => 4,
    }
}

/// Writes the answer to each line of the input.
pub fn write_answers<T: Answers, R: Input + Print + AllocGlobal>(rt: &R) -> io::Result<()> {
    for line in rt.lines(rt.alloc()) {
        write_answer::<T, R>(rt, line?.as_str())?;
    }
    Ok(())
}

fn write_answer<T: Answers, R: Print + AllocGlobal>(rt: &R, line: &str) -> io::Result<()> {
    let answer = answer_to_line::<T>(rt.alloc(), line)?;
    println!(rt; "{answer}")
}

// The answer to a line.
fn answer_to_line<T: Answers>(alloc: Global, line: &str) -> Result<String, AllocError> {
    if line.starts_with('#') {
        return line.to_string(alloc);
    }
    text_of_answer(alloc, T::answer(alloc, &words_of(alloc, line, '\t')?))
}

// The answer, or the refusal's number and name.
fn text_of_answer(alloc: Global, answer: Answer) -> Result<String, AllocError> {
    match answer {
        Ok(answer) => Ok(answer),
        Err(error) => format!(in alloc; "error {}: {error}", error as u32),
    }
}
