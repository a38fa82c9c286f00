//! Answers cases of laws, by what calls together give; of values at points; of bytes that are read and written; and of
//! erasure codes.
//!
//! The first word is a field's order. The second is `bytes`, `code`, `points` or what a law is about, and its module
//! says which words follow; or it is `large`, for bytes of an element of a large field, `element`, for its texts, or `lanes`,
//! for elements side by side over one field.
#![tactic(auto)]

mod bytes;
mod codes;
mod drawn_words;
mod extensions;
mod forms;
mod hostile;
mod lanes;
mod pairs;
mod points;
mod reading;
mod univariate;

use crate::reading::answer_of;
use ark_base::{Field, PrimeNumbers};
use ark_fields::{BabyBear, Goldilocks, KoalaBear};
use ark_prime256::Bls12_381Scalar;
use std::alloc::Global;
use std::process::ExitCode;
use test_cases::answers::{Answer, Answers, BLS12_381, FieldAnswers, answer_lines, over_field};
use test_cases::hex::bytes_of;
use test_cases::words::{no_case, told};
use test_types::numbered::Numbered;

struct LawAnswers;

impl Answers for LawAnswers {
    fn answer(alloc: Global, words: &[String]) -> Answer {
        let [field, subject, rest @ ..] = words else {
            return no_case(alloc);
        };
        match subject.as_str() {
            "large" => of_large(alloc, field.as_str(), rest),
            "element" => of_text(alloc, field.as_str(), rest),
            "lanes" => lanes::answer(alloc, rest),
            _ => over_field::<LawAnswers>(alloc, words),
        }
    }
}

// The answer on bytes of an element of a large field, whose order is the first word: modes, and bytes in hex.
fn of_large(alloc: Global, field: &str, words: &[String]) -> Answer {
    match field {
        "2013265921" => of_element::<BabyBear>(alloc, words),
        "2130706433" => of_element::<KoalaBear>(alloc, words),
        "18446744069414584321" => of_element::<Goldilocks>(alloc, words),
        BLS12_381 => of_element::<Bls12_381Scalar>(alloc, words),
        _ => no_case(alloc),
    }
}

fn of_element<F: Field>(alloc: Global, words: &[String]) -> Answer {
    let [modes, word] = words else {
        return no_case(alloc);
    };
    let bytes = bytes_of(alloc, word.as_str())?;
    answer_of::<F>(alloc, &bytes, modes.as_str())
}

// The answer on the text of an element of a large field.
fn of_text(alloc: Global, field: &str, words: &[String]) -> Answer {
    match field {
        "2013265921" => of_numeral::<BabyBear>(alloc, words),
        "18446744069414584321" => of_numeral::<Goldilocks>(alloc, words),
        BLS12_381 => of_numeral::<Bls12_381Scalar>(alloc, words),
        _ => no_case(alloc),
    }
}

// The element that a text spells, in decimal or in hexadecimal, as the other text.
fn of_numeral<F: PrimeNumbers>(alloc: Global, words: &[String]) -> Answer {
    let [operation, text] = words else {
        return no_case(alloc);
    };
    match operation.as_str() {
        "to_hex" => match F::from_decimal(text.as_str()) {
            Some(element) => Ok(element.to_hex(alloc)?),
            None => told(alloc, "no number"),
        },
        "to_decimal" => match F::from_hex(text.as_str()) {
            Some(element) => Ok(element.to_decimal(alloc)?),
            None => told(alloc, "no number"),
        },
        _ => no_case(alloc),
    }
}

impl FieldAnswers for LawAnswers {
    fn answer_over<F: Numbered>(alloc: Global, words: &[String]) -> Answer {
        let [subject, words @ ..] = words else {
            return no_case(alloc);
        };
        match subject.as_str() {
            "bytes" => bytes::answer::<F>(alloc, words),
            "code" => codes::answer::<F>(alloc, words),
            "dense" => univariate::answer_of_dense::<F>(alloc, words),
            "values" => univariate::answer_of_values::<F>(alloc, words),
            "forms" => forms::answer::<F>(alloc, words),
            "points" => points::answer::<F>(alloc, words),
            "dense_extension" => extensions::answer_by_values::<F>(alloc, words),
            "sparse_extension" => extensions::answer_by_entries::<F>(alloc, words),
            _ => no_case(alloc),
        }
    }
}

fn main(rt: HostRuntime) -> ExitCode {
    answer_lines::<LawAnswers, HostRuntime>(&rt)
}
