//! Cases of one field's codes, whose values are elements: an operation, the greatest number of a message's items and
//! the least number of places, and then its arguments. In a word `_` is an erased place.

use crate::drawn_words::answer_of_drawn;
use crate::pairs::{encoded_pairs, restored_pairs};
use ark_base::{DomainCoeff, FftField};
use rs_code::{Code, RsError};
use std::alloc::{AllocError, Global};
use test_cases::answers::Answer;
use test_cases::words::{element, elements, no_case, size, text_of, told};
use test_types::numbered::Numbered;

/// The answer to an operation and its arguments; `None` where there is no such code.
pub fn answer<F: Numbered>(alloc: Global, words: &[String]) -> Answer {
    let [operation, k, n, arguments @ ..] = words else {
        return no_case(alloc);
    };
    let Some(code) = Code::<F>::new(size(k), size(n)) else {
        return told(alloc, "None");
    };
    match operation.as_str() {
        "new" => Ok(format!(in alloc; "{},{}", code.k(), code.n())?),
        "encode" => encoded(alloc, &code, arguments),
        "restore" => restored(alloc, &code, arguments),
        "encode_systematic" | "extend" | "systematic_decoder" => {
            systematic(alloc, operation.as_str(), &code, arguments)
        }
        "encode_pairs" => encoded_pairs(alloc, &code, arguments),
        "restore_pairs" => restored_pairs(alloc, &code, arguments),
        "drawn" => answer_of_drawn(alloc, &code, arguments),
        _ => no_case(alloc),
    }
}

// The codeword of a message.
fn encoded<F: Numbered>(alloc: Global, code: &Code<F>, arguments: &[String]) -> Answer {
    let [message] = arguments else {
        return no_case(alloc);
    };
    let message = elements::<F>(alloc, message)?;
    text_of_result(alloc, code.encode(alloc, &message))
}

// The codeword that begins with a message, by the code and by a decoder; or its values behind the message.
fn systematic<F: Numbered>(
    alloc: Global,
    operation: &str,
    code: &Code<F>,
    arguments: &[String],
) -> Answer {
    let [message] = arguments else {
        return no_case(alloc);
    };
    let message = elements::<F>(alloc, message)?;
    text_of_result(
        alloc,
        match operation {
            "encode_systematic" => code.encode_systematic(alloc, &message),
            "extend" => code.extend(alloc, &message),
            _ => extended_by_decoder(alloc, code, message),
        },
    )
}

fn extended_by_decoder<F: FftField>(
    alloc: Global,
    code: &Code<F>,
    message: Vec<F>,
) -> Result<Vec<F>, RsError> {
    let mut word = message;
    word.resize(code.n(), F::zero())?;
    code.systematic_decoder(alloc)?.restore(alloc, &word)
}

// The codeword that a word comes from, by the code and by a decoder.
fn restored<F: Numbered>(alloc: Global, code: &Code<F>, arguments: &[String]) -> Answer {
    let [word] = arguments else {
        return no_case(alloc);
    };
    let word = word_of::<F>(alloc, word)?;
    let restored = text_of_result(alloc, code.restore(alloc, &word))?;
    let decoded = text_of_result(alloc, by_decoder(alloc, code, &word))?;
    if restored == decoded {
        Ok(restored)
    } else {
        told(alloc, "another answer of the decoder")
    }
}

// The word whose places stand between commas.
fn word_of<F: Numbered>(alloc: Global, text: &str) -> Result<Vec<Option<F>>, AllocError> {
    let mut word = Vec::new(alloc);
    if !text.is_empty() {
        for piece in text.split(',') {
            let value = if piece == "_" {
                None
            } else {
                Some(element::<F>(piece))
            };
            word.push(value)?;
        }
    }
    Ok(word)
}

/// The codeword by a decoder of the erased places, in which some values stand.
pub fn by_decoder<F: FftField, T: DomainCoeff<F>>(
    alloc: Global,
    code: &Code<F>,
    word: &[Option<T>],
) -> Result<Vec<T>, RsError> {
    let mut erased = Vec::new(alloc);
    let mut values = Vec::new(alloc);
    let zero = T::zero();
    for place in word {
        erased.push(place.is_none())?;
        values.push(place.unwrap_or(zero))?;
    }
    code.decoder(alloc, &erased)?.restore(alloc, &values)
}

// The values, or the refusal.
fn text_of_result<F: Numbered>(alloc: Global, outcome: Result<Vec<F>, RsError>) -> Answer {
    match outcome {
        Ok(values) => text_of(alloc, &values),
        Err(error) => text_of_refusal(alloc, error),
    }
}

/// The number and the name of a refusal.
pub fn text_of_refusal(alloc: Global, error: RsError) -> Answer {
    Ok(format!(in alloc; "error {}: {error}", error as u32)?)
}
