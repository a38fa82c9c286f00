//! Cases of codes whose values are pairs of elements, each with a colon between both.

use crate::codes::{by_decoder, text_of_refusal};
use ark_base::Lanes;
use rs_code::{Code, RsError};
use std::alloc::{AllocError, Global};
use test_cases::answers::Answer;
use test_cases::words::{element, no_case, told};
use test_types::numbered::Numbered;

/// The codeword of a message of pairs.
pub fn encoded_pairs<F: Numbered>(alloc: Global, code: &Code<F>, arguments: &[String]) -> Answer {
    let [message] = arguments else {
        return no_case(alloc);
    };
    let mut pairs = Vec::new(alloc);
    for place in &places_of::<F>(alloc, message)? {
        if let Some(pair) = place {
            pairs.push(*pair)?;
        }
    }
    text_of_result(alloc, code.encode(alloc, &pairs))
}

/// The codeword that a word of pairs comes from, by the code and by a decoder.
pub fn restored_pairs<F: Numbered>(alloc: Global, code: &Code<F>, arguments: &[String]) -> Answer {
    let [word] = arguments else {
        return no_case(alloc);
    };
    let word = places_of::<F>(alloc, word)?;
    let restored = text_of_result(alloc, code.restore(alloc, &word))?;
    let decoded = text_of_result(alloc, by_decoder(alloc, code, &word))?;
    if restored == decoded {
        Ok(restored)
    } else {
        told(alloc, "another answer of the decoder")
    }
}

// The pairs, and none for each erased place.
fn places_of<F: Numbered>(alloc: Global, text: &str) -> Result<Vec<Option<Lanes<F>>>, AllocError> {
    let mut places = Vec::new(alloc);
    if !text.is_empty() {
        for piece in text.split(',') {
            let pair = piece.split_once(':');
            places.push(pair.map(|(x, y)| Lanes::new(element::<F>(x), element::<F>(y))))?;
        }
    }
    Ok(places)
}

// The pairs, or the refusal.
fn text_of_result<F: Numbered>(alloc: Global, outcome: Result<Vec<Lanes<F>>, RsError>) -> Answer {
    match outcome {
        Ok(pairs) => text_of_pairs(alloc, &pairs),
        Err(error) => text_of_refusal(alloc, error),
    }
}

fn text_of_pairs<F: Numbered>(alloc: Global, pairs: &[Lanes<F>]) -> Answer {
    let mut text = String::new(alloc);
    for (i, pair) in pairs.iter().enumerate() {
        let comma = if i > 0 { "," } else { "" };
        let (first, second) = (pair.get(0), pair.get(1));
        write!(text, "{comma}{first}:{second}")?;
    }
    Ok(text)
}
