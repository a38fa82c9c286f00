//! Drawn messages and erased places, as many of these as a code restores, and one more.

use ark_base::FftField;
use rs_code::{Code, RsError};
use std::alloc::{AllocError, Global};
use test_cases::answers::Answer;
use test_cases::words::{no_case, number, told};
use test_types::numbered::Numbered;

// Numbers by a linear congruence.
#[derive(Drop)]
struct Draws {
    state: u64,
}

impl Draws {
    // A number below the bound, or zero.
    fn below(&mut self, bound: usize) -> usize {
        self.state = self
            .state
            .wrapping_mul(6364136223846793005)
            .wrapping_add(1442695040888963407);
        (self.state >> 33) as usize % bound.max(1)
    }
}

/// Whether so many trials went well, or the first one that did not, each after the draws of the one before it.
pub fn answer_of_drawn<F: Numbered>(alloc: Global, code: &Code<F>, arguments: &[String]) -> Answer {
    let [trials] = arguments else {
        return no_case(alloc);
    };
    let mut draws = Draws { state: 1 };
    for trial in 0..number(trials) {
        if !is_well(alloc, code, &mut draws)? {
            return Ok(format!(in alloc; "trial {trial} failed")?);
        }
    }
    told(alloc, "all restored")
}

// Whether a drawn message's codeword comes back, for each number of erased places, and another is refused.
fn is_well<F: Numbered>(
    alloc: Global,
    code: &Code<F>,
    draws: &mut Draws,
) -> Result<bool, AllocError> {
    let mut message = Vec::new(alloc);
    for _ in 0..code.k() {
        message.push(F::of_number(draws.below(1 << 16) as u64))?;
    }
    let Ok(codeword) = code.encode(alloc, &message) else {
        return Ok(false);
    };
    let mut word = whole(alloc, &codeword)?;
    for place in 0..code.n() {
        if code.k() < code.n() && !is_refused_at(alloc, code, &word, place)? {
            return Ok(false);
        }
    }
    for _ in code.k()..code.n() {
        let place = draws.below(word.len());
        if !comes_back(alloc, code, &codeword, &word)
            || !is_refused_at(alloc, code, &word, place)?
        {
            return Ok(false);
        }
        erase_one(word.as_mut_slice(), draws);
    }
    let comes = comes_back(alloc, code, &codeword, &word);
    erase_one(word.as_mut_slice(), draws);
    Ok(comes && refuses(alloc, code, &word, RsError::TooManyErased))
}

// The word of which nothing is erased.
fn whole<F: FftField>(alloc: Global, codeword: &[F]) -> Result<Vec<Option<F>>, AllocError> {
    let mut word = Vec::new(alloc);
    for value in codeword {
        word.push(Some(*value))?;
    }
    Ok(word)
}

// Erases a drawn place that isn't erased, or the next such one, if any.
fn erase_one<F: FftField>(word: &mut [Option<F>], draws: &mut Draws) {
    let from = draws.below(word.len());
    if !erase_from(word, from) {
        erase_from(word, 0);
    }
}

// Erases the first place from there on that isn't erased, and tells whether there was one.
fn erase_from<F: FftField>(word: &mut [Option<F>], from: usize) -> bool {
    for place in 0..word.len() {
        if let Some(value) = word.get_mut(place) {
            if from <= place && value.is_some() {
                *value = None;
                return true;
            }
        }
    }
    false
}

fn comes_back<F: FftField>(
    alloc: Global,
    code: &Code<F>,
    codeword: &[F],
    word: &[Option<F>],
) -> bool {
    match code.restore(alloc, word) {
        Ok(restored) => restored.as_slice() == codeword,
        Err(_) => false,
    }
}

// Whether the word with a wrong value at that place, where it isn't erased, is refused: more values are left than a
// message has.
fn is_refused_at<F: FftField>(
    alloc: Global,
    code: &Code<F>,
    word: &[Option<F>],
    place: usize,
) -> Result<bool, AllocError> {
    let mut spoilt = Vec::new(alloc);
    for value in word {
        spoilt.push(*value)?;
    }
    if let Some(Some(value)) = spoilt.get_mut(place) {
        *value = *value + F::one();
        return Ok(refuses(alloc, code, &spoilt, RsError::NoCodeword));
    }
    Ok(true)
}

fn refuses<F: FftField>(
    alloc: Global,
    code: &Code<F>,
    word: &[Option<F>],
    refusal: RsError,
) -> bool {
    match code.restore(alloc, word) {
        Ok(_) => false,
        Err(error) => error == refusal,
    }
}
