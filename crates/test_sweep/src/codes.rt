//! Calls of erasure codes and of decoders.

use crate::given::{named, size_named};
use crate::swept::Call;
use ark_base::{FftField, PolyError, Work};
use rs_code::{Code, Decoder, RsError};
use std::alloc::{AllocError, Global};
use test_cases::answers::Answer;
use test_cases::words::{element, elements, text_of, told};
use test_types::numbered::Numbered;

/// A code, a message, a word, and which of its places are erased.
#[derive(Drop)]
pub struct OfCode<F: FftField> {
    code: Code<F>,
    message: Vec<F>,
    word: Vec<Option<F>>,
    erased: Vec<bool>,
}

/// A decoder, and values of which those at the erased places aren't looked at.
#[derive(Drop)]
pub struct OfDecoder<F: FftField> {
    decoder: Decoder<F>,
    values: Vec<F>,
}

/// What the calls answer.
#[derive(Drop)]
pub enum Answered<F: FftField> {
    Values(Vec<F>),
    Decoder(Decoder<F>),
    Refused(RsError),
    NoCall,
}

impl<F: Numbered> Call for OfCode<F> {
    type Answered = Answered<F>;

    fn given(alloc: Global, words: &[String]) -> Result<Self, PolyError> {
        let word = word_of::<F>(alloc, named(words, "word"))?;
        Ok(OfCode {
            code: code_of(words)?,
            message: elements(alloc, named(words, "message"))?,
            erased: erased_places(alloc, &word)?,
            word,
        })
    }

    fn call(&mut self, alloc: Global, name: &str) -> Result<Answered<F>, PolyError> {
        match name {
            "encode" => outcome_of(self.code.encode(alloc, &self.message)),
            "encode_systematic" => outcome_of(self.code.encode_systematic(alloc, &self.message)),
            "extend" => outcome_of(self.code.extend(alloc, &self.message)),
            "restore" => outcome_of(self.code.restore(alloc, &self.word)),
            "restore_counted" => {
                outcome_of(
                    self.code
                        .restore_counted(alloc, &self.word, &mut Work::new()),
                )
            }
            "decoder" => decoder_of(self.code.decoder(alloc, &self.erased)),
            "systematic_decoder" => decoder_of(self.code.systematic_decoder(alloc)),
            _ => Ok(Answered::NoCall),
        }
    }

    fn is_same(&self, other: &Self) -> bool {
        self.code.k() == other.code.k()
            && self.code.n() == other.code.n()
            && self.message == other.message
            && self.word == other.word
            && self.erased == other.erased
    }

    fn text(&self, alloc: Global, answer: &Answered<F>) -> Answer {
        text_of_answer(alloc, answer)
    }
}

impl<F: Numbered> Call for OfDecoder<F> {
    type Answered = Answered<F>;

    fn given(alloc: Global, words: &[String]) -> Result<Self, PolyError> {
        let word = word_of::<F>(alloc, named(words, "word"))?;
        let erased = erased_places(alloc, &word)?;
        let code: Code<F> = code_of(words)?;
        match code.decoder(alloc, &erased) {
            Ok(decoder) => Ok(OfDecoder {
                decoder,
                values: elements(alloc, named(words, "values"))?,
            }),
            Err(_) => Err(PolyError::NoDomain),
        }
    }

    fn call(&mut self, alloc: Global, name: &str) -> Result<Answered<F>, PolyError> {
        match name {
            "restore" => outcome_of(self.decoder.restore(alloc, &self.values)),
            "message" => outcome_of(self.decoder.message(alloc, &self.values)),
            "restore_counted" => {
                outcome_of(
                    self.decoder
                        .restore_counted(alloc, &self.values, &mut Work::new()),
                )
            }
            _ => Ok(Answered::NoCall),
        }
    }

    fn is_same(&self, other: &Self) -> bool {
        self.values == other.values
    }

    fn text(&self, alloc: Global, answer: &Answered<F>) -> Answer {
        text_of_answer(alloc, answer)
    }
}

// The code of the numbers `k` and `n`.
fn code_of<F: FftField>(words: &[String]) -> Result<Code<F>, PolyError> {
    Code::new(size_named(words, "k"), size_named(words, "n")).ok_or(PolyError::NoDomain)
}

// The word whose places stand between commas, `_` for an erased one.
fn word_of<F: Numbered>(alloc: Global, text: &str) -> Result<Vec<Option<F>>, AllocError> {
    let mut word = Vec::new(alloc);
    if !text.is_empty() {
        for piece in text.split(',') {
            let value = if piece == "_" {
                None
            } else {
                Some(element::<F>(piece))
            };
            word.push(value)?;
        }
    }
    Ok(word)
}

fn erased_places<F: FftField>(alloc: Global, word: &[Option<F>]) -> Result<Vec<bool>, AllocError> {
    let mut erased = Vec::new(alloc);
    for place in word {
        erased.push(place.is_none())?;
    }
    Ok(erased)
}

// The values, or the refusal; that of memory as every other call's.
fn outcome_of<F: FftField>(outcome: Result<Vec<F>, RsError>) -> Result<Answered<F>, PolyError> {
    match outcome {
        Ok(values) => Ok(Answered::Values(values)),
        Err(error) => refused(error),
    }
}

fn decoder_of<F: FftField>(outcome: Result<Decoder<F>, RsError>) -> Result<Answered<F>, PolyError> {
    match outcome {
        Ok(decoder) => Ok(Answered::Decoder(decoder)),
        Err(error) => refused(error),
    }
}

fn refused<F: FftField>(error: RsError) -> Result<Answered<F>, PolyError> {
    match error {
        RsError::Memory => Err(PolyError::Memory),
        other => Ok(Answered::Refused(other)),
    }
}

fn text_of_answer<F: Numbered>(alloc: Global, answer: &Answered<F>) -> Answer {
    match answer {
        Answered::Values(values) => text_of(alloc, values),
        Answered::Decoder(_) => told(alloc, "made"),
        Answered::Refused(error) => { Ok(format!(in alloc; "error {}: {error}", *error as u32)?) }
        Answered::NoCall => told(alloc, "no call"),
    }
}
