//! Calls of transcripts.

use crate::given::named;
use crate::swept::Call;
use ark_base::{FftField, PolyError};
use ark_transcript::{Transcript, element_buffer};
use std::alloc::Global;
use test_cases::answers::Answer;
use test_cases::words::{elements, no_case, one, told};
use test_types::numbered::Numbered;

/// A transcript that is begun with a label, that label, and what is absorbed under it.
#[derive(Drop)]
pub struct OfTranscripts<F: FftField> {
    transcript: Transcript,
    label: String,
    values: Vec<F>,
}

/// What the calls answer.
#[derive(Drop)]
pub enum Answered<F: FftField> {
    Absorbed,
    Challenge(F),
    Buffer(usize),
    NoCall,
}

impl<F: Numbered> Call for OfTranscripts<F> {
    type Answered = Answered<F>;

    fn given(alloc: Global, words: &[String]) -> Result<Self, PolyError> {
        let label = named(words, "label");
        Ok(OfTranscripts {
            transcript: Transcript::new(label.as_bytes()),
            label: told(alloc, label)?,
            values: elements(alloc, named(words, "values"))?,
        })
    }

    fn call(&mut self, alloc: Global, name: &str) -> Result<Answered<F>, PolyError> {
        match name {
            "absorb" => {
                let absorbed = self.transcript.absorb(self.label.as_bytes(), &self.values);
                Ok(if absorbed.is_ok() {
                    Answered::Absorbed
                } else {
                    Answered::NoCall
                })
            }
            "challenge" => {
                let challenge = self.transcript.challenge(alloc, self.label.as_bytes())?;
                Ok(Answered::Challenge(challenge))
            }
            "element_buffer" => Ok(Answered::Buffer(element_buffer::<F>(alloc)?.len())),
            _ => Ok(Answered::NoCall),
        }
    }

    fn is_same(&self, other: &Self) -> bool {
        next_number(&self.transcript) == next_number(&other.transcript)
            && self.values == other.values
    }

    /// The challenge, or, of what was absorbed, the number that eight bytes more spell.
    fn text(&self, alloc: Global, answered: &Answered<F>) -> Answer {
        match answered {
            Answered::Absorbed => {
                Ok(format!(in alloc; "{}", next_number(&self.transcript).unwrap_or(0))?)
            }
            Answered::Challenge(challenge) => one(alloc, *challenge),
            Answered::Buffer(size) => { Ok(format!(in alloc; "{size}")?) }
            Answered::NoCall => no_case(alloc),
        }
    }
}

/// The number that eight bytes spell, which are asked for next.
pub fn next_number(transcript: &Transcript) -> Option<u64> {
    let mut bytes = [0u8; 8];
    match transcript.clone() {
        Ok(mut next) => {
            next.challenge_bytes(b"", &mut bytes);
            Some(u64::from_le_bytes(bytes))
        }
        Err(_) => None,
    }
}
