//! Calls of a prover whose tables lie in a field below that of the challenges.

ghost use Rattle.std.proofs.Common.{lit<, refl};
ghost use Rattle.ark_base.specs.NonResidues.{no_square_by_power};

use crate::given::{element_named, named, size_named};
use crate::sum_checks::{Always, lists_of, prover_of, text_of_rounds};
use crate::swept::Call;
use crate::transcripts::next_number;
use ark_base::{Field, PolyError, PrimeModulus};
use ark_extensions::{ExtensionOf, Quadratic, QuadraticModulus};
use ark_fiat_shamir::{Proved, prove_transcript_within, prove_transcript_within_from};
use ark_fields::{F5, Modulus5};
use ark_sum_check::{Proof, Prover, SumCheckError, prove_within, prove_within_from};
use ark_transcript::Transcript;
use std::alloc::Global;
use std::fmt::Display;
use test_cases::answers::Answer;
use test_cases::words::{no_case, no_fit, text_of_numbers};
use test_types::numbered::Numbered;

/// 2, which is no square modulo 5.
#[derive(Clone, Copy)]
pub struct NonResidue2;

impl QuadraticModulus<F5> for NonResidue2 {
    ghost use Rattle.ark_base.specs.Element.{numbering, residue_of};

    ghost non_residue = { residue_of ⟦<Modulus5 as PrimeModulus>⟧.modulus.prime 2 };

    fn non_residue() -> F5 {
        F5::from(2)
    }

    ghost no_square = { no_square_by_power numbering ⟦<Modulus5 as PrimeModulus>⟧.modulus
        2 (lit< tt) (lit< tt) refl };
}

/// The field of 25 elements, by a square root of 2.
pub type F25 = Quadratic<F5, NonResidue2>;

/// Factors of so many variables by all values, a sum, a challenge of the field above, and a transcript.
#[derive(Drop)]
pub struct OfWithin<F: Numbered, E: Field> {
    num_vars: usize,
    tables: Vec<Vec<F>>,
    claim: F,
    challenge: E,
    transcript: Transcript,
}

/// What the calls answer.
#[derive(Drop)]
pub enum Answered<E: Field> {
    Values(Vec<E>),
    Left(Prover<E>),
    Proof(Proof<E>),
    Proved(Proved<E>),
    Refused(SumCheckError),
    NoFit,
    NoCall,
}

impl<F: Numbered, E: ExtensionOf<F> + Display> Call for OfWithin<F, E> {
    type Answered = Answered<E>;

    fn given(alloc: Global, words: &[String]) -> Result<Self, PolyError> {
        Ok(OfWithin {
            num_vars: size_named(words, "variables"),
            tables: lists_of(alloc, named(words, "tables"))?,
            claim: element_named(words, "claim"),
            challenge: E::embed(element_named(words, "challenge")),
            transcript: Transcript::new(b"sweep"),
        })
    }

    fn call(&mut self, alloc: Global, name: &str) -> Result<Answered<E>, PolyError> {
        match prover_of(alloc, self.num_vars, &self.tables)? {
            Some(prover) => self.of_prover(alloc, name, &prover),
            None => Ok(Answered::NoFit),
        }
    }

    fn is_same(&self, other: &Self) -> bool {
        self.tables == other.tables
            && self.claim == other.claim
            && self.challenge == other.challenge
            && next_number(&self.transcript) == next_number(&other.transcript)
    }

    fn text(&self, alloc: Global, answered: &Answered<E>) -> Answer {
        match answered {
            Answered::Values(values) => text_of_numbers(alloc, values),
            Answered::Left(prover) => { Ok(format!(in alloc; "{}", prover.num_vars())?) }
            Answered::Proof(proof) => text_of_rounds(alloc, &proof.rounds),
            Answered::Proved(made) => text_of_rounds(alloc, &made.proof.rounds),
            Answered::Refused(error) => Ok(format!(in alloc; "error {}: {error}", *error as u32)?),
            Answered::NoFit => no_fit(alloc),
            Answered::NoCall => no_case(alloc),
        }
    }
}

impl<F: Numbered, E: ExtensionOf<F> + Display> OfWithin<F, E> {
    // Makes a call of the prover.
    fn of_prover(
        &mut self,
        alloc: Global,
        name: &str,
        prover: &Prover<F>,
    ) -> Result<Answered<E>, PolyError> {
        let challenge = self.challenge;
        let answered = match name {
            "prover round_within" if prover.num_vars() > 0 => match prover.round_within(alloc) {
                Ok(values) => Answered::Values(values),
                Err(error) => Answered::Refused(error),
            },
            "prover bind_within" if prover.num_vars() > 0 => match prover.bind_within(
                alloc, challenge,
            ) {
                Ok(left) => Answered::Left(left),
                Err(error) => Answered::Refused(error),
            },
            "prove_within" => match prove_within(alloc, prover, &mut Always { challenge }) {
                Ok(proof) => Answered::Proof(proof),
                Err(error) => Answered::Refused(error),
            },
            "prove_within_from" => match all_from_first(alloc, prover, challenge) {
                Ok(proof) => Answered::Proof(proof),
                Err(error) => Answered::Refused(error),
            },
            "prove_transcript_within_from" => match proved_from_first(
                alloc,
                prover,
                self.claim,
                &mut self.transcript,
            ) {
                Ok(made) => Answered::Proved(made),
                Err(error) => Answered::Refused(error),
            },
            "prove_transcript_within" => match prove_transcript_within(
                alloc,
                prover,
                self.claim,
                &mut self.transcript,
            ) {
                Ok(made) => Answered::Proved(made),
                Err(error) => Answered::Refused(error),
            },
            _ => Answered::NoCall,
        };
        match answered {
            Answered::Refused(SumCheckError::Memory) => Err(PolyError::Memory),
            other => Ok(other),
        }
    }
}

// All rounds, by a first one that is handed on.
fn all_from_first<F: Numbered, E: ExtensionOf<F>>(
    alloc: Global,
    prover: &Prover<F>,
    challenge: E,
) -> Result<Proof<E>, SumCheckError> {
    let first = prover.first_round(alloc)?;
    prove_within_from(alloc, prover, &first, &mut Always { challenge })
}

// The same by the challenges of a transcript.
fn proved_from_first<F: Numbered, E: ExtensionOf<F>>(
    alloc: Global,
    prover: &Prover<F>,
    claim: F,
    transcript: &mut Transcript,
) -> Result<Proved<E>, SumCheckError> {
    let first = prover.first_round(alloc)?;
    prove_transcript_within_from(alloc, prover, &first, claim, transcript)
}
