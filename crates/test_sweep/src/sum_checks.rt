//! Calls of provers and verifiers of sums over the cube.

use crate::given::{element_named, named, size_named};
use crate::swept::Call;
use crate::transcripts::next_number;
use ark_base::{FftField, Field, PolyError};
use ark_fiat_shamir::{Proved, SumCheckProof, prove_transcript, verify_transcript};
use ark_sum_check::{
    Challenger, Claim, Proof, Prover, SparseProver, SumCheckError, Verdict, Verifier, eq_table,
    prove, prove_sparse, verify,
};
use ark_transcript::Transcript;
use std::alloc::{AllocError, Global};
use std::fmt::Display;
use test_cases::answers::Answer;
use test_cases::words::{elements, no_case, no_fit, table_of, text_of, text_of_numbers};
use test_types::numbered::Numbered;

/// Factors of so many variables by all values, a factor by its entries, a verifier, rounds' values, and a
/// challenge.
#[derive(Drop)]
pub struct OfSumChecks<F: FftField> {
    num_vars: usize,
    tables: Vec<Vec<F>>,
    entries: (usize, Vec<(usize, F)>),
    verifier: Verifier<F>,
    rounds: Vec<Vec<F>>,
    challenge: F,
    transcript: Transcript,
}

/// What the calls answer.
#[derive(Drop)]
pub enum Answered<F: FftField> {
    Value(F),
    Values(Vec<F>),
    Proof(Proof<F>),
    Proved(Proved<F>),
    Verdict(Verdict<F>),
    Taken(bool),
    Refused(SumCheckError),
    NoFit,
    NoCall,
}

/// A challenger whose challenges are all one.
#[derive(Drop)]
pub struct Always<F> {
    /// That one.
    pub challenge: F,
}

impl<F: Field> Challenger<F> for Always<F> {
    fn challenge(&mut self, _values: &[F]) -> F {
        self.challenge
    }
}

/// The lists that stand between bars.
pub fn lists_of<F: Numbered>(alloc: Global, word: &str) -> Result<Vec<Vec<F>>, AllocError> {
    let mut lists = Vec::new(alloc);
    if !word.is_empty() {
        for piece in word.split('|') {
            lists.push(elements(alloc, piece)?)?;
        }
    }
    Ok(lists)
}

impl<F: Numbered> Call for OfSumChecks<F> {
    type Answered = Answered<F>;

    fn given(alloc: Global, words: &[String]) -> Result<Self, PolyError> {
        let challenge = element_named(words, "challenge");
        let tables = lists_of(alloc, named(words, "tables"))?;
        let entries = table_of(alloc, named(words, "entries"))?;
        let rounds = lists_of(alloc, named(words, "rounds"))?;
        Ok(OfSumChecks {
            num_vars: size_named(words, "variables"),
            tables,
            entries,
            verifier: Verifier {
                degree: size_named(words, "degree"),
                claim: element_named(words, "claim"),
            },
            rounds,
            challenge,
            transcript: Transcript::new(b"sweep"),
        })
    }

    fn call(&mut self, alloc: Global, name: &str) -> Result<Answered<F>, PolyError> {
        match name {
            "prover round" | "prover first_round" | "prover last_value" | "prove" => {
                self.of_tables(alloc, name)
            }
            "sparse_prover round" | "prove_sparse" => self.of_entries(alloc, name),
            "prove_transcript" => self.proved(alloc),
            "verify_transcript" => self.verified(alloc),
            "verifier take" => self.taken(alloc),
            "eq_table" => match self.rounds.first() {
                Some(point) if point.len() < 64 => values_answer(eq_table(alloc, point)),
                _ => Ok(Answered::NoFit),
            },
            "verify" => match verify(alloc, self.claim(), &self.rounds, &mut self.always()) {
                Ok(verdict) => Ok(Answered::Verdict(verdict)),
                Err(error) => refused(error),
            },
            _ => Ok(Answered::NoCall),
        }
    }

    fn is_same(&self, other: &Self) -> bool {
        self.tables == other.tables
            && self.entries == other.entries
            && self.verifier.degree == other.verifier.degree
            && self.verifier.claim == other.verifier.claim
            && self.rounds == other.rounds
            && next_number(&self.transcript) == next_number(&other.transcript)
    }

    fn text(&self, alloc: Global, answered: &Answered<F>) -> Answer {
        match answered {
            Answered::Values(values) => text_of(alloc, values),
            Answered::Value(value) => { Ok(format!(in alloc; "{value}")?) }
            Answered::Proof(proof) => text_of_rounds(alloc, &proof.rounds),
            Answered::Proved(made) => text_of_rounds(alloc, &made.proof.rounds),
            Answered::Verdict(Verdict::Reduced(value, _)) => {
                Ok(format!(in alloc; "accepted {value}")?)
            }
            Answered::Verdict(Verdict::WrongCount) => Ok(String::from_str(alloc, "wrong count")?),
            Answered::Verdict(Verdict::Refused(round)) => {
                Ok(format!(in alloc; "refused {round}")?)
            }
            Answered::Taken(fits) => { Ok(format!(in alloc; "{fits} {}", self.verifier.claim)?) }
            Answered::Refused(error) => Ok(format!(in alloc; "error {}: {error}", *error as u32)?),
            Answered::NoFit => no_fit(alloc),
            Answered::NoCall => no_case(alloc),
        }
    }
}

impl<F: Numbered> OfSumChecks<F> {
    // Makes a call of a prover.
    fn of_tables(&self, alloc: Global, name: &str) -> Result<Answered<F>, PolyError> {
        let Some(prover) = prover_of(alloc, self.num_vars, &self.tables)? else {
            return Ok(Answered::NoFit);
        };
        match name {
            "prove" => proof_answer(prove(alloc, prover, &mut self.always())),
            "prover last_value" if prover.num_vars() == 0 => match prover.last_value(alloc) {
                Ok(value) => Ok(Answered::Value(value)),
                Err(error) => refused(error),
            },
            "prover round" if prover.num_vars() > 0 => values_answer(prover.round(alloc)),
            "prover first_round" => values_answer(prover.first_round(alloc)),
            _ => Ok(Answered::NoFit),
        }
    }

    // All rounds by the challenges of the transcript.
    fn proved(&mut self, alloc: Global) -> Result<Answered<F>, PolyError> {
        let Some(prover) = prover_of(alloc, self.num_vars, &self.tables)? else {
            return Ok(Answered::NoFit);
        };
        match prove_transcript(alloc, prover, self.verifier.claim, &mut self.transcript) {
            Ok(made) => Ok(Answered::Proved(made)),
            Err(error) => refused(error),
        }
    }

    // What a verifier says of the rounds by the challenges of the transcript.
    fn verified(&mut self, alloc: Global) -> Result<Answered<F>, PolyError> {
        let mut rounds = Vec::new(alloc);
        for values in &self.rounds {
            rounds.push(Vec::from_slice(alloc, values)?)?;
        }
        let proof = SumCheckProof { rounds };
        let claim = self.claim();
        match verify_transcript(alloc, claim, &proof, &mut self.transcript) {
            Ok(verdict) => Ok(Answered::Verdict(verdict)),
            Err(error) => refused(error),
        }
    }

    fn claim(&self) -> Claim<F> {
        Claim {
            num_vars: self.num_vars,
            degree: self.verifier.degree,
            sum: self.verifier.claim,
        }
    }

    // Makes a call of a prover of copies of the entries.
    fn of_entries(&self, alloc: Global, name: &str) -> Result<Answered<F>, PolyError> {
        let (num_vars, entries) = (self.entries.0, Vec::from_slice(alloc, &self.entries.1)?);
        if num_vars >= 64 {
            return Ok(Answered::NoFit);
        }
        let len = 1 << num_vars;
        if !entries.iter().all(|entry| entry.0 < len) {
            return Ok(Answered::NoFit);
        }
        let prover = SparseProver::new(num_vars, entries);
        match name {
            "prove_sparse" => proof_answer(prove_sparse(alloc, prover, &mut self.always())),
            _ if num_vars > 0 => values_answer(prover.round(alloc)),
            _ => Ok(Answered::NoFit),
        }
    }

    fn always(&self) -> Always<F> {
        Always {
            challenge: self.challenge,
        }
    }

    // The first round, as the verifier takes it.
    fn taken(&mut self, alloc: Global) -> Result<Answered<F>, PolyError> {
        let Some(values) = self.rounds.first() else {
            return Ok(Answered::NoFit);
        };
        match self.verifier.take(alloc, values, self.challenge) {
            Ok(fits) => Ok(Answered::Taken(fits)),
            Err(error) => refused(error),
        }
    }
}

/// The prover of copies of the factors, where each has a value at each corner.
pub fn prover_of<F: Field>(
    alloc: Global,
    num_vars: usize,
    factors: &[Vec<F>],
) -> Result<Option<Prover<F>>, AllocError> {
    let mut tables = Vec::new(alloc);
    for factor in factors {
        tables.push(Vec::from_slice(alloc, factor)?)?;
    }
    if num_vars >= 64 || tables.is_empty() {
        return Ok(None);
    }
    let len = 1 << num_vars;
    if !tables.iter().all(|table| table.len() == len) {
        return Ok(None);
    }
    Ok(Some(Prover::new(num_vars, tables)))
}

// ---- outcomes as answers

fn values_answer<F: FftField>(
    made: Result<Vec<F>, SumCheckError>,
) -> Result<Answered<F>, PolyError> {
    match made {
        Ok(values) => Ok(Answered::Values(values)),
        Err(error) => refused(error),
    }
}

fn proof_answer<F: FftField>(
    made: Result<Proof<F>, SumCheckError>,
) -> Result<Answered<F>, PolyError> {
    match made {
        Ok(proof) => Ok(Answered::Proof(proof)),
        Err(error) => refused(error),
    }
}

// A refusal of memory, or the answer that another refusal is.
fn refused<F: FftField>(error: SumCheckError) -> Result<Answered<F>, PolyError> {
    match error {
        SumCheckError::Memory => Err(PolyError::Memory),
        other => Ok(Answered::Refused(other)),
    }
}

/// The values of each round, with a bar between rounds.
pub fn text_of_rounds<T: Display>(alloc: Global, rounds: &[Vec<T>]) -> Answer {
    let mut text = String::new(alloc);
    for (i, values) in rounds.iter().enumerate() {
        let bar = if i > 0 { "|" } else { "" };
        let shown = text_of_numbers(alloc, values)?;
        write!(text, "{bar}{shown}")?;
    }
    Ok(text)
}
