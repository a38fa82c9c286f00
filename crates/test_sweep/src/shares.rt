//! Calls that share a secret and give it back.

use crate::given::{element_named, named, size_named};
use crate::swept::Call;
use ark_base::{FftField, PolyError};
use ark_sharing::{SharingError, reconstruct, share, share_with};
use rand::SeedableRng;
use rand::rngs::StdRng;
use std::alloc::{AllocError, Global};
use test_cases::answers::Answer;
use test_cases::words::{elements, no_case, one};
use test_types::numbered::Numbered;

/// A secret, how many shares give it back, coefficients, points, and shares: each value at the point of its place.
#[derive(Drop)]
pub struct OfShares<F: FftField> {
    secret: F,
    k: usize,
    coeffs: Vec<F>,
    points: Vec<F>,
    shares: Vec<(F, F)>,
}

/// What the calls answer.
#[derive(Drop)]
pub enum Answered<F: FftField> {
    Shares(Vec<(F, F)>),
    Secret(F),
    Refused(SharingError),
    NoCall,
}

// Each point with the value at its place.
fn shares_of<F: FftField>(
    alloc: Global,
    points: &[F],
    values: &[F],
) -> Result<Vec<(F, F)>, AllocError> {
    let mut shares = Vec::new(alloc);
    for (point, value) in points.iter().zip(values.iter()) {
        shares.push((*point, *value))?;
    }
    Ok(shares)
}

impl<F: Numbered> Call for OfShares<F> {
    type Answered = Answered<F>;

    fn given(alloc: Global, words: &[String]) -> Result<Self, PolyError> {
        let points = elements(alloc, named(words, "points"))?;
        let values = elements(alloc, named(words, "values"))?;
        Ok(OfShares {
            secret: element_named(words, "secret"),
            k: size_named(words, "k"),
            coeffs: elements(alloc, named(words, "coeffs"))?,
            shares: shares_of(alloc, &points, &values)?,
            points,
        })
    }

    fn call(&mut self, alloc: Global, name: &str) -> Result<Answered<F>, PolyError> {
        let mut rng = StdRng::seed_from_u64(48);
        match name {
            "share" => match share(alloc, self.secret, self.k, &self.points, &mut rng) {
                Ok(shares) => Ok(Answered::Shares(shares)),
                Err(error) => refused(error),
            },
            "share_with" => match share_with(alloc, self.secret, &self.coeffs, &self.points) {
                Ok(shares) => Ok(Answered::Shares(shares)),
                Err(error) => refused(error),
            },
            "reconstruct" => match reconstruct(alloc, &self.shares) {
                Ok(secret) => Ok(Answered::Secret(secret)),
                Err(error) => refused(error),
            },
            _ => Ok(Answered::NoCall),
        }
    }

    fn is_same(&self, other: &Self) -> bool {
        self.coeffs == other.coeffs && self.points == other.points && self.shares == other.shares
    }

    /// Of shares, which may be drawn, how many there are, and what the last `k` of them give back.
    fn text(&self, alloc: Global, answered: &Answered<F>) -> Answer {
        match answered {
            Answered::Shares(shares) => {
                let from = shares.len() - self.k.min(shares.len());
                match reconstruct(alloc, &shares[from..]) {
                    Ok(secret) => Ok(format!(in alloc; "{},{secret}", shares.len())?),
                    Err(_) => Err(PolyError::Memory),
                }
            }
            Answered::Secret(secret) => one(alloc, *secret),
            Answered::Refused(error) => Ok(format!(in alloc; "error {}: {error}", *error as u32)?),
            Answered::NoCall => no_case(alloc),
        }
    }
}

// A refusal of memory, or the answer that another refusal is.
fn refused<F: FftField>(error: SharingError) -> Result<Answered<F>, PolyError> {
    match error {
        SharingError::Memory => Err(PolyError::Memory),
        other => Ok(Answered::Refused(other)),
    }
}
