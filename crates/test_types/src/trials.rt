//! What is tried over several fields: written once for all of them, and run over each here.
//!
//! Only `over_field` names concrete fields, since what names one is dear to check.

use crate::numbered::Numbered;
use ark_base::{Field, PolyError};
use ark_fields::{BabyBear, F5, F433, F65537, Goldilocks, KoalaBear};
use rand::Rng;
use std::alloc::{AllocError, Global};

/// The prime whose field is tried over.
#[derive(Clone, Copy, Debug)]
pub enum Prime {
    P5,
    P433,
    P65537,
    BabyBear,
    KoalaBear,
    Goldilocks,
}

/// What is tried over any field.
pub trait FieldTrial {
    /// Whether it holds.
    fn holds_in<F: Numbered>(&self, alloc: Global) -> Result<bool, PolyError>;
}

/// Whether it holds in the field of this prime.
pub fn over_field<T: FieldTrial>(
    alloc: Global,
    prime: Prime,
    trial: &T,
) -> Result<bool, PolyError> {
    match prime {
        Prime::P5 => trial.holds_in::<F5>(alloc),
        Prime::P433 => trial.holds_in::<F433>(alloc),
        Prime::P65537 => trial.holds_in::<F65537>(alloc),
        Prime::BabyBear => trial.holds_in::<BabyBear>(alloc),
        Prime::KoalaBear => trial.holds_in::<KoalaBear>(alloc),
        Prime::Goldilocks => trial.holds_in::<Goldilocks>(alloc),
    }
}

/// So many drawn elements.
pub fn drawn_elements<F: Field, R: Rng>(
    alloc: Global,
    rng: &mut R,
    len: usize,
) -> Result<Vec<F>, AllocError> {
    let mut elements = Vec::with_capacity(alloc, len)?;
    for _ in 0..len {
        elements.push(F::rand(rng))?;
    }
    Ok(elements)
}
