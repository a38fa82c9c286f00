//! What is tried over several kinds of domains: written once for all of them, and run over each here.

use ark_base::PolyError;
use ark_univariate::{
    EvaluationDomain, GeneralEvaluationDomain, MixedRadixEvaluationDomain, Radix2EvaluationDomain,
};
use std::alloc::Global;
use test_types::numbered::Numbered;
use test_types::trials::{FieldTrial, Prime, over_field};

/// The kind of domains that is tried over.
#[derive(Clone, Copy, Debug)]
pub enum Kind {
    Radix2,
    Mixed,
    General,
}

/// What is tried over a domain of any field and kind.
pub trait Trial {
    /// Whether it holds.
    fn holds<F: Numbered, D: EvaluationDomain<F>>(&self, alloc: Global) -> Result<bool, PolyError>;
}

/// Whether it holds over domains of this kind in the field of this prime.
pub fn over<T: Trial>(
    alloc: Global,
    prime: Prime,
    kind: Kind,
    trial: &T,
) -> Result<bool, PolyError> {
    over_field(alloc, prime, &OfKind { kind, trial })
}

// A trial over domains of one kind.
#[derive(Drop)]
struct OfKind<'a, T> {
    kind: Kind,
    trial: &'a T,
}

impl<T: Trial> FieldTrial for OfKind<'_, T> {
    fn holds_in<F: Numbered>(&self, alloc: Global) -> Result<bool, PolyError> {
        match self.kind {
            Kind::Radix2 => self.trial.holds::<F, Radix2EvaluationDomain<F>>(alloc),
            Kind::Mixed => self.trial.holds::<F, MixedRadixEvaluationDomain<F>>(alloc),
            Kind::General => self.trial.holds::<F, GeneralEvaluationDomain<F>>(alloc),
        }
    }
}
