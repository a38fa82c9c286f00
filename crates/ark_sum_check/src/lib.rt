//! The sum-check protocol for a sum of products of multilinear extensions: provers that send rounds, and a
//! verifier that takes them.
#![tactic(auto)]

mod addend;
mod challenger;
mod entries;
mod eq;
mod error;
mod laws;
mod pairs;
mod proof;
mod prover;
mod sparse;
mod sums;
mod tables;
mod through;
mod verifier;
mod whole;

pub use addend::Addend;
pub use challenger::Challenger;
pub use eq::eq_table;
pub use error::SumCheckError;
pub use laws::{few_believed_challenges, few_unlucky_challenges, true_or_one_of_few};
pub use proof::Proof;
pub use prover::Prover;
pub use sparse::SparseProver;
pub use verifier::{Claim, Verdict, Verifier, verify};
pub use whole::{prove, prove_sparse, prove_within, prove_within_from};
