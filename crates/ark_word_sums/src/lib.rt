//! Sum-checks over lists of words, for callers that know no type of a field: a prover and a verifier of
//! bytes.
#![tactic(auto)]

mod addends;
mod challenge;
mod element;
mod error;
mod laws;
mod proofs;
mod prover;
mod sums;
mod values;
mod verifier;
mod words;

pub use challenge::ChallengeOf;
pub use element::{SumElement, SumNumbers};
pub use error::SumsError;
pub use laws::{
    honest_is_shown, one_list_of_elements, one_reduction, shown_or_unlucky, true_or_one_of_few,
};
pub use proofs::proof_size;
pub use prover::{prove, value_at};
pub use verifier::verify;
