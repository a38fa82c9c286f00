//! Sum-checks without interaction (Fiat-Shamir): each challenge follows from the calls of a transcript, which
//! absorbs the claim and each round's values before it.
//!
//! ```
//! let mut transcript = Transcript::new(b"my protocol");
//! let made = prove_transcript(alloc, prover, sum, &mut transcript)?; // made.proof is sent
//!
//! let mut transcript = Transcript::new(b"my protocol"); // the verifier's own
//! let verdict = verify_transcript(alloc, claim, &proof, &mut transcript)?;
//! ```
//!
//! Before such a call the transcript must have absorbed what fixes the tables: themselves, or a commitment to
//! them. Else a prover may choose tables after it sees the challenges, and of those the bounds on false
//! claims say nothing.
#![tactic(auto)]

mod challenger;
mod laws;
mod proof;
mod whole;

pub use challenger::TranscriptChallenger;
pub use laws::{one_challenge_a_round, one_transcript_after};
pub use proof::SumCheckProof;
pub use whole::{
    Proved, prove_transcript, prove_transcript_within, prove_transcript_within_from,
    verify_transcript,
};
