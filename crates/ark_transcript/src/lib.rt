//! Challenges that follow from what was said before (Fiat-Shamir), by SHA-256. The verifier makes a
//! transcript of its own with the same calls as the prover, and so has the same challenges.
//!
//! ```
//! let mut transcript = Transcript::new(b"my protocol");
//! transcript.absorb(b"claim", &claim)?;
//! transcript.absorb_bytes(b"round", &sent);
//! let challenge: Goldilocks = transcript.challenge(alloc, b"round")?;
//! ```
#![tactic(auto)]

mod calls;
mod elements;
mod error;
mod hashed;
mod laws;
mod transcript;

pub use elements::element_buffer;
pub use error::TooLong;
pub use laws::{challenges_differ, one_challenge, transcripts_differ};
pub use transcript::Transcript;
