//! A sum-check of rows of constraints as a prover sends it and as a verifier reads it: bytes between two
//! programs, and at the end the tables' own value.

use crate::rows::{Rows, prover_of_rows, value_of_rows};
use ark_base::Field;
use ark_bytes::{CanonicalDeserialize, CanonicalSerialize, IoSink};
use ark_fiat_shamir::{SumCheckProof, prove_transcript, verify_transcript};
use ark_sum_check::{Claim, Verdict};
use ark_transcript::Transcript;
use std::alloc::Global;

// A transcript that has absorbed the rows, where a program with a commitment absorbs that, and the point of
// eq, which follows from it.
fn begun<F: Field>(alloc: Global, rows: &Rows<F>) -> anyhow::Result<(Transcript, Vec<F>)> {
    let mut transcript = Transcript::new(b"rows");
    for table in [&rows.a, &rows.b, &rows.c] {
        transcript.absorb(b"table", table)?;
    }
    let mut point = Vec::new(alloc);
    for _i in 0..rows.num_vars {
        point.push(transcript.challenge(alloc, b"eq")?)?;
    }
    Ok((transcript, point))
}

/// The bytes of a proof that eq * (a * b - c) adds up to zero over the rows.
pub fn proof_bytes<F: Field>(alloc: Global, rows: &Rows<F>) -> anyhow::Result<Option<Vec<u8>>> {
    let (mut transcript, point) = begun(alloc, rows)?;
    let Some(prover) = prover_of_rows(alloc, rows, &point)? else {
        return Ok(None);
    };
    let made = prove_transcript(alloc, prover, F::zero(), &mut transcript)?;
    let mut sink = IoSink::new(Vec::new(alloc));
    made.proof.serialize_compressed(&mut sink)?;
    Ok(Some(sink.into_inner()))
}

/// Whether such bytes show it: the rounds are accepted, and the value that they are reduced to is that of the
/// tables at the point.
pub fn is_shown<F: Field>(alloc: Global, rows: &Rows<F>, bytes: &[u8]) -> anyhow::Result<bool> {
    let (mut transcript, eq_point) = begun(alloc, rows)?;
    let claim = Claim {
        num_vars: rows.num_vars,
        degree: 3,
        sum: F::zero(),
    };
    let mut source = bytes;
    let proof = SumCheckProof::<F>::deserialize_compressed(alloc, &mut source)?;
    match verify_transcript(alloc, claim, &proof, &mut transcript)? {
        Verdict::Reduced(value, point) => {
            Ok(value_of_rows(alloc, rows, &eq_point, &point)? == Some(value))
        }
        Verdict::Refused(_) | Verdict::WrongCount => Ok(false),
    }
}
