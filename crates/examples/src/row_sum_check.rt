//! A sum-check without interaction of rows of constraints, a * b = c: that eq * (a * b - c) adds up to zero.

ghost use Rattle.std.specs.Prelude.{◌≡◌, IfOk, Vec};
ghost use Rattle.std.specs.declared.alloc.Global.{Global};
ghost use Rattle.ark_sum_check.specs.Cube.{cube_sum, sum_value};
ghost use Rattle.ark_sum_check.specs.Provers.{sum_of, variables_of};
ghost use Rattle.ark_sum_check.specs.declared.verifier.Verdict.{Verdict};

use ark_base::Field;
use ark_bytes::{Compress, written_then_read};
use ark_fiat_shamir::{prove_transcript, verify_transcript};
use ark_sum_check::{Claim, Prover, Verdict};
use ark_transcript::Transcript;
use std::alloc::Global;

/// What a verifier says of the proof of a prover, once it was written to bytes and read back. Where the prover's
/// sum is zero, it is reduced to the true value at the point. Both first absorb a commitment to the tables, so
/// that no prover can choose them by the challenges.
pub fn row_sum_check<F: Field>(
    alloc: Global,
    prover: Prover<F>,
    commitment: &[u8],
) -> anyhow::Result<Verdict<F>>
    ensures { cube_sum F.field (variables_of prover) (sum_of F.field prover) ≡ F.field.zero
        → IfOk result (λ verdict. (point : Vec F Global)
        × (verdict ≡ Verdict.Reduced (sum_value F.field (sum_of F.field prover) point.items) point)) }
{
    let claim = Claim {
        num_vars: prover.num_vars(),
        degree: prover.degree(),
        sum: F::zero(),
    };
    let mut transcript = Transcript::new(b"rows");
    transcript.absorb_bytes(b"tables", commitment);
    let made = prove_transcript(alloc, prover, F::zero(), &mut transcript)?;
    let proof = written_then_read(alloc, &made.proof, Compress::Yes)?;
    let mut again = Transcript::new(b"rows");
    again.absorb_bytes(b"tables", commitment);
    let verdict = verify_transcript(alloc, claim, &proof, &mut again)?;
    Ok(verdict)
}
