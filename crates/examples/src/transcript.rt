//! A transcript in use: a challenge that follows from what was said.

ghost use Rattle.std.specs.Prelude.{◌≡◌, IfOk};

use ark_base::Field;
use ark_transcript::Transcript;
use std::alloc::Global;

/// The point at which a commitment is opened, as the prover asks for it, and as the verifier does, with a
/// transcript of its own that has the same calls: it is one point.
pub fn opening_points<F: Field>(
    alloc: Global,
    commitment: &[u8],
    value: F,
) -> anyhow::Result<(F, F)>
    ensures { IfOk result (λ points. points.0 ≡ points.1) }
{
    let mut prover = Transcript::new(b"opening");
    prover.absorb_bytes(b"commitment", commitment);
    prover.absorb(b"value", &value)?;
    let mut verifier = Transcript::new(b"opening");
    verifier.absorb_bytes(b"commitment", commitment);
    verifier.absorb(b"value", &value)?;
    let sent = prover.challenge(alloc, b"point")?;
    let own = verifier.challenge(alloc, b"point")?;
    Ok((sent, own))
}
