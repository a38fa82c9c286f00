//! All rounds of a sum-check, by the challenges of a transcript.

ghost use Rattle.std.specs.Prelude.{◌≡◌, ◌≢◌, ◌↔◌, ℕ, List, ◌+◌, ◌-◌, ◌<◌, ◌≤◌, length, max, Vec};
ghost use Rattle.std.specs.Prelude.{IfOk, IsOkUnless, OnErr, Err};
ghost use Rattle.std.specs.declared.alloc.Global.{Global};
ghost use Rattle.ark_bytes.specs.declared.compress.Compress.{Compress};
ghost use Rattle.ark_transcript.specs.Calls.{Call};
ghost use Rattle.ark_sum_check.specs.Cube.{SumOfProducts, cube_sum, degree_of, sum_value};
ghost use Rattle.ark_sum_check.specs.Embedded.{embedded_sum};
ghost use Rattle.ark_sum_check.specs.Provers.{sum_of, variables_of};
ghost use Rattle.ark_sum_check.specs.Rounds.{AreAccepted, AreDifferent, AreTrueRounds, IsRefusedAt, IsSound};
ghost use Rattle.ark_sum_check.specs.Rounds.{IsTrueRound, rounds_at};
ghost use Rattle.ark_sum_check.specs.Verdicts.{IfReduced};
ghost use Rattle.ark_sum_check.specs.declared.verifier.Verdict.{Verdict};
ghost use Rattle.ark_fiat_shamir.specs.Derived.{AreDerived, claim_of, claim_within};

use crate::challenger::TranscriptChallenger;
use crate::proof::SumCheckProof;
use ark_sum_check::{Claim, Prover, SumCheckError, Verdict, prove, prove_within_from, verify};
use ark_traits::{ExtensionOf, Field};
use ark_transcript::Transcript;
use std::alloc::Global;

/// What a prover makes of a sum over the cube.
#[derive(Debug, Drop)]
pub struct Proved<F> {
    /// What is sent.
    pub proof: SumCheckProof<F>,
    /// Each round's challenge, to which its variable is bound: where the tables' extensions are opened. A
    /// verifier derives it too.
    pub point: Vec<F>,
}

/// All rounds, with challenges that follow from the transcript: it absorbs the claim, which is the prover's
/// number of variables, its degree and this sum, and then each round's values before its challenge. The rounds
/// are true, so a verifier accepts them where the sum is that over the cube, and reduces them to the true
/// value at the point. Of another sum the first round is refused: a caller knows the sum, as zero for a row of
/// constraints, and takes no pass over the tables for it here. An error leaves the transcript as it was. Before,
/// the transcript must have absorbed what fixes the tables, as the head of this crate says.
pub fn prove_transcript<F: Field>(
    alloc: Global,
    prover: Prover<F>,
    sum: F,
    transcript: &mut Transcript,
) -> Result<Proved<F>, SumCheckError>
    ensures rounds { IfOk result (λ made. length made.proof.rounds.items ≡ variables_of prover) }
    ensures point { IfOk result (λ made. length made.point.items ≡ variables_of prover) }
    ensures truth { IfOk result (λ made. AreTrueRounds F.field (max 1 (degree_of (sum_of F.field prover)))
        (sum_of F.field prover) (rounds_at made.proof.rounds.items made.point.items)) }
    ensures accepted { IfOk result (λ made. AreAccepted F.field (max 1 (degree_of (sum_of F.field prover)))
        (cube_sum F.field (variables_of prover) (sum_of F.field prover))
        (rounds_at made.proof.rounds.items made.point.items)
        (sum_value F.field (sum_of F.field prover) made.point.items)) }
    ensures derived { IfOk result (λ made. AreDerived F.field (F.format Compress.Yes) F.element_size
        (claim_of F.field prover sum) transcript.old
        (rounds_at made.proof.rounds.items made.point.items) transcript.new) }
    ensures kept { OnErr result (transcript.new ≡ transcript.old) }
    ensures memory { IsOkUnless result SumCheckError.Memory }
{
    let claim = Claim {
        num_vars: prover.num_vars(),
        degree: prover.degree(),
        sum,
    };
    let mut challenger = TranscriptChallenger::of_claim(alloc, &claim, transcript)?;
    let made = prove(alloc, prover, &mut challenger)?;
    *transcript = challenger.into_transcript();
    Ok(Proved {
        proof: SumCheckProof {
            rounds: made.rounds,
        },
        point: made.point,
    })
}

/// All rounds of a sum whose tables lie in a field below that of the challenges, as `prove_transcript` makes
/// them of the sum with each table's values and each coefficient embedded: the first round is made below. The
/// claim that is absorbed has this sum embedded, and so has a verifier's. An error leaves the transcript as it
/// was. Before, the transcript must have absorbed what fixes the tables, as the head of this crate says.
pub fn prove_transcript_within<F: Field, E: ExtensionOf<F>>(
    alloc: Global,
    prover: &Prover<F>,
    sum: F,
    transcript: &mut Transcript,
) -> Result<Proved<E>, SumCheckError>
    ensures rounds { IfOk result (λ made. length made.proof.rounds.items ≡ variables_of prover.now) }
    ensures point { IfOk result (λ made. length made.point.items ≡ variables_of prover.now) }
    ensures truth { IfOk result (λ made. AreTrueRounds E.field (max 1 (degree_of (sum_of F.field prover.now)))
        (embedded_sum E.within (sum_of F.field prover.now))
        (rounds_at made.proof.rounds.items made.point.items)) }
    ensures accepted { IfOk result (λ made. AreAccepted E.field (max 1 (degree_of (sum_of F.field prover.now)))
        (cube_sum E.field (variables_of prover.now) (embedded_sum E.within (sum_of F.field prover.now)))
        (rounds_at made.proof.rounds.items made.point.items)
        (sum_value E.field (embedded_sum E.within (sum_of F.field prover.now)) made.point.items)) }
    ensures derived { IfOk result (λ made. AreDerived E.field (E.format Compress.Yes) E.element_size
        (claim_within F.field E.within prover.now sum) transcript.old
        (rounds_at made.proof.rounds.items made.point.items) transcript.new) }
    ensures kept { OnErr result (transcript.new ≡ transcript.old) }
    ensures memory { IsOkUnless result SumCheckError.Memory }
{
    let first = prover.first_round(alloc)?;
    prove_transcript_within_from(alloc, prover, &first, sum, transcript)
}

/// All rounds, as `prove_transcript_within` makes them, where the values of the first one are known, as
/// `Prover::first_round` made them: they are not computed again.
pub fn prove_transcript_within_from<F: Field, E: ExtensionOf<F>>(
    alloc: Global,
    prover: &Prover<F>,
    first: &[F],
    sum: F,
    transcript: &mut Transcript,
) -> Result<Proved<E>, SumCheckError>
    requires first { 0 < variables_of prover.now → IsTrueRound F.field
        (max 1 (degree_of (sum_of F.field prover.now))) (variables_of prover.now - 1)
        (sum_of F.field prover.now) first.now }
    ensures rounds { IfOk result (λ made. length made.proof.rounds.items ≡ variables_of prover.now) }
    ensures point { IfOk result (λ made. length made.point.items ≡ variables_of prover.now) }
    ensures truth { IfOk result (λ made. AreTrueRounds E.field (max 1 (degree_of (sum_of F.field prover.now)))
        (embedded_sum E.within (sum_of F.field prover.now))
        (rounds_at made.proof.rounds.items made.point.items)) }
    ensures accepted { IfOk result (λ made. AreAccepted E.field (max 1 (degree_of (sum_of F.field prover.now)))
        (cube_sum E.field (variables_of prover.now) (embedded_sum E.within (sum_of F.field prover.now)))
        (rounds_at made.proof.rounds.items made.point.items)
        (sum_value E.field (embedded_sum E.within (sum_of F.field prover.now)) made.point.items)) }
    ensures derived { IfOk result (λ made. AreDerived E.field (E.format Compress.Yes) E.element_size
        (claim_within F.field E.within prover.now sum) transcript.old
        (rounds_at made.proof.rounds.items made.point.items) transcript.new) }
    ensures kept { OnErr result (transcript.new ≡ transcript.old) }
    ensures memory { IsOkUnless result SumCheckError.Memory }
{
    let claim = Claim {
        num_vars: prover.num_vars(),
        degree: prover.degree(),
        sum: E::embed(sum),
    };
    let mut challenger = TranscriptChallenger::of_claim(alloc, &claim, transcript)?;
    let made = prove_within_from(alloc, prover, first, &mut challenger)?;
    *transcript = challenger.into_transcript();
    Ok(Proved {
        proof: SumCheckProof {
            rounds: made.rounds,
        },
        point: made.point,
    })
}

/// What a verifier says of a proof of a claim, as `verify` of `ark_sum_check` says it, where the challenges
/// follow from the transcript: it absorbs the claim, and then each round's values before its challenge. A
/// proof that `prove_transcript` made of a true claim, after the same calls, is reduced to the true value at
/// the prover's point. What else is reduced are accepted rounds, of which `true_or_one_of_few` and
/// `few_believed_challenges` speak. A proof that isn't reduced, and an error, leave the transcript as it was.
/// Before, the transcript must have absorbed what fixes the tables, as the head of this crate says.
pub fn verify_transcript<F: Field>(
    alloc: Global,
    claim: Claim<F>,
    proof: &SumCheckProof<F>,
    transcript: &mut Transcript,
) -> Result<Verdict<F>, SumCheckError>
    ensures count { IfOk result (λ verdict. (verdict ≡ Verdict.WrongCount)
        ↔ (length proof.now.rounds.items ≢ claim.num_vars)) }
    ensures point { IfReduced result (λ value point. length point.items ≡ claim.num_vars) }
    ensures accepted { IfReduced result (λ value point.
        AreAccepted F.field claim.degree claim.sum (rounds_at proof.now.rounds.items point.items) value) }
    ensures derived { IfReduced result (λ value point.
        AreDerived F.field (F.format Compress.Yes) F.element_size claim transcript.old
        (rounds_at proof.now.rounds.items point.items) transcript.new) }
    ensures refused { IfOk result (λ verdict. (i : ℕ) → verdict ≡ Verdict.Refused i
        → (point : List F) × (after : List Call)
        × AreDerived F.field (F.format Compress.Yes) F.element_size claim transcript.old
        (rounds_at proof.now.rounds.items point) after
        × IsRefusedAt F.field claim.degree claim.sum (rounds_at proof.now.rounds.items point) i) }
    ensures complete { (point : List F) (after : List Call) (value : F) → length point ≡ claim.num_vars
        → length proof.now.rounds.items ≡ claim.num_vars
        → AreDerived F.field (F.format Compress.Yes) F.element_size claim transcript.old
        (rounds_at proof.now.rounds.items point) after
        → AreAccepted F.field claim.degree claim.sum (rounds_at proof.now.rounds.items point) value
        → IfOk result (λ verdict. (p : Vec F Global) × (p.items ≡ point) × (verdict ≡ Verdict.Reduced value p)) }
    ensures sound { IfReduced result (λ value point. (s : SumOfProducts F) → degree_of s ≤ claim.degree
        → IsSound F.field claim.degree claim.sum (rounds_at proof.now.rounds.items point.items) value s) }
    ensures different { IfReduced result (λ value point.
        0 < claim.num_vars → AreDifferent F.field (claim.degree + 1)) }
    ensures unreduced { IfOk result (λ verdict. ((value : F) (point : Vec F Global)
        → verdict ≢ Verdict.Reduced value point) → transcript.new ≡ transcript.old) }
    ensures kept { OnErr result (transcript.new ≡ transcript.old) }
    ensures small { result ≡ Err SumCheckError.SmallCharacteristic → AreDifferent F.field (claim.degree + 1) → ⊥ }
{
    let mut challenger = TranscriptChallenger::of_claim(alloc, &claim, transcript)?;
    match verify(alloc, claim, &proof.rounds, &mut challenger)? {
        Verdict::Reduced(value, point) => {
            *transcript = challenger.into_transcript();
            Ok(Verdict::Reduced(value, point))
        }
        Verdict::Refused(index) => Ok(Verdict::Refused(index)),
        Verdict::WrongCount => Ok(Verdict::WrongCount),
    }
}
