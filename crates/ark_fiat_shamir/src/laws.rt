//! What challenges that are derived tell, stated as the contracts of functions that callers may cite: they
//! promise nothing but their contracts.

ghost use Rattle.std.specs.Prelude.{◌≡◌, List};
ghost use Rattle.ark_bytes.specs.declared.compress.Compress.{Compress};
ghost use Rattle.ark_transcript.specs.Calls.{Call};
ghost use Rattle.ark_sum_check.specs.Rounds.{IsDetermined, Round};
ghost use Rattle.ark_sum_check.specs.declared.verifier.Claim.{Claim};
ghost use Rattle.ark_fiat_shamir.specs.Derived.{AreDerived, IsRoundChallenge};

use ark_traits::Field;

/// A law: after the same calls a round's values have one challenge, and the same calls after it. `verify` of
/// `ark_sum_check` asks it of a challenger that knows the prover's challenges.
pub fn one_challenge_a_round<F: Field>()
    ensures { IsDetermined (IsRoundChallenge F.field (F.format Compress.Yes) F.element_size) }
{}

/// A law: the same rounds of one claim, derived after the same calls, leave the same calls. So the
/// transcripts of a prover and a verifier go on alike.
pub fn one_transcript_after<F: Field>()
    ensures { (claim : Claim F) (calls : List Call) (rounds : List (Round F)) (after other : List Call)
        → AreDerived F.field (F.format Compress.Yes) F.element_size claim calls rounds after
        → AreDerived F.field (F.format Compress.Yes) F.element_size claim calls rounds other → after ≡ other }
{}
