//! Calls of a sum-check's prover and verifier.

ghost use Rattle.std.specs.Prelude.{◌≡◌, ◌≢◌, ◌↔◌, ◌<◌, ◌-◌, ◌^◌, [], All, length, max, IfOk, true};
ghost use Rattle.ark_sum_check.specs.Cube.{bound_to, degree_of, sum_value, sum_with};
ghost use Rattle.ark_sum_check.specs.Lists.{AreWithin, as_products, as_tables};
ghost use Rattle.ark_sum_check.specs.Provers.{sum_of, variables_of};
ghost use Rattle.ark_sum_check.specs.Rounds.{AreAccepted, AreChallenged, IsRoundOf, IsTrueRound};
ghost use Rattle.ark_sum_check.specs.Rounds.{rounds_at, rounds_in};
ghost use Rattle.ark_sum_check.specs.Verdicts.{IfReduced};

use ark_base::Field;
use ark_sum_check::{
    Addend, Challenger, Claim, Proof, Prover, SumCheckError, Verdict, Verifier, prove, verify,
};
use std::alloc::Global;

/// Takes a round's values and the challenge after it, and says whether it was accepted.
pub fn taken<F: Field>(
    alloc: Global,
    verifier: &mut Verifier<F>,
    values: &[F],
    challenge: F,
) -> Result<bool, SumCheckError>
    ensures accepted { IfOk result (λ fits. fits ≡ true
        → IsRoundOf F.field verifier.old.degree verifier.old.claim values.now challenge verifier.new.claim) }
{
    verifier.take(alloc, values, challenge)
}

/// Binds the first variable to the challenge.
pub fn bound<F: Field>(prover: &mut Prover<F>, challenge: F)
    requires { 0 < variables_of prover.old }
    ensures sum { sum_of F.field prover.new ≡ bound_to F.field challenge (sum_of F.field prover.old) }
{
    prover.bind(challenge);
}

/// The first round of a sum of products.
pub fn first_round<F: Field>(
    alloc: Global,
    num_vars: usize,
    tables: Vec<Vec<F>>,
    addends: Vec<Addend<F>>,
) -> Result<Vec<F>, SumCheckError>
    requires some { 0 < num_vars }
    requires few { num_vars < 64 }
    requires whole { All (λ t. length t.items ≡ 2 ^ num_vars) tables.items }
    requires within { AreWithin (length tables.items) addends.items }
    ensures { IfOk result (λ values. IsTrueRound F.field
        (max 1 (degree_of (sum_with F.field (as_tables F.field tables.items) (as_products addends.items))))
        (num_vars - 1) (sum_with F.field (as_tables F.field tables.items) (as_products addends.items))
        values.items) }
{
    match Prover::of_sum(num_vars, tables, addends) {
        Some(prover) => prover.round(alloc),
        None => Err(SumCheckError::Memory),
    }
}

/// The value of a sum of products of tables of one value.
pub fn value_left<F: Field>(
    alloc: Global,
    tables: Vec<Vec<F>>,
    addends: Vec<Addend<F>>,
) -> Result<F, SumCheckError>
    requires whole { All (λ t. length t.items ≡ 2 ^ 0) tables.items }
    requires within { AreWithin (length tables.items) addends.items }
    ensures { IfOk result (λ value. value ≡ sum_value F.field
        (sum_with F.field (as_tables F.field tables.items) (as_products addends.items)) []) }
{
    match Prover::of_sum(0, tables, addends) {
        Some(prover) => prover.last_value(alloc),
        None => Err(SumCheckError::Memory),
    }
}

/// All rounds, each with the challenge that the challenger gives for its values.
pub fn all_rounds<F: Field, C: Challenger<F>>(
    alloc: Global,
    prover: Prover<F>,
    challenger: &mut C,
) -> Result<Proof<F>, SumCheckError>
    ensures { IfOk result (λ proof. AreChallenged C.challenge_gives challenger.old (rounds_in proof) challenger.new) }
{
    prove(alloc, prover, challenger)
}

/// What a verifier says of the values that were sent.
pub fn verified<F: Field, C: Challenger<F>>(
    alloc: Global,
    claim: Claim<F>,
    rounds: &[Vec<F>],
    challenger: &mut C,
) -> Result<Verdict<F>, SumCheckError>
    ensures count { IfOk result (λ verdict. (verdict ≡ Verdict.WrongCount) ↔ (length rounds.now ≢ claim.num_vars)) }
    ensures accepted { IfReduced result (λ value point.
        AreAccepted F.field claim.degree claim.sum (rounds_at rounds.now point.items) value) }
    ensures drawn { IfReduced result (λ value point.
        AreChallenged C.challenge_gives challenger.old (rounds_at rounds.now point.items) challenger.new) }
{
    verify(alloc, claim, rounds, challenger)
}
