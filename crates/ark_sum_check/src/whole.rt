//! A prover's rounds from the first to the last.

ghost use Rattle.std.specs.Prelude.{◌≡◌, ◌-◌, ◌<◌, [], ◌∷◌, length, max, IfOk, IsOkUnless};
ghost use Rattle.ark_sum_check.specs.Cube.{cube_sum, degree_of, sum_value};
ghost use Rattle.ark_sum_check.specs.Embedded.{embedded_sum};
ghost use Rattle.ark_sum_check.specs.Provers.{factor_of, sum_of, variables_of};
ghost use Rattle.ark_sum_check.specs.Rounds.{AreAccepted, AreChallenged, AreTrueRounds, IsTrueRound, rounds_in};

use crate::challenger::Challenger;
use crate::error::SumCheckError;
use crate::proof::Proof;
use crate::prover::Prover;
use crate::sparse::SparseProver;
use ark_traits::{ExtensionOf, Field};
use std::alloc::Global;

/// All rounds, with challenges as they come, each of which the challenger gives for the values of its round.
/// Whatever these are, the rounds are true and so accepted of the sum over the cube, with the true value
/// at the challenges as the last claim.
pub fn prove<F: Field, C: Challenger<F>>(
    alloc: Global,
    prover: Prover<F>,
    challenger: &mut C,
) -> Result<Proof<F>, SumCheckError>
    ensures rounds { IfOk result (λ proof. length proof.rounds.items ≡ variables_of prover) }
    ensures point { IfOk result (λ proof. length proof.point.items ≡ variables_of prover) }
    ensures truth { IfOk result (λ proof. AreTrueRounds F.field (max 1 (degree_of (sum_of F.field prover)))
        (sum_of F.field prover) (rounds_in proof)) }
    ensures accepted { IfOk result (λ proof. AreAccepted F.field (max 1 (degree_of (sum_of F.field prover)))
        (cube_sum F.field (variables_of prover) (sum_of F.field prover)) (rounds_in proof)
        (sum_value F.field (sum_of F.field prover) proof.point.items)) }
    ensures drawn { IfOk result (λ proof.
        AreChallenged C.challenge_gives challenger.old (rounds_in proof) challenger.new) }
    ensures memory { IsOkUnless result SumCheckError.Memory }
{
    let mut left = prover;
    let mut rounds = Vec::with_capacity(alloc, left.num_vars())?;
    let mut point = Vec::with_capacity(alloc, left.num_vars())?;
    'variables: while left.num_vars() > 0 {
        let values = left.round(alloc)?;
        let challenge = challenger.challenge(&values);
        left.bind(challenge);
        rounds.push(values)?;
        point.push(challenge)?;
    }
    Ok(Proof { rounds, point })
}

/// All rounds of a factor that is given by its entries, as `prove` makes them of one that is given by all its
/// values.
pub fn prove_sparse<F: Field, C: Challenger<F>>(
    alloc: Global,
    prover: SparseProver<F>,
    challenger: &mut C,
) -> Result<Proof<F>, SumCheckError>
    ensures rounds { IfOk result (λ proof. length proof.rounds.items ≡ prover.variables) }
    ensures point { IfOk result (λ proof. length proof.point.items ≡ prover.variables) }
    ensures truth { IfOk result (λ proof. AreTrueRounds F.field 1 (factor_of F.field prover) (rounds_in proof)) }
    ensures accepted { IfOk result (λ proof. AreAccepted F.field 1
        (cube_sum F.field prover.variables (factor_of F.field prover)) (rounds_in proof)
        (sum_value F.field (factor_of F.field prover) proof.point.items)) }
    ensures drawn { IfOk result (λ proof.
        AreChallenged C.challenge_gives challenger.old (rounds_in proof) challenger.new) }
    ensures memory { IsOkUnless result SumCheckError.Memory }
{
    let mut left = prover;
    let mut rounds = Vec::with_capacity(alloc, left.num_vars())?;
    let mut point = Vec::with_capacity(alloc, left.num_vars())?;
    'variables: while left.num_vars() > 0 {
        let values = left.round(alloc)?;
        let challenge = challenger.challenge(&values);
        left.bind(challenge);
        rounds.push(values)?;
        point.push(challenge)?;
    }
    Ok(Proof { rounds, point })
}

/// All rounds of a sum whose tables lie in a field below that of the challenges, as `prove` makes them of the
/// sum with each table's values and each coefficient embedded: the first round is made below.
pub fn prove_within<F: Field, E: ExtensionOf<F>, C: Challenger<E>>(
    alloc: Global,
    prover: &Prover<F>,
    challenger: &mut C,
) -> Result<Proof<E>, SumCheckError>
    ensures rounds { IfOk result (λ proof. length proof.rounds.items ≡ variables_of prover.now) }
    ensures point { IfOk result (λ proof. length proof.point.items ≡ variables_of prover.now) }
    ensures truth { IfOk result (λ proof. AreTrueRounds E.field (max 1 (degree_of (sum_of F.field prover.now)))
        (embedded_sum E.within (sum_of F.field prover.now)) (rounds_in proof)) }
    ensures accepted { IfOk result (λ proof. AreAccepted E.field (max 1 (degree_of (sum_of F.field prover.now)))
        (cube_sum E.field (variables_of prover.now) (embedded_sum E.within (sum_of F.field prover.now)))
        (rounds_in proof)
        (sum_value E.field (embedded_sum E.within (sum_of F.field prover.now)) proof.point.items)) }
    ensures drawn { IfOk result (λ proof.
        AreChallenged C.challenge_gives challenger.old (rounds_in proof) challenger.new) }
    ensures memory { IsOkUnless result SumCheckError.Memory }
{
    let first = prover.first_round(alloc)?;
    prove_within_from(alloc, prover, &first, challenger)
}

/// All rounds, as `prove_within` makes them, where the values of the first one are known, as `first_round` made
/// them: they are not computed again.
pub fn prove_within_from<F: Field, E: ExtensionOf<F>, C: Challenger<E>>(
    alloc: Global,
    prover: &Prover<F>,
    first: &[F],
    challenger: &mut C,
) -> Result<Proof<E>, SumCheckError>
    requires first { 0 < variables_of prover.now → IsTrueRound F.field
        (max 1 (degree_of (sum_of F.field prover.now))) (variables_of prover.now - 1)
        (sum_of F.field prover.now) first.now }
    ensures rounds { IfOk result (λ proof. length proof.rounds.items ≡ variables_of prover.now) }
    ensures point { IfOk result (λ proof. length proof.point.items ≡ variables_of prover.now) }
    ensures truth { IfOk result (λ proof. AreTrueRounds E.field (max 1 (degree_of (sum_of F.field prover.now)))
        (embedded_sum E.within (sum_of F.field prover.now)) (rounds_in proof)) }
    ensures accepted { IfOk result (λ proof. AreAccepted E.field (max 1 (degree_of (sum_of F.field prover.now)))
        (cube_sum E.field (variables_of prover.now) (embedded_sum E.within (sum_of F.field prover.now)))
        (rounds_in proof)
        (sum_value E.field (embedded_sum E.within (sum_of F.field prover.now)) proof.point.items)) }
    ensures drawn { IfOk result (λ proof.
        AreChallenged C.challenge_gives challenger.old (rounds_in proof) challenger.new) }
    ensures memory { IsOkUnless result SumCheckError.Memory }
{
    if prover.num_vars() == 0 {
        return Ok(no_rounds(alloc));
    }
    let values = prover.embedded_round(alloc, first)?;
    let challenge = challenger.challenge(&values);
    let left = prover.bind_within(alloc, challenge)?;
    let rest = prove(alloc, left, challenger)?;
    let proof = with_first(rest, values, challenge)?;
    Ok(proof)
}

fn no_rounds<F: Drop>(alloc: Global) -> Proof<F>
    ensures rounds { result.rounds.items ≡ [] }
    ensures point { result.point.items ≡ [] }
{
    Proof {
        rounds: Vec::new(alloc),
        point: Vec::new(alloc),
    }
}

// One round before the others.
fn with_first<F: Drop>(
    mut rest: Proof<F>,
    values: Vec<F>,
    challenge: F,
) -> Result<Proof<F>, SumCheckError>
    ensures rounds { IfOk result (λ proof. proof.rounds.items ≡ values ∷ rest.rounds.items) }
    ensures point { IfOk result (λ proof. proof.point.items ≡ challenge ∷ rest.point.items) }
    ensures memory { IsOkUnless result SumCheckError.Memory }
{
    rest.rounds.insert(0, values)?;
    rest.point.insert(0, challenge)?;
    Ok(rest)
}
