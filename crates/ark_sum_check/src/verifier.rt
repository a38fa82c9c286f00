//! The verifier of a sum-check.

ghost use Rattle.std.specs.Prelude.{◌≡◌, ◌≢◌, ◌↔◌, ℕ, List, ◌+◌, ◌<◌, ◌≤◌, length, Vec};
ghost use Rattle.std.specs.Prelude.{IfOk, IsTrue, OnErr, Err, true, false};
ghost use Rattle.std.specs.declared.alloc.Global.{Global};
ghost use Rattle.ark_sum_check.specs.Cube.{SumOfProducts, degree_of};
ghost use Rattle.ark_sum_check.specs.Rounds.{AddsUp, AreAccepted, AreChallenged, AreDifferent, IsDetermined};
ghost use Rattle.ark_sum_check.specs.Rounds.{IsRefusedAt, IsRoundOf, IsSound, rounds_at};
ghost use Rattle.ark_sum_check.specs.Verdicts.{IfReduced};

use crate::challenger::Challenger;
use crate::error::SumCheckError;
use crate::through::value_through;
use ark_traits::Field;
use std::alloc::Global;

/// What is claimed of a sum of products, which a verifier needn't know.
#[derive(Clone, Copy, Debug, Drop)]
pub struct Claim<F> {
    /// The number of variables.
    pub num_vars: usize,
    /// The degree that each round's polynomial may have, as a prover's `degree` tells it. With 0 every round is
    /// refused.
    pub degree: usize,
    /// What the sum over the cube is claimed to be.
    pub sum: F,
}

/// A verifier between two rounds: what is claimed of the rounds that are left.
///
/// ```
/// let mut verifier = Verifier { degree: 2, claim };
/// let fits = verifier.take(alloc, &values, challenge)?; // for each round, of which the challenge is drawn
/// // then compare verifier.claim with the sum's value at the challenges
/// ```
#[derive(Clone, Copy, Debug, Drop)]
pub struct Verifier<F> {
    /// The degree that each round's polynomial may have.
    pub degree: usize,
    /// What the sum over the variables that are left is claimed to be.
    pub claim: F,
}

/// What a verifier says of a proof.
#[derive(Debug, Drop)]
pub enum Verdict<F> {
    /// Each round was accepted. What is left to check: that the sum of products has this value at this point,
    /// the challenges.
    Reduced(F, Vec<F>),
    /// The round with this index was refused: it hasn't one value more than the degree, two at least, or those
    /// at 0 and 1 don't add up to the claim before it.
    Refused(usize),
    /// There are not as many rounds as variables.
    WrongCount,
}

impl<F: Field> Verifier<F> {
    /// Takes a round's values and the challenge after it, and says whether it was accepted: whether it has
    /// one value more than the degree, two at least, and those at 0 and 1 add up to the claim. Then the claim
    /// becomes the value at the challenge. A verifier that refused a round, or answered an error, is as it
    /// was. `SmallCharacteristic` where the round is one to accept and 0, 1, .., d are not different elements.
    pub fn take(&mut self, alloc: Global, values: &[F], challenge: F) -> Result<bool, SumCheckError>
        ensures accepted { IfOk result (λ fits. fits ≡ true
            → IsRoundOf F.field self.old.degree self.old.claim values.now challenge self.new.claim) }
        ensures only { (next : F) → IsRoundOf F.field self.old.degree self.old.claim values.now challenge next
            → IfOk result (λ fits. (fits ≡ true) × (next ≡ self.new.claim)) }
        ensures refused { IfOk result (λ fits. fits ≡ false
            → AddsUp F.field self.old.degree self.old.claim values.now → ⊥) }
        ensures different { IfOk result (λ fits. fits ≡ true → AreDifferent F.field (self.old.degree + 1)) }
        ensures degree { self.new.degree ≡ self.old.degree }
        ensures kept { IfOk result (λ fits. fits ≡ false → self.new ≡ self.old) }
        ensures unchanged { OnErr result (self.new ≡ self.old) }
        ensures small { result ≡ Err SumCheckError.SmallCharacteristic
            → AreDifferent F.field (self.old.degree + 1) → ⊥ }
    {
        if !self.adds_up(values) {
            return Ok(false);
        }
        self.claim = value_through(alloc, values, challenge)?;
        Ok(true)
    }

    /// Whether a round with these values is one that `take` accepts.
    pub fn adds_up(&self, values: &[F]) -> bool
        ensures { IsTrue result ↔ AddsUp F.field self.now.degree self.now.claim values.now }
    {
        if values.len() < 2 || values.len() - 1 != self.degree {
            return false;
        }
        let sum = values[0] + values[1];
        sum == self.claim
    }
}

/// What a verifier says of a proof of a claim: of each round's values, as they were sent. The challenges are
/// drawn here, each for its round's values, and none comes from the prover. A false claim is reduced to a
/// false value, unless a round is unlucky; how few challenges make one so, say `few_unlucky_challenges` and
/// `few_believed_challenges`. Where a claim of one variable or more is reduced, 0, 1, .., d are different
/// elements.
pub fn verify<F: Field, C: Challenger<F>>(
    alloc: Global,
    claim: Claim<F>,
    rounds: &[Vec<F>],
    challenger: &mut C,
) -> Result<Verdict<F>, SumCheckError>
    ensures count { IfOk result (λ verdict. (verdict ≡ Verdict.WrongCount) ↔ (length rounds.now ≢ claim.num_vars)) }
    ensures point { IfReduced result (λ value point. length point.items ≡ claim.num_vars) }
    ensures accepted { IfReduced result (λ value point.
        AreAccepted F.field claim.degree claim.sum (rounds_at rounds.now point.items) value) }
    ensures drawn { IfReduced result (λ value point.
        AreChallenged C.challenge_gives challenger.old (rounds_at rounds.now point.items) challenger.new) }
    ensures refused { IfOk result (λ verdict. (i : ℕ) → verdict ≡ Verdict.Refused i → (point : List F)
        × AreChallenged C.challenge_gives challenger.old (rounds_at rounds.now point) challenger.new
        × IsRefusedAt F.field claim.degree claim.sum (rounds_at rounds.now point) i) }
    ensures complete { (point : List F) (end : C) (value : F) → IsDetermined C.challenge_gives
        → length point ≡ claim.num_vars → length rounds.now ≡ claim.num_vars
        → AreChallenged C.challenge_gives challenger.old (rounds_at rounds.now point) end
        → AreAccepted F.field claim.degree claim.sum (rounds_at rounds.now point) value
        → IfOk result (λ verdict. (p : Vec F Global) × (p.items ≡ point) × (verdict ≡ Verdict.Reduced value p)) }
    ensures sound { IfReduced result (λ value point. (s : SumOfProducts F) → degree_of s ≤ claim.degree
        → IsSound F.field claim.degree claim.sum (rounds_at rounds.now point.items) value s) }
    ensures different { IfReduced result (λ value point.
        0 < claim.num_vars → AreDifferent F.field (claim.degree + 1)) }
    ensures small { result ≡ Err SumCheckError.SmallCharacteristic → AreDifferent F.field (claim.degree + 1) → ⊥ }
{
    if rounds.len() != claim.num_vars {
        return Ok(Verdict::WrongCount);
    }
    let mut verifier = Verifier {
        degree: claim.degree,
        claim: claim.sum,
    };
    let mut point = Vec::with_capacity(alloc, rounds.len())?;
    for (index, values) in rounds.iter().enumerate() {
        let challenge = challenger.challenge(values);
        point.push(challenge)?;
        let fits = verifier.take(alloc, values, challenge)?;
        if !fits {
            return Ok(Verdict::Refused(index));
        }
    }
    Ok(Verdict::Reduced(verifier.claim, point))
}
