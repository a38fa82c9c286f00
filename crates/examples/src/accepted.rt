//! A verifier's answer to a claim, and what it means.

ghost use Rattle.std.specs.Prelude.{◌≡◌, ◌⊎◌, ◌≤◌, IfOk, true};
ghost use Rattle.ark_sum_check.specs.Cube.{SumOfProducts, cube_sum, degree_of, sum_value};
ghost use Rattle.ark_sum_check.specs.Rounds.{HasOneOfFew, rounds_in};

use ark_base::Field;
use ark_sum_check::{Challenger, Claim, Proof, SumCheckError, Verdict, true_or_one_of_few, verify};
use std::alloc::Global;

/// Whether a proof is accepted of a claim on a sum over the cube, where the sum of products has this value at
/// the proof's point, as openings of its tables there give it. Then the claim is the sum, or at one of the
/// rounds the challenge is one of at most as many elements as the degree, which are settled before it is
/// drawn.
pub fn is_accepted<F: Field, C: Challenger<F>>(
    alloc: Global,
    claim: Claim<F>,
    proof: &Proof<F>,
    value: F,
    challenger: &mut C,
) -> Result<bool, SumCheckError>
    ensures { IfOk result (λ fits. fits ≡ true → (s : SumOfProducts F) → degree_of s ≤ claim.degree
        → value ≡ sum_value F.field s proof.now.point.items
        → (claim.sum ≡ cube_sum F.field claim.num_vars s) ⊎ HasOneOfFew F.field claim.degree s (rounds_in proof.now)) }
{
    true_or_one_of_few::<F>(claim.degree);
    match verify(alloc, claim, &proof.rounds, challenger)? {
        Verdict::Reduced(last, point) => Ok(last == value && point == proof.point),
        _ => Ok(false),
    }
}
