//! What rounds tell, stated as the contracts of functions that callers may cite: they promise nothing but
//! their contracts.

ghost use Rattle.std.specs.Prelude.{◌≡◌, ◌≢◌, ◌⊎◌, ℕ, List, ◌+◌, ◌-◌, ◌*◌, ◌^◌, ◌<◌, ◌≤◌, length};
ghost use Rattle.ark_sum_check.specs.Cube.{SumOfProducts, cube_sum, degree_of, sum_value};
ghost use Rattle.ark_sum_check.specs.Rounds.{AreAccepted, AreChosen, AreDifferent, AtMost, HasOneOfFew, IsBelieved};
ghost use Rattle.ark_sum_check.specs.Rounds.{IsUnlucky, Round, Strategy, challenges};

use ark_traits::Field;

/// A law: whatever a round's values are, so many challenges at most are unlucky as the degree is. So of a
/// claim that isn't the sum, each round lets at most `degree` of all elements lead to a true claim.
pub fn few_unlucky_challenges<F: Field>(degree: usize)
    requires { AreDifferent F.field (degree + 1) }
    ensures { (m : ℕ) (s : SumOfProducts F) (values : List F) → length values ≡ degree + 1
        → AtMost degree (IsUnlucky F.field degree m s values) }
{}

/// A law of all rounds: where they are accepted of a claim, and the last claim is the true value at the
/// challenges, the claim is the sum over the cube, or at one of the rounds the challenge is one of at most
/// `degree` elements, which are settled by the sum, the challenges before it and the round's values.
/// Clauses of `verify` give what is asked.
pub fn true_or_one_of_few<F: Field>(degree: usize)
    ensures { (claim : F) (rounds : List (Round F)) (last : F) (s : SumOfProducts F) → degree_of s ≤ degree
        → (0 < length rounds → AreDifferent F.field (degree + 1))
        → AreAccepted F.field degree claim rounds last
        → last ≡ sum_value F.field s (challenges rounds)
        → (claim ≡ cube_sum F.field (length rounds) s) ⊎ HasOneOfFew F.field degree s rounds }
{}

/// A law of all challenges together: whatever a prover sends, each round's values by the challenges before
/// it, of a false claim. Of all vectors of `m` challenges from a list of choices at most `m * degree * n^(m -
/// 1)` lead from it to the true value, for `n` choices. Where these are different elements there are `n^m`
/// vectors: a false claim is believed with probability `m * degree / n` at most.
pub fn few_believed_challenges<F: Field>(degree: usize)
    requires { AreDifferent F.field (degree + 1) }
    ensures { (claim : F) (sends : Strategy F) (s : SumOfProducts F) (choices : List F) (m : ℕ)
        → degree_of s ≤ degree → claim ≢ cube_sum F.field m s
        → AtMost (m * degree * length choices ^ (m - 1))
        (λ xs. AreChosen choices m xs × IsBelieved F.field degree claim sends s xs) }
{}
