//! What proofs in bytes tell, stated as contracts of functions that callers may cite: they promise nothing
//! but their contracts.

ghost use Rattle.std.specs.Prelude.{◌≡◌, ◌⊎◌, ℕ, List, ◌^◌, ◌<◌, All, length};
ghost use Rattle.ark_numbers.specs.Fields.{operations};
ghost use Rattle.ark_sum_check.specs.Cube.{Product, cube_sum, sum_value};
ghost use Rattle.ark_sum_check.specs.Rounds.{HasOneOfFew, Round, challenges};
ghost use Rattle.ark_words.specs.Numbers.{AreReduced};
ghost use Rattle.ark_word_sums.specs.Challenges.{AreElementsOf, element_words};
ghost use Rattle.ark_word_sums.specs.Proofs.{IsProof, IsReducedTo, IsSumValue, IsUnluckyProof};
ghost use Rattle.ark_word_sums.specs.Proofs.{ProvesNumber, claim_by, sum_over};
ghost use Rattle.ark_word_sums.specs.Sums.{AreCoefficients, IsSum, sum_by};

use crate::element::{SumElement, SumNumbers};
use ark_words::one_list_of_words;

/// A law: words are those of one list of elements of the field of the challenges. So points and values are
/// equal where their words are.
pub fn one_list_of_elements<F: SumElement>()
    ensures { (words : List ℕ) (xs ys : List F.Challenge) → AreElementsOf ⟦<F as SumNumbers>⟧.checked xs words
        → AreElementsOf ⟦<F as SumNumbers>⟧.checked ys words → xs ≡ ys }
{}

/// A law: bytes are a proof of a given claim in one way. So what `verify` leaves of the bytes that `prove`
/// wrote, for the sum that it wrote, is the true value.
pub fn one_reduction<F: SumElement>()
    ensures { let c = ⟦<F as SumNumbers>⟧.checked in
        (label statement bytes : List ℕ) (m d n : ℕ) (rounds others : List (Round F.Challenge))
        (last other : F.Challenge) → d < 2 ^ 16
        → IsProof c label statement (claim_by c m d n) bytes rounds last
        → IsProof c label statement (claim_by c m d n) bytes others other
        → (rounds ≡ others) × (last ≡ other) }
{}

/// A law: of a proof of a number, whose last claim is the true value of the sum at the challenges, this
/// number is the sum over the cube, or at one of the rounds the challenge is one of at most `d` elements,
/// which are settled by the sum, the challenges before it and the round's values. How few challenges these
/// are, of 2^123 or more, says `few_believed_challenges` of `ark_sum_check`.
pub fn true_or_one_of_few<F: SumElement>()
    ensures { let c = ⟦<F as SumNumbers>⟧.checked in
        (label statement bytes tables addends : List ℕ) (m d n : ℕ) (ps : List (Product ℕ))
        (rounds : List (Round F.Challenge)) (last : F.Challenge) → d < 2 ^ 16 → n < F.spelled.known.modulus
        → IsSum F.spelled m d tables addends ps → AreReduced F.spelled tables → AreCoefficients F.spelled ps
        → IsProof c label statement (claim_by c m d n) bytes rounds last
        → last ≡ sum_value c.field (sum_over c m tables ps) (challenges rounds)
        → (n ≡ cube_sum (operations F.spelled.known) m (sum_by F.spelled m tables ps))
        ⊎ HasOneOfFew c.field d (sum_over c m tables ps) rounds }
{}

/// The law of words alone for honest provers: of bytes that `prove` wrote, for the sum that it wrote, `verify`
/// leaves the very words that `value_at` writes at the point.
pub fn honest_is_shown<F: SumElement>()
    ensures { let c = ⟦<F as SumNumbers>⟧.checked in
        (label statement bytes tables point value found : List ℕ) (m d n : ℕ) (ps : List (Product ℕ))
        → d < 2 ^ 16 → ProvesNumber c label statement m d tables ps n bytes
        → IsReducedTo c label statement (claim_by c m d n) bytes point value
        → IsSumValue c m tables ps point found
        → length value ≡ element_words c → length found ≡ element_words c
        → All (λ word. word < 2 ^ 64) value → All (λ word. word < 2 ^ 64) found → found ≡ value }
{
    one_list_of_elements::<F>();
    one_list_of_words::<F>();
    one_reduction::<F>();
}

/// The law of words alone: where `verify` leaves a point and a value, and `value_at` writes this value at
/// this point, the number is the sum over the cube, or a round of the proof is unlucky.
pub fn shown_or_unlucky<F: SumElement>()
    ensures { let c = ⟦<F as SumNumbers>⟧.checked in
        (label statement bytes tables addends point value : List ℕ) (m d n : ℕ) (ps : List (Product ℕ))
        → d < 2 ^ 16 → n < F.spelled.known.modulus
        → IsSum F.spelled m d tables addends ps → AreReduced F.spelled tables → AreCoefficients F.spelled ps
        → IsReducedTo c label statement (claim_by c m d n) bytes point value
        → IsSumValue c m tables ps point value
        → (n ≡ cube_sum (operations F.spelled.known) m (sum_by F.spelled m tables ps))
        ⊎ IsUnluckyProof c label statement m d tables ps n bytes }
{
    one_list_of_elements::<F>();
    true_or_one_of_few::<F>();
}
