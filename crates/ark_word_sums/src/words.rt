//! Elements of the field of the challenges as words.

ghost use Rattle.std.specs.Prelude.{◌≡◌, ◌*◌, ◌%◌, IfErr, IfOk, length};
ghost use Rattle.ark_words.specs.Faults.{IsRefusal};
ghost use Rattle.ark_words.specs.Numbers.{AreReduced, numbers};
ghost use Rattle.ark_word_sums.specs.Challenges.{AreElementsOf, element_words};

use crate::challenge::ChallengeOf;
use crate::element::{SumElement, SumNumbers};
use ark_words::{WordElement, WordsError, elements};
use std::alloc::Global;

/// Writes the words of an element.
pub fn put_challenge<F: SumElement>(words: &mut [u64], challenge: &F::Challenge)
    requires { length words.old ≡ element_words ⟦<F as SumNumbers>⟧.checked }
    ensures { numbers F.WIDTH words.new ≡ ⟦<F as SumNumbers>⟧.checked.coefficients challenge.now }
{
    let width = F::WIDTH;
    for i in 0..F::Challenge::DEGREE {
        let coefficient: F = challenge.coefficient(i);
        coefficient.write_words(&mut words[i * width..(i + 1) * width]);
    }
}

/// Writes the words of elements, one after another.
pub fn put_challenges<F: SumElement>(words: &mut [u64], challenges: &[F::Challenge])
    requires { length words.old ≡ length challenges.now * element_words ⟦<F as SumNumbers>⟧.checked }
    ensures { AreElementsOf ⟦<F as SumNumbers>⟧.checked challenges.now words.new }
{
    let width = F::challenge_width();
    for i in 0..challenges.len() {
        put_challenge::<F>(&mut words[i * width..(i + 1) * width], &challenges[i]);
    }
}

/// The elements that the words spell.
pub fn challenges<F: SumElement>(
    alloc: Global,
    words: &[u64],
) -> Result<Vec<F::Challenge>, WordsError>
    requires { length words.now % element_words ⟦<F as SumNumbers>⟧.checked ≡ 0 }
    ensures elements { IfOk result (λ items.
        AreElementsOf ⟦<F as SumNumbers>⟧.checked items.items words.now) }
    ensures refusal { IfErr result (IsRefusal (AreReduced F.spelled words.now) WordsError.Memory) }
{
    let degree = F::Challenge::DEGREE;
    let coefficients = elements::<F>(alloc, words)?;
    let count = coefficients.len() / degree;
    let Ok(mut found) = Vec::with_capacity(alloc, count) else {
        return Err(WordsError::Memory);
    };
    for i in 0..count {
        let challenge = F::Challenge::of_coefficients(&coefficients[i * degree..(i + 1) * degree]);
        let Ok(()) = found.push(challenge) else {
            return Err(WordsError::Memory);
        };
    }
    Ok(found)
}
