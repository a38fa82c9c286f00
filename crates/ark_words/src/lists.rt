//! Lists of words as lists of elements, and back.

ghost use Rattle.std.specs.Prelude.{◌≡◌, ◌↔◌, ◌%◌, ◌*◌, ◌<◌, map, length, All, IfOk};
ghost use Rattle.std.specs.Prelude.{IfErr, IsTrue, MatchOption};
ghost use Rattle.ark_words.specs.Faults.{IsRefusal};
ghost use Rattle.ark_words.specs.Numbers.{numbers};

use crate::element::WordElement;
use crate::error::WordsError;
use std::alloc::{AllocError, Global};

/// The elements of the numbers that the words spell. Memory is no matter where a number isn't below the
/// modulus.
pub fn elements<F: WordElement>(alloc: Global, words: &[u64]) -> Result<Vec<F>, WordsError>
    ensures numbers { IfOk result (λ items. map F.numbering.number items.items ≡ numbers F.WIDTH words.now) }
    ensures refusal { IfErr result (IsRefusal (All (λ x. x < F.modulus) (numbers F.WIDTH words.now))
        WordsError.Memory) }
{
    match read(alloc, words) {
        Ok(Some(items)) => Ok(items),
        Ok(None) => Err(WordsError::NotReduced),
        Err(_) => Err(refusal::<F>(words, WordsError::Memory)),
    }
}

/// This error, or that a number isn't below the modulus.
pub fn refusal<F: WordElement>(words: &[u64], error: WordsError) -> WordsError
    ensures { IsRefusal (All (λ x. x < F.modulus) (numbers F.WIDTH words.now)) error result }
{
    if are_reduced::<F>(words) {
        error
    } else {
        WordsError::NotReduced
    }
}

/// The elements of two lists. Memory is no matter where a number of either isn't below the modulus.
pub fn both<F: WordElement>(
    alloc: Global,
    left: &[u64],
    right: &[u64],
) -> Result<(Vec<F>, Vec<F>), WordsError>
    ensures left { IfOk result (λ p. map F.numbering.number p.0.items ≡ numbers F.WIDTH left.now) }
    ensures right { IfOk result (λ p. map F.numbering.number p.1.items ≡ numbers F.WIDTH right.now) }
    ensures refusal { IfErr result (IsRefusal (All (λ x. x < F.modulus) (numbers F.WIDTH left.now)
        × All (λ x. x < F.modulus) (numbers F.WIDTH right.now)) WordsError.Memory) }
{
    let Ok(first) = elements::<F>(alloc, left) else {
        return Err(refusal_of_both::<F>(left, right, WordsError::Memory));
    };
    let Ok(second) = elements::<F>(alloc, right) else {
        return Err(refusal_of_both::<F>(left, right, WordsError::Memory));
    };
    Ok((first, second))
}

/// This error, or that a number of either list isn't below the modulus.
pub fn refusal_of_both<F: WordElement>(left: &[u64], right: &[u64], error: WordsError) -> WordsError
    ensures { IsRefusal (All (λ x. x < F.modulus) (numbers F.WIDTH left.now)
        × All (λ x. x < F.modulus) (numbers F.WIDTH right.now)) error result }
{
    if are_reduced::<F>(left) && are_reduced::<F>(right) {
        error
    } else {
        WordsError::NotReduced
    }
}

/// Whether all numbers are below the modulus.
pub fn are_reduced<F: WordElement>(words: &[u64]) -> bool
    ensures { IsTrue result ↔ All (λ x. x < F.modulus) (numbers F.WIDTH words.now) }
{
    let width = F::WIDTH;
    for i in 0..words.len() / width {
        if F::from_words(&words[i * width..(i + 1) * width]).is_none() {
            return false;
        }
    }
    true
}

// The elements, and `None` where a number isn't below the modulus: both in one pass.
fn read<F: WordElement>(alloc: Global, words: &[u64]) -> Result<Option<Vec<F>>, AllocError>
    ensures { IfOk result (λ read. MatchOption read (¬ All (λ x. x < F.modulus) (numbers F.WIDTH words.now))
        (λ items. map F.numbering.number items.items ≡ numbers F.WIDTH words.now)) }
{
    let width = F::WIDTH;
    let count = words.len() / width;
    let mut items = Vec::with_capacity(alloc, count)?;
    for i in 0..count {
        let Some(item) = F::from_words(&words[i * width..(i + 1) * width]) else {
            return Ok(None);
        };
        items.push(item)?;
    }
    Ok(Some(items))
}

/// Writes the words of the elements' numbers in their places.
pub fn put<F: WordElement>(words: &mut [u64], items: &[F])
    requires { length words.old ≡ length items.now * F.WIDTH }
    ensures { numbers F.WIDTH words.new ≡ map F.numbering.number items.now }
{
    let width = F::WIDTH;
    for i in 0..items.len() {
        items[i].write_words(&mut words[i * width..(i + 1) * width]);
    }
}
