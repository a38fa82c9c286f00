//! Lists of words as elements whose multiples by the unit have these numbers: for maps that keep multiples.

ghost use Rattle.std.specs.Prelude.{◌≡◌, ◌*◌, ◌<◌, map, length, All, IfOk, IfErr, MatchOption};
ghost use Rattle.ark_words.specs.Faults.{IsRefusal};
ghost use Rattle.ark_words.specs.Numbers.{numbers};

use crate::element::WordElement;
use crate::error::WordsError;
use crate::lists::refusal;
use std::alloc::{AllocError, Global};

/// The elements whose multiples by the unit have the numbers that the words spell. Memory is no matter
/// where a number isn't below the modulus.
pub fn scaled_elements<F: WordElement>(alloc: Global, words: &[u64]) -> Result<Vec<F>, WordsError>
    ensures numbers { IfOk result (λ items. map (λ x. F.numbering.number (F.field.times F.unit x)) items.items
        ≡ numbers F.WIDTH words.now) }
    ensures refusal { IfErr result (IsRefusal (All (λ x. x < F.modulus) (numbers F.WIDTH words.now))
        WordsError.Memory) }
{
    match read_scaled(alloc, words) {
        Ok(Some(items)) => Ok(items),
        Ok(None) => Err(WordsError::NotReduced),
        Err(_) => Err(refusal::<F>(words, WordsError::Memory)),
    }
}

// The elements, and `None` where a number isn't below the modulus: both in one pass.
fn read_scaled<F: WordElement>(alloc: Global, words: &[u64]) -> Result<Option<Vec<F>>, AllocError>
    ensures { IfOk result (λ read. MatchOption read (¬ All (λ x. x < F.modulus) (numbers F.WIDTH words.now))
        (λ items. map (λ x. F.numbering.number (F.field.times F.unit x)) items.items
        ≡ numbers F.WIDTH words.now)) }
{
    let width = F::WIDTH;
    let count = words.len() / width;
    let mut items = Vec::with_capacity(alloc, count)?;
    for i in 0..count {
        let Some(item) = F::from_scaled(&words[i * width..(i + 1) * width]) else {
            return Ok(None);
        };
        items.push(item)?;
    }
    Ok(Some(items))
}

/// Writes the words of the numbers of the elements' multiples by the unit in their places.
pub fn put_scaled<F: WordElement>(words: &mut [u64], items: &[F])
    requires { length words.old ≡ length items.now * F.WIDTH }
    ensures { numbers F.WIDTH words.new
        ≡ map (λ x. F.numbering.number (F.field.times F.unit x)) items.now }
{
    let width = F::WIDTH;
    for i in 0..items.len() {
        items[i].write_scaled(&mut words[i * width..(i + 1) * width]);
    }
}
