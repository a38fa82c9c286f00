//! Lists of elements as words, filled with zeros.

ghost use Rattle.std.specs.Prelude.{◌≡◌, ◌<◌, ◌/◌, ◌%◌, ℕ, length};
ghost use Rattle.ark_math.specs.Univariate.{of_list};
ghost use Rattle.ark_words.specs.Numbers.{number_at};

use crate::element::WordElement;
use ark_traits::Field;

/// Writes the words of the elements' numbers in their places, as many as have a place, and zeros in the
/// others.
pub fn put_with_zeros<F: WordElement>(words: &mut [u64], items: &[F])
    requires { length words.old % F.WIDTH ≡ 0 }
    ensures { (i : ℕ) → i < length words.old / F.WIDTH → number_at F.WIDTH words.new i
        ≡ F.numbering.number (of_list F.field items.now i) }
{
    let width = F::WIDTH;
    for i in 0..words.len() / width {
        item_or_zero(items, i).write_words(&mut words[i * width..(i + 1) * width]);
    }
}

// The item at a place, and zero past the end.
fn item_or_zero<F: Field>(items: &[F], i: usize) -> F
    ensures { result ≡ of_list F.field items.now i }
{
    if i < items.len() { items[i] } else { F::zero() }
}
