//! Lists of values, place by place.

ghost use Rattle.std.specs.Prelude.{◌≡◌, ◌↔◌, ℕ, length, OnOk, OnErr, IfErr};
ghost use Rattle.ark_math.specs.Univariate.{of_list};
ghost use Rattle.ark_words.specs.Faults.{IsPlain};
ghost use Rattle.ark_words.specs.Numbers.{BothReduced};
ghost use Rattle.ark_words.specs.Values.{FitPairs, AreProducts};

use crate::element::WordElement;
use crate::error::WordsError;
use crate::lists::{both, put};
use ark_coeffs::dense::multiply_each;
use ark_traits::Field;
use std::alloc::Global;

/// Multiplies each number by the number at the same place of another list: where both hold values of
/// polynomials at the same points, in whatever order, these are the values of the product. It takes memory
/// for both lists.
///
/// The errors are judged in this order: `Length` where the words aren't whole elements, or the others not
/// as many; `NotReduced` where a number isn't below the modulus; `Memory` where none of these holds.
pub fn multiply_values<F: WordElement>(
    alloc: Global,
    values: &mut [u64],
    others: &[u64],
) -> Result<(), WordsError>
    ensures products { OnOk result (AreProducts F.spelled values.old others.now values.new) }
    ensures kept { OnErr result (values.new ≡ values.old) }
    ensures taken { OnOk result (FitPairs F.spelled values.old others.now
        × BothReduced F.spelled values.old others.now) }
    ensures length { (result ≡ Err WordsError.Length) ↔ (¬ FitPairs F.spelled values.old others.now) }
    ensures not_reduced { (result ≡ Err WordsError.NotReduced)
        ↔ (FitPairs F.spelled values.old others.now × (¬ BothReduced F.spelled values.old others.now)) }
    ensures no_other { IfErr result IsPlain }
{
    if values.len() % F::WIDTH != 0 || others.len() != values.len() {
        return Err(WordsError::Length);
    }
    let (items, factors) = both::<F>(alloc, values, others)?;
    put(values, &products(items, &factors));
    Ok(())
}

// The products, place by place.
fn products<F: Field>(mut items: Vec<F>, factors: &[F]) -> Vec<F>
    requires { length factors.now ≡ length items.items }
    ensures products { (i : ℕ) → of_list F.field result.items i
        ≡ F.field.times (of_list F.field items.items i) (of_list F.field factors.now i) }
    ensures len { length result.items ≡ length items.items }
{
    multiply_each(items.as_mut_slice(), factors);
    items
}
