//! The exact cost of calls, as numbers in a contract.

ghost use Rattle.std.specs.Prelude.{◌≡◌, ◌+◌, ◌≤◌, length, OnOk};
ghost use Rattle.ark_poly.specs.Domains.{radix2_domain};

use ark_base::{DomainCoeff, FftField, PolyError, Work};
use ark_fields::F433;
use ark_poly::{EvaluationDomain, Radix2EvaluationDomain};
use rs_code::{Code, RsError};
use std::alloc::Global;

/// Over sixteen elements a transform of four items takes two levels of eight butterflies, and the way back takes four.
/// There is a product for each butterfly, and in each transform at most one more for each element.
pub fn over_sixteen_and_back<F: FftField, T: DomainCoeff<F>>(
    alloc: Global,
    domain: &Radix2EvaluationDomain<F>,
    items: &mut Vec<T>,
    work: &mut Work,
) -> Result<(), PolyError>
    requires sixteen { (radix2_domain domain.now).size ≡ 16 }
    requires four { length items.old.items ≡ 4 }
    ensures butterflies { OnOk result (work.new.butterflies ≡ work.old.butterflies + 16 + 32) }
    ensures products { OnOk result (work.new.products ≤ work.old.products + (16 + 16) + (32 + 16)) }
{
    domain.fft_counted(alloc, items, work)?;
    domain.ifft_counted(alloc, items, work)
}

/// Over 433 elements the code for messages of three items and at least 17 places has 18. A transform back takes nine
/// butterflies and twelve steps, and a word's restoration at most three times as many, and five products a place beside
/// theirs: a product for each butterfly, and eight for each step.
pub fn restored_of_eighteen<T: DomainCoeff<F433>>(
    alloc: Global,
    word: &[Option<T>],
    work: &mut Work,
) -> Result<Vec<T>, RsError>
    ensures butterflies { work.new.butterflies ≤ work.old.butterflies + 27 }
    ensures steps { work.new.steps ≤ work.old.steps + 36 }
    ensures products { work.new.products ≤ work.old.products + 405 }
{
    let Some(code) = Code::<F433>::new(3, 17) else {
        return Err(RsError::WrongLength);
    };
    code.restore_counted(alloc, word, work)
}
