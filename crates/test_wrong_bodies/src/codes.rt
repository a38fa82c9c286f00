//! Calls of erasure codes.

ghost use Rattle.std.specs.Prelude.{◌≡◌, map, take, IfOk, IfSome};
ghost use Rattle.rs_code.specs.Codeword.{AgreesWith};

use ark_base::{DomainCoeff, FftField, Work};
use ark_poly::EvaluationDomain;
use rs_code::{DomainCode, RsError};
use std::alloc::Global;

/// The code for messages of at most `k` items over the domain for `n_at_least`.
pub fn code_for<F: FftField, D: EvaluationDomain<F>>(
    k: usize,
    n_at_least: usize,
) -> Option<DomainCode<F, D>>
    ensures items { IfSome result (λ c. c.k ≡ k) }
{
    DomainCode::new(k, n_at_least)
}

/// The codeword that begins with a message.
pub fn systematic<F: FftField, D: EvaluationDomain<F>, T: DomainCoeff<F>>(
    alloc: Global,
    code: &DomainCode<F, D>,
    message: &[T],
) -> Result<Vec<T>, RsError>
    ensures { IfOk result (λ c. take code.now.k (map T.meaning c.items) ≡ map T.meaning message.now) }
{
    code.encode_systematic(alloc, message)
}

/// The codeword that has the word's values at the places that aren't erased.
pub fn restored<F: FftField, D: EvaluationDomain<F>, T: DomainCoeff<F>>(
    alloc: Global,
    code: &DomainCode<F, D>,
    word: &[Option<T>],
    work: &mut Work,
) -> Result<Vec<T>, RsError>
    ensures agrees { IfOk result (λ c. AgreesWith T.group T.meaning word.now (map T.meaning c.items)) }
{
    code.restore_counted(alloc, word, work)
}
