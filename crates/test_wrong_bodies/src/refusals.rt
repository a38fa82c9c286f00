//! Calls that refuse, or are refused memory.

ghost use Rattle.std.specs.Prelude.{◌≡◌, ◌↔◌, ◌+◌, ◌-◌, ◌<◌, length, Err, OnErr};
ghost use Rattle.ark_math.specs.Domain.{HasNoSize, IsGeneral};
ghost use Rattle.rs_code.specs.Codeword.{erasure_count};

use ark_base::{DomainCoeff, FftField, PolyError, Work};
use ark_poly::EvaluationDomain;
use ark_poly::univariate::DensePolynomial;
use rs_code::{DomainCode, RsError};
use std::alloc::Global;

/// The transform in place, of a list that is kept where memory is refused.
pub fn transformed_or_kept<F: FftField, D: EvaluationDomain<F>, T: DomainCoeff<F>>(
    domain: &D,
    alloc: Global,
    coeffs: &mut Vec<T>,
    work: &mut Work,
) -> Result<(), PolyError>
    ensures kept { OnErr result (coeffs.new.items ≡ coeffs.old.items) }
{
    domain.fft_counted(alloc, coeffs, work)
}

/// The codeword of a word, unless too many places are erased.
pub fn restored_or_refused<F: FftField, D: EvaluationDomain<F>, T: DomainCoeff<F>>(
    alloc: Global,
    code: &DomainCode<F, D>,
    word: &[Option<T>],
    work: &mut Work,
) -> Result<Vec<T>, RsError>
    ensures too_many_erased { (result ≡ Err RsError.TooManyErased)
        ↔ (length word.now ≡ code.now.domain.size)
        × (code.now.domain.size - code.now.k < erasure_count word.now) }
{
    code.restore_counted(alloc, word, work)
}

/// The product, unless there is no domain for it.
pub fn multiplied<F: FftField>(
    alloc: Global,
    left: &DensePolynomial<F>,
    right: &DensePolynomial<F>,
) -> Result<DensePolynomial<F>, PolyError>
    ensures none { (result ≡ Err PolyError.NoDomain) ↔ (0 < length left.now) × (0 < length right.now)
        × HasNoSize (IsGeneral F.adicity) (length left.now + length right.now - 1) }
{
    left.mul(alloc, right)
}
