//! Calls at their cost.

ghost use Rattle.std.specs.Prelude.{◌*◌, length, OnOk};
ghost use Rattle.ark_math.specs.Cost.{forward};
ghost use Rattle.ark_fft.specs.Cost.{GrowsByCost};
ghost use Rattle.rs_code.specs.Cost.{GrowsWithin};

use ark_base::{DomainCoeff, FftField, PolyError, Work};
use ark_poly::EvaluationDomain;
use rs_code::{DomainCode, RsError};
use std::alloc::Global;

/// The transform in place.
pub fn transformed_at_cost<F: FftField, D: EvaluationDomain<F>, T: DomainCoeff<F>>(
    domain: &D,
    alloc: Global,
    coeffs: &mut Vec<T>,
    work: &mut Work,
) -> Result<(), PolyError>
    ensures cost { OnOk result (GrowsByCost F.adicity (D.domain domain.now) (length coeffs.old.items) forward
        work.old work.new) }
{
    domain.fft_counted(alloc, coeffs, work)
}

/// The codeword that has the word's values at the places that aren't erased.
pub fn restored_at_cost<F: FftField, D: EvaluationDomain<F>, T: DomainCoeff<F>>(
    alloc: Global,
    code: &DomainCode<F, D>,
    word: &[Option<T>],
    work: &mut Work,
) -> Result<Vec<T>, RsError>
    ensures cost { GrowsWithin F.adicity code.now.domain 3 (5 * code.now.domain.size) work.old work.new }
{
    code.restore_counted(alloc, word, work)
}
