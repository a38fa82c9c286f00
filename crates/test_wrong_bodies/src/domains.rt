//! Calls of domains of any kind.

ghost use Rattle.std.specs.Prelude.{◌≡◌, map, IfSome, OnOk};
ghost use Rattle.ark_bytes.specs.Reading.{Reads, source_state};
ghost use Rattle.ark_math.specs.Transform.{IsInverse, transform};

use ark_base::{
    CanonicalDeserialize, Compress, DomainCoeff, FftField, PolyError, SerializationError, Source,
    Work,
};
use ark_poly::EvaluationDomain;
use std::alloc::Global;

/// The subgroup of the least size at or above `num_coeffs`.
pub fn domain_for<F: FftField, D: EvaluationDomain<F>>(num_coeffs: usize) -> Option<D>
    ensures chosen { IfSome result (λ d. D.chooses num_coeffs (D.domain d).kind (D.domain d).size) }
{
    D::new(num_coeffs)
}

/// The transform in place.
pub fn transformed<F: FftField, D: EvaluationDomain<F>, T: DomainCoeff<F>>(
    domain: &D,
    alloc: Global,
    coeffs: &mut Vec<T>,
    work: &mut Work,
) -> Result<(), PolyError>
    ensures transform { OnOk result (map T.meaning coeffs.new.items
        ≡ transform F.field T.group (D.domain domain.now) (map T.meaning coeffs.old.items)) }
{
    domain.fft_counted(alloc, coeffs, work)
}

/// Its inverse in place.
pub fn transformed_back<F: FftField, D: EvaluationDomain<F>, T: DomainCoeff<F>>(
    domain: &D,
    alloc: Global,
    evals: &mut Vec<T>,
    work: &mut Work,
) -> Result<(), PolyError>
    ensures inverse { OnOk result (IsInverse F.field T.group (D.domain domain.now)
        (map T.meaning evals.old.items) (map T.meaning evals.new.items)) }
{
    domain.ifft_counted(alloc, evals, work)
}

/// A domain from its bytes: exactly a spelling of it is taken, and memory only where its type takes any.
pub fn domain_read<F: FftField, D: EvaluationDomain<F>, R: Source>(
    alloc: Global,
    reader: &mut R,
    mode: Compress,
) -> Result<D, SerializationError>
    ensures { Reads (D.CanonicalDeserialize.format mode) D.takes_memory
        (source_state R.remaining R.failures reader.old) (source_state R.remaining R.failures reader.new) result }
{
    D::deserialize_with_mode(alloc, reader, mode)
}
