//! Laws of values that are written and read back, for code that is generic over domains and forms of
//! polynomials.

ghost use Rattle.std.specs.Prelude.{◌≡◌, IfOk, IsOkUnless};

use ark_traits::{Compress, FftField, Field, Polynomial, SerializationError, written_then_read};
use ark_univariate::{EvaluationDomain, Evaluations};
use std::alloc::Global;

/// What is read from the bytes of a polynomial of any form: it denotes the same, and keeps as many variables.
/// `Memory` is the only error.
pub fn polynomial_read_back<F: Field, P: Polynomial<F>>(
    alloc: Global,
    polynomial: &P,
    mode: Compress,
) -> Result<P, SerializationError>
    ensures same { IfOk result (λ read. P.meaning read ≡ P.meaning polynomial.now) }
    ensures variables { IfOk result (λ read. P.variables read ≡ P.variables polynomial.now) }
    ensures memory { IsOkUnless result SerializationError.Memory }
{
    written_then_read(alloc, polynomial, mode)
}

/// What is read from the bytes of a domain of any type: the same domain. `Memory` is the only error.
pub fn domain_read_back<F: FftField, D: EvaluationDomain<F>>(
    alloc: Global,
    domain: &D,
    mode: Compress,
) -> Result<D, SerializationError>
    ensures same { IfOk result (λ read. D.domain read ≡ D.domain domain.now) }
    ensures memory { IsOkUnless result SerializationError.Memory }
{
    written_then_read(alloc, domain, mode)
}

/// What is read from the bytes of values over a domain: the same values, over the same domain. `Memory` is
/// the only error.
pub fn values_read_back<F: FftField, D: EvaluationDomain<F>>(
    alloc: Global,
    values: &Evaluations<F, D>,
    mode: Compress,
) -> Result<Evaluations<F, D>, SerializationError>
    ensures evals { IfOk result (λ read. read.evals ≡ values.now.evals) }
    ensures domain { IfOk result (λ read. D.domain read.domain ≡ D.domain values.now.domain) }
    ensures memory { IsOkUnless result SerializationError.Memory }
{
    written_then_read(alloc, values, mode)
}
