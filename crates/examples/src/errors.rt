//! One error for a program that calls several crates: `?` makes it of each of theirs.

ghost use Rattle.std.specs.Prelude.{◌≡◌, ◌++◌, ℕ, List, IfOk};
ghost use Rattle.ark_univariate.specs.Layouts.{dense};
ghost use Rattle.ark_math.specs.Univariate.{IsValue, of_list};

use ark_base::{CanonicalDeserialize, Compress, Field, PolyError, SerializationError};
use ark_poly::Polynomial;
use ark_poly::univariate::DensePolynomial;
use rs_code::RsError;
use std::alloc::Global;
use thiserror::Error;

/// Why a call refused.
#[derive(Clone, Copy, Debug, PartialEq, Eq, Error)]
pub enum CallError {
    /// A call on polynomials or domains.
    #[error("{0}")]
    Polynomial(PolyError),
    /// Reading or writing.
    #[error("{0}")]
    Bytes(SerializationError),
    /// A call on codes.
    #[error("{0}")]
    Code(RsError),
}

impl From<PolyError> for CallError {
    ghost use Rattle.examples.specs.declared.errors.CallError.TheVariants.{Polynomial};

    ghost from_gives = { λ e error. error ≡ Polynomial e };

    fn from(refused: PolyError) -> CallError {
        CallError::Polynomial(refused)
    }
}

impl From<SerializationError> for CallError {
    ghost use Rattle.examples.specs.declared.errors.CallError.TheVariants.{Bytes};

    ghost from_gives = { λ e error. error ≡ Bytes e };

    fn from(refused: SerializationError) -> CallError {
        CallError::Bytes(refused)
    }
}

impl From<RsError> for CallError {
    ghost use Rattle.examples.specs.declared.errors.CallError.TheVariants.{Code};

    ghost from_gives = { λ e error. error ≡ Code e };

    fn from(refused: RsError) -> CallError {
        CallError::Code(refused)
    }
}

/// The value at a point of the polynomial that these bytes spell at their beginning, whichever it is. Where
/// they spell none there is no value.
pub fn value_of_saved<F: Field>(alloc: Global, bytes: &[u8], point: F) -> Result<F, CallError>
    ensures spelled { IfOk result (λ y. (p : List F) × (more : List ℕ)
        × (dense F.field (F.format Compress.Yes)).HasSpelling p
        × (bytes.now ≡ (dense F.field (F.format Compress.Yes)).spelling p ++ more)
        × IsValue F.field (of_list F.field p) point y) }
    ensures value { IfOk result (λ y. (p : List F) (more : List ℕ)
        → (dense F.field (F.format Compress.Yes)).HasSpelling p
        → bytes.now ≡ (dense F.field (F.format Compress.Yes)).spelling p ++ more
        → IsValue F.field (of_list F.field p) point y) }
{
    let mut source = bytes;
    let polynomial = DensePolynomial::deserialize_compressed(alloc, &mut source)?;
    Ok(polynomial.evaluate(alloc, &point)?)
}
