//! Why a call over words gives no answer.

use thiserror::Error;

/// Why a call over words gives no answer. It has then changed nothing. `Display` shows the variant's name.
#[derive(Clone, Copy, Debug, PartialEq, Eq, Hash, Error)]
pub enum WordsError {
    /// Memory was refused.
    #[error("Memory")]
    Memory,
    /// A length doesn't fit: it is no multiple of an element's words, or not what the call says.
    #[error("Length")]
    Length,
    /// A number isn't below the modulus.
    #[error("NotReduced")]
    NotReduced,
    /// No domain of the field has so many elements, or the offset is zero.
    #[error("NoDomain")]
    NoDomain,
    /// The divisor is the zero polynomial.
    #[error("ZeroDivisor")]
    ZeroDivisor,
    /// Two points are equal.
    #[error("EqualPoints")]
    EqualPoints,
    /// Fewer places of a codeword are left than its message has numbers.
    #[error("TooFew")]
    TooFew,
    /// No codeword has the numbers that are left of a word.
    #[error("NoCodeword")]
    NoCodeword,
}
