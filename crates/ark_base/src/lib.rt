//! The types of prime fields of one word, beside the fields and modules with laws that all crates share.
//! `ark_fields` has ready fields.
#![tactic(auto)]

mod laws;
mod montgomery32;
mod prime_field;
mod prime_field32;
mod prime_numbers;

pub use ark_traits::{
    CanonicalDeserialize, CanonicalSerialize, Compress, ConstantZero, DomainCoeff, Either, Failed,
    FftField, Field, IoSink, IoSource, Lanes, One, PolyError, Polynomial, SerializationError, Sink,
    Source, Spelled, Summand, Valid, Work, Zero, batch_inversion, k_adicity, list_size, log2,
    read_list, read_number, recompress, recompressed_and_back, write_list, write_number,
    written_then_read,
};
pub use laws::{small_numbers_are_different, small_numbers_are_different32};
pub use prime_field::{PrimeField, PrimeModulus};
pub use prime_field32::{PrimeField32, PrimeModulus32};
pub use prime_numbers::PrimeNumbers;
