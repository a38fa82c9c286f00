//! Prime fields of four words: the integers modulo an odd prime below 2^255, kept in Montgomery's form.
//! Contracts see an element's number below the prime alone. `ark_base` has the traits, and the
//! types of fields of one word.
#![tactic(auto)]

pub mod bls12_381;
pub mod bn254;
mod euclid;
mod laws;
mod montgomery;
pub mod pallas;
mod prime_field;
pub mod vesta;
mod words;

pub use bls12_381::{Bls12_381Scalar, Bls12_381ScalarModulus};
pub use bn254::{Bn254Scalar, Bn254ScalarModulus};
pub use laws::small_numbers_are_different256;
pub use pallas::{PallasScalar, PallasScalarModulus};
pub use prime_field::{PrimeField256, PrimeModulus256};
pub use vesta::{VestaScalar, VestaScalarModulus};
pub use words::BigInteger256;
