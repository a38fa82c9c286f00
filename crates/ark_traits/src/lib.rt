//! Fields, their extensions and modules with laws, the trait of polynomials, counts and errors: what all crates
//! above share. It shows what writes and reads bytes again.
#![tactic(auto)]

mod constants;
mod error;
mod extension;
mod field;
mod inversion;
mod lanes;
mod numbers;
mod polynomial;
mod summand;
mod work;

pub use ark_bytes::{
    CanonicalDeserialize, CanonicalSerialize, Compress, Either, Failed, IoSink, IoSource,
    SerializationError, Sink, Source, Spelled, Valid, list_size, read_list, read_number,
    recompress, recompressed_and_back, write_list, write_number, written_then_read,
};
pub use constants::ConstantZero;
pub use error::PolyError;
pub use extension::ExtensionOf;
pub use field::{DomainCoeff, FftField, Field, One, Zero};
pub use inversion::batch_inversion;
pub use lanes::Lanes;
pub use numbers::{k_adicity, log2};
pub use polynomial::Polynomial;
pub use summand::Summand;
pub use work::Work;
