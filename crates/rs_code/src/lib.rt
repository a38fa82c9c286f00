//! Erasure codes over the domains of `ark_poly`: Reed-Solomon codes, whose words come back from any of their places that
//! are as many as the message's items (maximum distance separable).
//!
//! A codeword is the values of the polynomial whose coefficients are the message, the message times a Vandermonde matrix. So
//! the items of a message do not stand among the places of its codeword, and `message` of a decoder gives them back. In
//! systematic form, by `encode_systematic`, they are the codeword's first values. Erasures are restored; errors, values that are wrong at places that nobody knows, are not
//! corrected, and are noticed only as far as no codeword agrees.
#![tactic(auto)]

mod code;
mod decoder;
mod error;
mod laws;
mod locator;
mod marks;
mod part;
mod restore;
mod systematic;
mod turns;

pub use code::{Code, DomainCode};
pub use decoder::{Decoder, DomainDecoder};
pub use error::RsError;
pub use laws::{is_of_radix2, minimum_distance, one_wrong_value};
