//! Quadratic extensions of fields, F[x]/(x^2 - w) where no element's square is w, and towers of them.
//! `ark_traits` has the traits, and `ark_extension_fields` ready extensions.
#![tactic(auto)]

pub mod embedded;
pub mod laws;
mod modulus;
mod quadratic;
mod tower;

pub use ark_traits::ExtensionOf;
pub use modulus::QuadraticModulus;
pub use quadratic::Quadratic;
pub use tower::{Quartic, QuarticModulus, RootModulus};
