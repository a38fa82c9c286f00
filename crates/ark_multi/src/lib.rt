//! Terms, polynomials in several variables, and multilinear extensions.
#![tactic(auto)]

pub mod multilinear;
pub mod multivariate;
mod polynomial;

pub use multilinear::{
    DenseMultilinearExtension, MultilinearExtension, SparseMultilinearExtension,
};
pub use polynomial::DenseMVPolynomial;
