//! Polynomials by their values.

pub mod multivariate;

pub use ark_univariate::evaluations::univariate;
