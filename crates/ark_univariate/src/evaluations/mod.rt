//! Polynomials by their values.

pub mod univariate;
