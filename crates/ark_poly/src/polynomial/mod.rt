//! Polynomials by their coefficients.

pub use ark_multi::{DenseMVPolynomial, multivariate};
pub use ark_univariate::polynomial::{DenseUVPolynomial, Polynomial, univariate};
