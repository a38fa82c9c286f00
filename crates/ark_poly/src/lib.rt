//! Domains with their transforms, evaluations over them, and polynomials in one and in several variables, at the paths
//! that their users know; and laws of their calls.
#![tactic(auto)]

pub mod domain;
pub mod evaluations;
pub mod laws;
pub mod polynomial;

pub use domain::{
    EvaluationDomain, GeneralEvaluationDomain, MixedRadixEvaluationDomain, Radix2EvaluationDomain,
};
pub use evaluations::multivariate::{
    DenseMultilinearExtension, MultilinearExtension, SparseMultilinearExtension,
};
pub use evaluations::univariate::Evaluations;
pub use polynomial::{DenseMVPolynomial, DenseUVPolynomial, Polynomial, multivariate, univariate};
