//! Domains with their transforms, evaluations over them, and polynomials in one variable.
#![tactic(auto)]

pub mod domain;
pub mod evaluations;
pub mod polynomial;

pub use domain::{
    EvaluationDomain, GeneralEvaluationDomain, MixedRadixEvaluationDomain, Radix2EvaluationDomain,
};
pub use evaluations::univariate::Evaluations;
pub use polynomial::{DenseUVPolynomial, Polynomial, univariate};
