//! Domains: the elements `offset * root^i` of a subgroup or a coset, and transforms over them.

pub use ark_univariate::domain::{
    Coset, DomainCoeff, EvaluationDomain, GeneralEvaluationDomain, MixedRadixEvaluationDomain,
    Radix2EvaluationDomain, general, mixed_radix, radix2,
};
