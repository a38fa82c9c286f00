//! Multilinear polynomials by their values.

pub use ark_multi::multilinear;
pub use ark_multi::multilinear::{
    DenseMultilinearExtension, MultilinearExtension, SparseMultilinearExtension,
};
