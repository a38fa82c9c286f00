//! Laws of calls together, stated as contracts of functions that callers may cite. Nothing but the contract
//! is promised: a body need not make the calls that the law is about. All are proved from what the crates
//! below promise to any caller.

mod bytes;
mod multivariate;
mod univariate;

pub use ark_tables::tables::Exchange;
pub use bytes::{domain_read_back, polynomial_read_back, values_read_back};
pub use multivariate::{
    graded_order, only_multilinear, value_at_corner, values_with_bound_variables,
    values_with_exchanged_variables,
};
pub use univariate::{
    always_sparse, always_trimmed, both_products, degree_of_product, dense_and_back,
    division_at_point, divisions_of_all_forms, sparse_and_back, value_of_linear_factor,
    values_of_all_forms, values_of_both_forms, weighted_sum, without_root,
};
