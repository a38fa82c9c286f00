//! Polynomials at points of a caller's own: the quotient by x - z and the value at z, the values at many points, the
//! polynomial through given ones, and the weights by which values at points give the value at another.
#![tactic(auto)]

mod division;
mod error;
mod interpolation;
mod laws;
mod lookup;
mod moved;
mod pairs;
mod places;
mod repeated;
mod values;
mod weights;

pub use ark_subproducts::naive_evaluate_at;
pub use division::divide_by_linear;
pub use error::PointsError;
pub use interpolation::{from_points, naive_from_points};
pub use laws::{points_and_back, values_and_back};
pub use pairs::{first_parts, paired};
pub use repeated::has_repeated;
pub use values::evaluate_at;
pub use weights::weights_at;
