//! Sums, differences, multiples and values of the lists behind the forms of polynomials: of coefficients, and
//! of terms; and geometric progressions.
#![tactic(auto)]

pub mod dense;
pub mod draws;
pub mod multiple;
pub mod progressions;
pub mod sparse;
