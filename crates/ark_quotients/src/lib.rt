//! Products, quotients and conversions of the lists behind the forms of polynomials.
#![tactic(auto)]

pub mod conversions;
pub mod division;
pub mod lanes;
pub mod products;
pub mod series;
