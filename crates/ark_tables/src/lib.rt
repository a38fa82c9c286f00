//! Lists behind the polynomials of several variables: the powers of a term, tables, and the entries of
//! tables.
#![tactic(auto)]

pub mod draws;
pub mod powers;
pub mod tables;
pub mod windows;
