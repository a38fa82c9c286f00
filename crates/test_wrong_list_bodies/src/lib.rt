//! What lists of coefficients, terms and tables promise, said once more by a caller: each function here is one call,
//! and has as its own contract those clauses of the call that a wrong body would break. `must-fail` has such bodies.
#![tactic(auto)]

pub mod coefficients;
pub mod powers;
pub mod tables;
