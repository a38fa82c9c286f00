//! What calls over lists of words promise, said once more by a caller: each function here is one call, and
//! has as its own contract those clauses of the call that a wrong body would break. `must-fail` has such
//! bodies.
#![tactic(auto)]

pub mod parts;
pub mod polynomials;
pub mod refusals;
pub mod sums;
pub mod transforms;
