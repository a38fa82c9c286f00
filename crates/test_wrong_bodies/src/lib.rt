//! What domains, products, erasure codes, points, shares, sum-checks and the program promise, said once more by a
//! caller: each function here is one call, and has as its own contract those clauses of the call that a wrong body
//! would break.
//!
//! A body in the place of the call that means something else has to be refused: `must-fail` has such bodies. What
//! refuses one here says that the call's own clauses would not hold of it either, since all that is promised here
//! follows from them. A clause stands alone where it can, since a wrong body is then tried against that clause alone.
#![tactic(auto)]

pub mod codes;
pub mod commands;
pub mod costs;
pub mod domains;
pub mod points;
pub mod refusals;
pub mod rounds;
pub mod shares;
