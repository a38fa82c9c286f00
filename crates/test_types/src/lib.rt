//! Fields and modules with laws that only the tests use, a generator that counts what is drawn from it, a source that
//! gives one byte a call, what is tried over several fields, and what sums of polynomials of any form are compared
//! with.
#![tactic(auto)]

pub mod counting;
pub mod four;
mod four_bytes;
pub mod nothing;
pub mod numbered;
pub mod single_bytes;
pub mod sums;
pub mod traced;
pub mod trials;
