//! Files in pieces, in memory: all pieces of a file in one list of bytes, one after another, and any `k` of them
//! joined.
#![tactic(auto)]

mod ends;
mod error;
mod joining;
mod opening;
mod sizes;
mod splitting;

pub use ends::{file_size, first_header, last_trailer};
pub use error::BufferError;
pub use joining::join;
pub use sizes::{piece_size, piece_start};
pub use splitting::split;
