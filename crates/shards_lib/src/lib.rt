//! The code of files in pieces, by the Reed-Solomon codes of `rs_code`, over a field that has the numbers up to 2^16.
#![tactic(auto)]

mod field;
mod products;
mod rows;
mod stripes;

pub use field::NumberField;
pub use shards_format::StripeCode;
pub use stripes::{FileCode, RowCode, RowExtender};
