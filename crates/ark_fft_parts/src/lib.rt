//! Transforms in parts: the list as rows, its columns transformed and then its rows, in blocks of any size,
//! in any order, on any thread or machine. The law of the parts says that they make the whole transform.
#![tactic(auto)]

mod blocks;
mod laws;
mod matrix;
mod parts;
mod ways;

pub use laws::{
    parts_cost, parts_make_the_inverse, parts_make_the_product, parts_make_the_transform,
};
pub use parts::Parts;
