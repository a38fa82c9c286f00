//! Transforms of field elements over blocks of a subgroup in bit-reversed order: one table of roots serves all sizes, no
//! item is moved, and values over twice as many elements are the known ones and those over the block behind them.
#![tactic(auto)]

mod backward;
mod forward;
pub mod items;
mod roots;
mod table;
mod values;

pub use roots::product_of_few;
pub use table::BlockRoots;
