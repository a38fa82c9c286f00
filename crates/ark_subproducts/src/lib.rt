//! Subproduct trees: the products of x - z over points, and over both halves of them, down to few points. Values of a
//! polynomial at the points go down such a tree by middle products, and sums of weights times products without a factor up it.
#![tactic(auto)]

mod blocks;
mod few;
mod halves;
mod multiple;
mod parts;
mod products;
mod quotients;
mod roots;
mod table;
mod tree;
mod values;

pub use parts::constant;
pub use products::{product_over, product_values};
pub use quotients::remainder;
pub use roots::values_by_table;
pub use tree::SubproductTree;
pub use values::naive_evaluate_at;
