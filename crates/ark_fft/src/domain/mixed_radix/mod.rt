//! Sizes that are a power of two times a power of the field's odd base, and their transforms.

pub mod kernel;
mod size;

pub use size::{least_size, odd_base};
