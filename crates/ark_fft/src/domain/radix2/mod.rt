//! Sizes that are powers of two, and their transforms.

pub(crate) mod bit_reversal;
pub mod fft;
pub(crate) mod frequency;
pub mod plain;
mod size;
pub mod tables;
mod time;

pub use size::least_size;
