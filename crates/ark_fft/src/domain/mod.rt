//! What all kinds of domains keep, their sizes, their elements, and the transforms of each kind.

mod coset;
mod elements;
mod lists;
pub mod mixed_radix;
pub mod radix2;
mod scaling;

pub use coset::Coset;
pub use elements::Elements;
pub use lists::first_items;
