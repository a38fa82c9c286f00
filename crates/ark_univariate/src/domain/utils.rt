//! What the kinds of domains share.

pub use ark_fft::domain::Elements;
