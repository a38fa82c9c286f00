//! Calls over lists of words, for callers that know no type of a field: each list of elements is a list of
//! words of 64 bits, the low word of each number first, and each number below the modulus.
#![tactic(auto)]

mod codes;
mod division;
mod domains;
mod element;
mod error;
mod extensions;
mod interpolations;
mod laws;
mod lists;
mod padded;
mod parts;
mod points;
mod products;
mod scaled;
mod transforms;
mod values;
mod weights;

pub use codes::{encode, encode_systematic, message, restore};
pub use division::divide;
pub use domains::domain_size;
pub use element::{WordElement, width};
pub use error::WordsError;
pub use extensions::{multilinear_evaluate, multilinear_evaluate_sparse, multilinear_fix};
pub use interpolations::interpolate;
pub use laws::{
    one_list_of_words, parts_make_the_inverse, parts_make_the_transform, words_are_apart,
};
pub use lists::{are_reduced, elements};
pub use parts::{fft_columns, fft_rows, ifft_columns, ifft_rows};
pub use points::evaluate;
pub use products::multiply;
pub use transforms::{fft, ifft};
pub use values::multiply_values;
pub use weights::lagrange;
