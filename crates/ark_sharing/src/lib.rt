//! Shamir's secret sharing, over every field with laws: secrets in n shares, any k of which give them back.
#![tactic(auto)]

mod error;
mod laws;
mod reconstruction;
mod shares;

pub use error::SharingError;
pub use laws::{
    as_many_sharings_for_each_secret, multiple_of_sharing, one_sharing_for_each_secret,
    sum_of_sharings,
};
pub use reconstruction::reconstruct;
pub use shares::{share, share_with};
