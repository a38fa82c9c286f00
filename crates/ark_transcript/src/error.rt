//! Why a call refuses.

use thiserror::Error;

/// The spelling of a value has 2^64 bytes or more.
#[derive(Clone, Copy, Debug, PartialEq, Eq, Hash, Error)]
#[error("TooLong")]
pub struct TooLong;
