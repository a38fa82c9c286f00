//! Where calls read and write bytes, and how values are spelled in them: sinks and sources, the traits of
//! types that are written and read, numbers, pairs, lists and one of two.
#![tactic(auto)]

mod compress;
pub mod counter;
mod error;
mod laws;
mod lists;
mod numbers;
mod one_of_two;
mod pairs;
mod sink;
mod source;
mod traits;

pub use compress::{Compress, recompress};
pub use error::{Failed, SerializationError};
pub use laws::{recompressed_and_back, written_then_read};
pub use lists::{list_size, read_list, write_list};
pub use numbers::{read_number, write_number};
pub use one_of_two::Either;
pub use sink::{IoSink, Sink};
pub use source::{IoSource, Source};
pub use traits::{CanonicalDeserialize, CanonicalSerialize, Spelled, Valid};
