//! Files in pieces, over sources and sinks: a block at a time, so that files of any length pass.
#![tactic(auto)]

mod checking;
mod error;
mod joining;
mod laws;
mod reader;
mod reading;
mod repairing;
mod splitting;
mod writer;

pub use checking::{PieceEnds, check_piece, take_header, take_trailer};
pub use error::StreamError;
pub use joining::{ChosenPieces, join_into};
pub use laws::{ListSink, first_pieces_are_the_file, pieces_of, split_then_join};
pub use reader::PieceReader;
pub use reading::{take_block, take_bytes};
pub use repairing::{LostPieces, repair_into};
pub use splitting::split_into;
pub use writer::PieceWriter;
