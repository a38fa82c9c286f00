//! Files in pieces, over any code for stripes of items: how a file's bytes become numbers, how a piece spells its numbers,
//! and how any `k` pieces are joined.
#![tactic(auto)]

mod block_parts;
mod code;
mod extenders;
mod header;
mod items;
mod parts;
mod piece;
mod placed_parts;
mod reading;
mod trailer;

pub use block_parts::{block_of, parts_of_block, stripes};
pub use code::{PlacedNumbers, StripeCode};
pub use extenders::{
    PlacedExtender, data_extender, different_places, missing_places, parity_extender, places_from,
    repair_extender,
};
pub use header::{HEADER, Header, MAGIC, VERSION};
pub use items::{item, put_item};
pub use parts::{PART, chunk, marked_part, plain_part, read_part};
pub use piece::{DIGEST, Damage, are_same, blocks, body_size, mark_size, part_size};
pub use placed_parts::parts_at;
pub use reading::numbers_of_parts;
pub use trailer::{Trailer, trailer_size};
