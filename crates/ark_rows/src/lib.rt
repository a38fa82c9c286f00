//! Rows: as many elements of a field side by side as a type says, so that one transform of rows transforms as
//! many lists.
#![tactic(auto)]

mod row;
mod taking;

pub use row::Row;
pub use taking::lane_of;
