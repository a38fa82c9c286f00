//! Pieces that were found, by what their ends say.

ghost use Rattle.std.specs.Prelude.{◌≤◌};

use crate::ends::{open_piece, read_ends};
use crate::label::Label;
use crate::system::{FileId, System};
use anyhow::Result;
use shards_format::{Damage, Header};
use shards_streams::PieceEnds;
use std::alloc::{AllocError, Global};

// How much of a kept name is shown.
const SHOWN: usize = 255;

/// What a set of pieces is told from others by.
#[derive(Clone, Copy, Debug, PartialEq, Eq)]
pub struct SetKey {
    /// The set's name.
    pub name: [u8; 32],
    /// How many pieces give the file back.
    pub k: u32,
    /// How many pieces there are.
    pub n: u32,
    ghost few: { n ≤ 65536 },
}

/// A piece that was found, as its ends say.
#[derive(Debug, Drop)]
pub struct FoundPiece {
    /// Where it is.
    pub path: String,
    /// Which file it is.
    pub id: FileId,
    /// The set that it is of.
    pub key: SetKey,
    /// Its number.
    pub number: u32,
    /// What the file is called.
    pub title: String,
}

impl FoundPiece {
    /// That with these ends.
    pub fn new(alloc: Global, path: &str, id: FileId, ends: &PieceEnds) -> Result<FoundPiece> {
        let name = ends.trailer.name();
        Ok(FoundPiece {
            path: String::from_str(alloc, path)?,
            id,
            key: key_of(&ends.header, name),
            number: ends.header.number,
            title: title_of(alloc, &ends.label)?,
        })
    }
}

// The key of the set with this name, of which a piece has this header.
fn key_of(header: &Header, name: [u8; 32]) -> SetKey {
    SetKey {
        name,
        k: header.k,
        n: header.n,
    }
}

/// The first bytes of a set's name, in hexadecimal.
pub fn short_name(alloc: Global, name: &[u8; 32]) -> Result<String, AllocError> {
    let [a, b, c, d, ..] = *name;
    format!(in alloc; "{a:02x}{b:02x}{c:02x}{d:02x}")
}

/// The kept name in a label, as it may be shown: on one line, and not too long.
pub fn kept_name(alloc: Global, label: &[u8]) -> Result<Option<String>, AllocError> {
    let Some(label) = Label::from_bytes(alloc, label)? else {
        return Ok(None);
    };
    let shown = label.name.get(..SHOWN).unwrap_or(&label.name);
    let text = String::from_utf8_lossy(alloc, shown)?;
    let shown: String = text
        .chars()
        .map(|c| if c.is_control() { '?' } else { c })
        .collect(alloc)?;
    Ok(Some(shown))
}

// What a file is called.
fn title_of(alloc: Global, label: &[u8]) -> Result<String, AllocError> {
    match kept_name(alloc, label)? {
        Some(kept) => Ok(kept),
        None => String::from_str(alloc, "a file without a name"),
    }
}

/// The piece in a file, by its ends.
pub fn look_at<R: System>(rt: &R, path: &str) -> Result<Result<FoundPiece, Damage>> {
    let alloc = rt.alloc();
    let opened = open_piece(rt, path)?;
    let id = opened.id;
    match read_ends(alloc, opened)? {
        Ok(ends) => Ok(Ok(FoundPiece::new(alloc, path, id, &ends)?)),
        Err(damage) => Ok(Err(damage)),
    }
}
