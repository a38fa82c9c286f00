//! `shards list`.

use crate::ends::{open_piece, read_ends};
use crate::found::{kept_name, short_name};
use crate::named::named_paths;
use crate::system::System;
use crate::words::PieceWords;
use anyhow::{Result, bail};
use shards_streams::PieceEnds;
use std::alloc::Global;
use std::io::Print;

/// Says of each piece what it says of itself.
pub fn list_pieces<R: System>(rt: &R, words: &PieceWords<'_>) -> Result<()> {
    let named = named_paths(rt, words.pieces)?;
    let mut others = named.unread;
    for path in &named.paths {
        match described(rt, path) {
            Ok(line) => println!(rt; "{path}: {line}")?,
            Err(error) => {
                others = others.saturating_add(1);
                println!(rt; "{path}: {error:#}")?;
            }
        }
    }
    if others != 0 {
        bail!("files that are no pieces, or could not be read: {others}");
    }
    Ok(())
}

// What the piece in a file says of itself.
fn described<R: System>(rt: &R, path: &str) -> Result<String> {
    match read_ends(rt.alloc(), open_piece(rt, path)?)? {
        Ok(ends) => line_of(rt.alloc(), &ends),
        Err(damage) => bail!("{damage}"),
    }
}

// What these ends say.
fn line_of(alloc: Global, ends: &PieceEnds) -> Result<String> {
    let (header, len) = (&ends.header, ends.trailer.len);
    let (number, k, n) = (header.number, header.k, header.n);
    let set = short_name(alloc, &ends.trailer.name())?;
    let mut line = format!(in alloc; "piece {number} of {n}, any {k} give {len} bytes; set {set}")?;
    if let Some(kept) = kept_name(alloc, &ends.label)? {
        line.push_str("; ")?;
        line.push_str(&kept)?;
    }
    Ok(line)
}
