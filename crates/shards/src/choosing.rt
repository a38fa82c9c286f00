//! Which pieces are joined: those of the one set that has enough. The others are named and left out.

use crate::checking::check_path;
use crate::found::{FoundPiece, look_at};
use crate::named::named_paths;
use crate::progress::Telling;
use crate::sets::{PieceSet, sets_of};
use crate::system::{FileId, System, say};
use anyhow::{Result, bail};
use std::fs;

/// What was found under the names that were given.
#[derive(Drop)]
pub struct Found {
    /// The pieces.
    pub pieces: Vec<FoundPiece>,
    /// Which files these are, and those that are no pieces.
    pub named: Vec<FileId>,
}

/// Looks at what the words name, and names what is no piece.
pub fn find_pieces<R: System>(rt: &R, words: &[&str]) -> Result<Found> {
    let alloc = rt.alloc();
    let mut found = Found {
        pieces: Vec::new(alloc),
        named: Vec::new(alloc),
    };
    for path in &named_paths(rt, words)?.paths {
        if let Ok(there) = fs::metadata(rt, path) {
            found.named.push(FileId::of(&there))?;
        }
        match look_at(rt, path) {
            Ok(Ok(piece)) => found.pieces.push(piece)?,
            Ok(Err(damage)) => say(rt, format_args!("{path}: {damage}; it is left out")),
            Err(error) => say(rt, format_args!("{path}: {error:#}; it is left out")),
        }
    }
    Ok(found)
}

/// The set of which there are enough pieces. Where there are several sets, pieces that are not whole are named and left out
/// first.
pub fn choose_set<R: System>(
    rt: &R,
    pieces: &mut Vec<FoundPiece>,
    telling: Telling,
) -> Result<PieceSet> {
    let mut enough = enough_sets(rt, pieces)?;
    if enough.len() > 1 {
        leave_out_damaged(rt, pieces, telling)?;
        enough = enough_sets(rt, pieces)?;
    }
    if enough.len() > 1 {
        tell_sets(rt, pieces, &enough)?;
        bail!("two sets of pieces are given, and each could be joined");
    }
    match enough.pop() {
        Some(set) => Ok(set),
        None => Err(too_few(rt, pieces)?),
    }
}

// The sets of which there are enough pieces.
fn enough_sets<R: System>(rt: &R, pieces: &[FoundPiece]) -> Result<Vec<PieceSet>> {
    let alloc = rt.alloc();
    let mut enough = Vec::new(alloc);
    for set in sets_of(alloc, pieces)? {
        if set.is_enough(alloc, pieces)? {
            enough.push(set)?;
        }
    }
    Ok(enough)
}

// Says which sets there are.
fn tell_sets<R: System>(rt: &R, pieces: &[FoundPiece], sets: &[PieceSet]) -> Result<()> {
    let alloc = rt.alloc();
    for set in sets {
        say(rt, set.line(alloc, pieces, true)?);
    }
    Ok(())
}

// Why no set can be joined.
fn too_few<R: System>(rt: &R, pieces: &[FoundPiece]) -> Result<anyhow::Error> {
    let sets = sets_of(rt.alloc(), pieces)?;
    if sets.is_empty() {
        return Ok(anyhow::Error::msg("no piece is given"));
    }
    tell_sets(rt, pieces, &sets)?;
    Ok(anyhow::Error::msg("too few pieces are given"))
}

// Leaves out the pieces that are not whole.
fn leave_out_damaged<R: System>(
    rt: &R,
    pieces: &mut Vec<FoundPiece>,
    telling: Telling,
) -> Result<()> {
    for index in (0..pieces.len()).rev() {
        let checked = match pieces.get(index) {
            Some(piece) => check_path(rt, &piece.path, telling),
            None => continue,
        };
        if let Err(why) = checked {
            leave_out(rt, pieces, index, &why)?;
        }
    }
    Ok(())
}

/// Leaves out a piece, and says why.
pub fn leave_out<R: System>(
    rt: &R,
    pieces: &mut Vec<FoundPiece>,
    index: usize,
    why: &anyhow::Error,
) -> Result<()> {
    if index < pieces.len() {
        let piece = pieces.remove(index);
        say(rt, format_args!("{}: {why:#}; it is left out", piece.path));
    }
    Ok(())
}

/// Names the pieces that are of other sets than this one, or copies.
pub fn tell_others<R: System>(rt: &R, pieces: &[FoundPiece], set: &PieceSet) -> Result<()> {
    let holders = set.holders(rt.alloc(), pieces)?;
    for (index, piece) in pieces.iter().enumerate() {
        let path = &piece.path;
        if piece.key != set.key {
            say(rt, format_args!("{path}: of another set; it is left out"));
        } else if let Some(Some(first)) = holders.get(piece.number as usize) {
            if *first != index {
                let first = pieces
                    .get(*first)
                    .map_or("another", |piece| piece.path.as_str());
                say(
                    rt,
                    format_args!("{path}: a copy of {first}; it is left out"),
                );
            }
        }
    }
    Ok(())
}
