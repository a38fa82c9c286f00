//! The pieces that a file is joined of, opened to be read.

ghost use Rattle.std.specs.Prelude.{◌≡◌, ℕ, ◌<◌, ◌≤◌, length, get_or, IfOk, IfSome};
ghost use Rattle.shards_format.specs.Files.{AreApart};

use crate::ends::{OpenPiece, open_piece, read_ends};
use crate::errors::{cause_of, is_shortage};
use crate::found::{FoundPiece, SetKey};
use crate::sets::PieceSet;
use crate::streams::{FileSource, file_of};
use crate::system::System;
use anyhow::anyhow;
use shards_format::{Header, Trailer, different_places};
use shards_streams::{PieceEnds, PieceReader, take_header};
use std::alloc::{AllocError, AllocFailed, Global};

/// Why a file was not joined.
#[derive(Debug, Drop)]
pub enum Stop {
    /// A piece can't be used, the one at this place among those that were found: without it others may do.
    Piece(usize, anyhow::Error),
    /// It can't be joined.
    Whole(anyhow::Error),
}

impl From<anyhow::Error> for Stop {
    fn from(error: anyhow::Error) -> Stop {
        Stop::Whole(error)
    }
}

impl From<AllocError> for Stop {
    fn from(error: AllocError) -> Stop {
        Stop::Whole(error.into())
    }
}

impl<T: Drop> From<AllocFailed<T>> for Stop {
    fn from(error: AllocFailed<T>) -> Stop {
        Stop::Whole(AllocError::from(error).into())
    }
}

/// The pieces that a file is joined of.
#[derive(Drop)]
pub struct OpenSet {
    /// How many pieces give the file back.
    pub k: usize,
    /// How many pieces there are.
    pub n: usize,
    /// The numbers of the pieces.
    pub places: Vec<usize>,
    /// The place of each one among those that were found.
    pub indices: Vec<usize>,
    /// Each one's reader, past its label.
    pub readers: Vec<PieceReader<FileSource>>,
    /// What is known of the file.
    pub label: Vec<u8>,
    /// What all of them end with.
    pub trailer: Trailer,
    ghost few: { n ≤ 65536 },
    ghost count: { length places.items ≡ k },
    ghost below: { (a : ℕ) → a < length places.items → get_or places.items a 0 < n },
    ghost apart: { AreApart places.items },
    ghost readers_count: { length readers.items ≡ k },
}

/// Opens the pieces of a set that a file is joined of.
pub fn open_set<R: System>(rt: &R, pieces: &[FoundPiece], set: &PieceSet) -> Result<OpenSet, Stop> {
    let alloc = rt.alloc();
    let (k, n) = (set.key.k as usize, set.key.n as usize);
    let Some(places) = first_places(alloc, k, n, &set.places(alloc, pieces)?)? else {
        return Err(Stop::Whole(anyhow!("too few pieces are given")));
    };
    let indices = indices_of(alloc, &set.holders(alloc, pieces)?, &places)?;
    let ends = first_ends(rt, pieces, &indices, &set.key)?;
    let readers = open_all(rt, pieces, &indices)?;
    if readers.len() != k {
        return Err(Stop::Whole(anyhow!("too few pieces are given")));
    }
    Ok(OpenSet {
        k,
        n,
        places,
        indices,
        readers,
        label: ends.label,
        trailer: ends.trailer,
    })
}

// The first `k` of the numbers that are among these, where there are so many.
fn first_places(
    alloc: Global,
    k: usize,
    n: usize,
    numbers: &[usize],
) -> Result<Option<Vec<usize>>, AllocError>
    requires { n ≤ 65536 }
    ensures count { IfOk result (λ found. IfSome found (λ places. length places.items ≡ k)) }
    ensures below { IfOk result (λ found. IfSome found (λ places. (a : ℕ) → a < length places.items
        → get_or places.items a 0 < n)) }
    ensures apart { IfOk result (λ found. IfSome found (λ places. AreApart places.items)) }
{
    let mut places = different_places(alloc, n, numbers)?;
    if places.len() < k {
        return Ok(None);
    }
    places.truncate(k);
    Ok(Some(places))
}

// Which of the found pieces have these numbers.
fn indices_of(
    alloc: Global,
    holders: &[Option<usize>],
    places: &[usize],
) -> Result<Vec<usize>, AllocError> {
    places
        .iter()
        .filter_map(|place| holders.get(*place).copied().flatten())
        .collect(alloc)
}

// What the first of the pieces says.
fn first_ends<R: System>(
    rt: &R,
    pieces: &[FoundPiece],
    indices: &[usize],
    key: &SetKey,
) -> Result<PieceEnds, Stop> {
    let Some(index) = indices.first().copied() else {
        return Err(Stop::Whole(anyhow!("no piece is given")));
    };
    let Some(piece) = pieces.get(index) else {
        return Err(Stop::Whole(anyhow!("no piece is given")));
    };
    let opened = open_found(rt, piece, index)?;
    match read_ends(rt.alloc(), opened) {
        Ok(Ok(ends)) if is_of(&ends.header, piece) && ends.trailer.name() == key.name => Ok(ends),
        Ok(Ok(_)) => Err(Stop::Piece(index, anyhow!("changed meanwhile"))),
        Ok(Err(damage)) => Err(Stop::Piece(index, anyhow!("{damage}"))),
        Err(error) => Err(Stop::Piece(index, error)),
    }
}

// Opens a piece that was found.
fn open_found<R: System>(rt: &R, piece: &FoundPiece, index: usize) -> Result<OpenPiece, Stop> {
    match open_piece(rt, &piece.path) {
        Ok(opened) => Ok(opened),
        Err(error) if is_shortage(&error) => {
            Err(Stop::Whole(anyhow!("opening {}: {error}", piece.path)))
        }
        Err(error) => Err(Stop::Piece(index, error.into())),
    }
}

// Whether the header is that of the piece as it was found.
fn is_of(header: &Header, piece: &FoundPiece) -> bool {
    header.k == piece.key.k && header.n == piece.key.n && header.number == piece.number
}

// Opens each of the pieces, and reads its header and its label.
fn open_all<R: System>(
    rt: &R,
    pieces: &[FoundPiece],
    indices: &[usize],
) -> Result<Vec<PieceReader<FileSource>>, Stop> {
    let mut readers = Vec::new(rt.alloc());
    for index in indices {
        if let Some(piece) = pieces.get(*index) {
            readers.push(open_past_label(rt, piece, *index)?)?;
        }
    }
    Ok(readers)
}

// Opens a piece, and reads its header and its label.
fn open_past_label<R: System>(
    rt: &R,
    piece: &FoundPiece,
    index: usize,
) -> Result<PieceReader<FileSource>, Stop> {
    let mut reader = open_found(rt, piece, index)?.reader;
    match take_header(rt.alloc(), &mut reader) {
        Ok(Ok((header, _))) if is_of(&header, piece) => Ok(reader),
        Ok(Ok(_)) => Err(Stop::Piece(index, anyhow!("changed meanwhile"))),
        Ok(Err(damage)) => Err(Stop::Piece(index, anyhow!("{damage}"))),
        Err(_) => {
            let (_, failure) = file_of(reader);
            Err(Stop::Piece(index, cause_of(failure).into()))
        }
    }
}
