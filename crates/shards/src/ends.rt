//! Files with pieces, and what the ends of these say.

use crate::streams::{FileSource, file_of, file_source};
use crate::system::{FileId, System};
use anyhow::{Context, Result, bail};
use shards_format::{Damage, HEADER, Header, Trailer, body_size, trailer_size};
use shards_streams::{PieceEnds, PieceReader, StreamError, take_header, take_trailer};
use std::alloc::Global;
use std::fs::{self, File, Metadata};
use std::io::{self, Seek, SeekFrom};

/// A file that was opened to read a piece.
#[derive(Drop)]
pub struct OpenPiece {
    /// The reader, of which nothing was read yet.
    pub reader: PieceReader<FileSource>,
    /// Which file it is.
    pub id: FileId,
    /// How many bytes it has.
    pub size: u64,
}

/// Opens a file to read a piece.
pub fn open_piece<R: System>(rt: &R, path: &str) -> io::Result<OpenPiece> {
    refuse_other(&fs::metadata(rt, path)?)?;
    let file = fs::open(rt, path)?;
    let metadata = file.metadata()?;
    refuse_other(&metadata)?;
    Ok(OpenPiece {
        reader: PieceReader::new(file_source(rt.alloc(), file)?),
        id: FileId::of(&metadata),
        size: metadata.len(),
    })
}

// Refuses what is no file: opening a pipe may wait, and reading a folder fails.
fn refuse_other(metadata: &Metadata) -> io::Result<()> {
    if metadata.is_file() {
        Ok(())
    } else {
        Err(io::Error::other("it is no file"))
    }
}

/// What the ends of a piece say, where the file's length is that of the piece. `Damage` tells what is none.
pub fn read_ends(alloc: Global, opened: OpenPiece) -> Result<Result<PieceEnds, Damage>> {
    let OpenPiece {
        mut reader,
        size,
        ..
    } = opened;
    let (header, label) = match take_header(alloc, &mut reader) {
        Ok(Ok(head)) => head,
        Ok(Err(damage)) => return Ok(Err(damage)),
        Err(error) => return unread(error, reader),
    };
    match read_trailer(alloc, reader, &header, size)? {
        Ok(trailer) => Ok(Ok(PieceEnds {
            header,
            label,
            trailer,
        })),
        Err(damage) => Ok(Err(damage)),
    }
}

// The trailer of a piece in a file of so many bytes, with this header, where the piece has this length.
fn read_trailer(
    alloc: Global,
    reader: PieceReader<FileSource>,
    header: &Header,
    size: u64,
) -> Result<Result<Trailer, Damage>> {
    let n = header.n as usize;
    let before = HEADER as u64 + u64::from(header.label_len);
    let behind = trailer_size(n) as u64;
    let Some(body) = size.checked_sub(before + behind) else {
        return Ok(Err(Damage::NoPiece));
    };
    let (mut file, _) = file_of(reader);
    file.seek(SeekFrom::Start(size - behind))?;
    let mut reader = PieceReader::new(file_source(alloc, file)?);
    let trailer = match take_trailer(alloc, &mut reader, n) {
        Ok(Ok(trailer)) => trailer,
        Ok(Err(damage)) => return Ok(Err(damage)),
        Err(error) => return unread(error, reader),
    };
    let wanted = body_size(
        header.k as usize,
        header.number as usize,
        trailer.len as usize,
    );
    if wanted as u64 != body {
        return Ok(Err(Damage::NoPiece));
    }
    Ok(Ok(trailer))
}

// Why the ends of a piece were not read: it is cut short, or reading failed.
fn unread<T>(error: StreamError, reader: PieceReader<FileSource>) -> Result<Result<T, Damage>> {
    match (error, file_of(reader)) {
        (StreamError::Read(_), (_, Some(cause))) => Err(cause.into()),
        (StreamError::Read(_), (_, None)) => Ok(Err(Damage::NoPiece)),
        (error, _) => Err(error.into()),
    }
}
