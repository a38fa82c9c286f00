//! `shards check`.

use crate::ends::{OpenPiece, open_piece};
use crate::found::FoundPiece;
use crate::named::named_paths;
use crate::progress::{Progress, Telling, Watched};
use crate::sets::sets_of;
use crate::streams::file_of;
use crate::system::System;
use crate::words::PieceWords;
use anyhow::{Result, bail};
use shards_format::Damage;
use shards_streams::{PieceReader, StreamError, check_piece};
use std::io::Print;

/// Says of each piece whether it is whole, and of each set whether it can be restored.
pub fn check_pieces<R: System>(rt: &R, words: &PieceWords<'_>) -> Result<()> {
    let alloc = rt.alloc();
    let mut pieces = Vec::new(alloc);
    let named = named_paths(rt, words.pieces)?;
    let mut others = named.unread;
    for path in &named.paths {
        match check_path(rt, path, words.telling) {
            Ok(piece) => {
                let (number, n) = (piece.number, piece.key.n);
                println!(rt; "{path}: piece {number} of {n}, whole")?;
                pieces.push(piece)?;
            }
            Err(error) => {
                others = others.saturating_add(1);
                println!(rt; "{path}: {error:#}")?;
            }
        }
    }
    let lost = tell_sets(rt, &pieces)?;
    if others != 0 || lost != 0 {
        bail!("pieces that are not whole: {others}; sets that can't be restored: {lost}");
    }
    Ok(())
}

// Says of each set whether it can be restored, and tells how many can't.
fn tell_sets<R: System>(rt: &R, pieces: &[FoundPiece]) -> Result<u64> {
    let alloc = rt.alloc();
    let sets = sets_of(alloc, pieces)?;
    let mut lost = 0u64;
    for set in &sets {
        let line = set.line(alloc, pieces, sets.len() > 1)?;
        if set.is_enough(alloc, pieces)? {
            println!(rt; "{line}: can be restored")?;
        } else {
            lost = lost.saturating_add(1);
            println!(rt; "{line}: can't be restored")?;
        }
    }
    Ok(lost)
}

/// The piece in a file, which is whole.
pub fn check_path<R: System>(rt: &R, path: &str, telling: Telling) -> Result<FoundPiece> {
    let alloc = rt.alloc();
    let OpenPiece { reader, id, size } = open_piece(rt, path)?;
    let progress = Progress::new(rt, telling, path, Some(size));
    let mut reader = PieceReader::new(Watched::new(reader.into_source(), progress));
    match check_piece(alloc, &mut reader, size as usize) {
        Ok(Ok(ends)) => {
            reader.into_source().finish();
            FoundPiece::new(alloc, path, id, &ends)
        }
        Ok(Err(damage)) => bail!("{damage}"),
        Err(StreamError::Read(_)) => {
            let (_, failure) = file_of(PieceReader::new(reader.into_source().into_inner()));
            match failure {
                Some(cause) => Err(cause.into()),
                None => bail!("{}", Damage::NoPiece),
            }
        }
        Err(error) => Err(error.into()),
    }
}
