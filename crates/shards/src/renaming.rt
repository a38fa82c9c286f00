//! How the pieces of a split get their names, all of them or none.
//!
//! While the lock file has its mark, pieces that new ones replace are put aside, and only then the new ones get their
//! names. So a piece is new where it is of the set of those that are unfinished, and none is unfinished under its number.
//! The mark says how many there are. What was put aside is removed once the mark is cleared.

use crate::folder::{Lock, Place, Present, look, piece_at};
use crate::found::SetKey;
use crate::output::{present, sync_folder};
use crate::system::System;
use anyhow::{Context, Result, bail};
use std::fs;

/// Brings the folder to what it was before a run that didn't end, and removes what this left.
pub fn restore<R: System>(rt: &R, place: &Place<'_>, lock: &mut Lock) -> Result<()> {
    let found = look(rt, place)?;
    if is_cut_off(&found, lock.renaming()) {
        take_back(rt, place, &found)?;
        bring_back(rt, place, &found.replaced)?;
        sync_folder(rt, place.folder)?;
    }
    if lock.renaming().is_some() {
        lock.clear()?;
    }
    let left = look(rt, place)?;
    for number in &left.unfinished {
        remove(rt, &place.unfinished(rt.alloc(), *number)?)?;
    }
    remove_replaced(rt, place, &left.replaced)
}

// Whether so many pieces were being given their names, and not all have got them. Without a mark no run leaves both pieces
// that are unfinished and some that were put aside.
fn is_cut_off(found: &Present, renaming: Option<usize>) -> bool {
    match renaming {
        Some(n) => !found.unfinished.is_empty() || !found.has_all(n),
        None => !found.unfinished.is_empty() && !found.replaced.is_empty(),
    }
}

// Takes their names from pieces that are new.
fn take_back<R: System>(rt: &R, place: &Place<'_>, found: &Present) -> Result<()> {
    if found.pieces.is_empty() || found.unfinished.is_empty() {
        return Ok(());
    }
    let key = unfinished_set(rt, place, &found.unfinished)?;
    for number in &found.pieces {
        if *number < key.n as usize && !found.unfinished.contains(number) {
            take_back_piece(rt, place, &key, *number)?;
        }
    }
    Ok(())
}

// The set that is unfinished.
fn unfinished_set<R: System>(rt: &R, place: &Place<'_>, unfinished: &[usize]) -> Result<SetKey> {
    for number in unfinished {
        let path = place.unfinished(rt.alloc(), *number)?;
        if let Ok(Some(piece)) = piece_at(rt, &path) {
            return Ok(piece.key);
        }
    }
    let Place { folder, base } = place;
    bail!(
        "{folder} has pieces of {base} of two sets: which ones an earlier run has renamed can't be told"
    )
}

// Takes its name from a piece, where it is of this set.
fn take_back_piece<R: System>(
    rt: &R,
    place: &Place<'_>,
    key: &SetKey,
    number: usize,
) -> Result<()> {
    let alloc = rt.alloc();
    let path = place.piece(alloc, number)?;
    match piece_at(rt, &path)? {
        Some(piece) if piece.key == *key => {
            let unfinished = place.unfinished(alloc, number)?;
            fs::rename(rt, &path, &unfinished).context(format_args!("renaming {path}"))
        }
        _ => Ok(()),
    }
}

// Gives pieces that were put aside their names again.
fn bring_back<R: System>(rt: &R, place: &Place<'_>, replaced: &[usize]) -> Result<()> {
    let alloc = rt.alloc();
    for number in replaced {
        let (aside, path) = (
            place.replaced(alloc, *number)?,
            place.piece(alloc, *number)?,
        );
        if present(rt, &path)?.is_some() {
            bail!(
                "{aside} was put aside by an earlier run, and {path} is there again: one of them is to be removed"
            );
        }
        fs::rename(rt, &aside, &path).context(format_args!("renaming {aside}"))?;
    }
    Ok(())
}

// Removes pieces that new ones have replaced.
fn remove_replaced<R: System>(rt: &R, place: &Place<'_>, numbers: &[usize]) -> Result<()> {
    for number in numbers {
        remove(rt, &place.replaced(rt.alloc(), *number)?)?;
    }
    Ok(())
}

// Removes a file.
fn remove<R: System>(rt: &R, path: &str) -> Result<()> {
    fs::remove_file(rt, path).context(format_args!("removing {path}"))
}

/// The pieces that are there under the names that new ones get, or of a greater number: these are to be replaced. One that
/// may not be is refused.
pub fn to_replace<R: System>(
    rt: &R,
    place: &Place<'_>,
    n: usize,
    force: bool,
) -> Result<Vec<usize>> {
    let mut found = look(rt, place)?;
    found.pieces.sort_unstable();
    let mut replaced = Vec::new(rt.alloc());
    for number in &found.pieces {
        if is_in_the_way(rt, place, n, *number)? {
            if !force {
                let path = place.piece(rt.alloc(), *number)?;
                bail!("{path} is there already; --force replaces all pieces of this name");
            }
            replaced.push(*number)?;
        }
    }
    Ok(replaced)
}

// Whether what has the name of this piece has to go: where a new one gets it, or where it is a piece.
fn is_in_the_way<R: System>(rt: &R, place: &Place<'_>, n: usize, number: usize) -> Result<bool> {
    let path = place.piece(rt.alloc(), number)?;
    match present(rt, &path)? {
        None => Ok(false),
        Some(there) if there.is_file() => Ok(number < n || piece_at(rt, &path)?.is_some()),
        Some(_) if number < n => bail!("{path} is there, and is no file"),
        Some(_) => Ok(false),
    }
}

/// Gives new pieces their names, in place of the ones that are to be replaced. Where it fails, `restore` takes back what was
/// done.
pub fn rename_all<R: System>(
    rt: &R,
    place: &Place<'_>,
    lock: &mut Lock,
    numbers: &[usize],
    replaced: &[usize],
) -> Result<()> {
    sync_folder(rt, place.folder)?;
    lock.mark(rt.alloc(), numbers.len())?;
    put_aside(rt, place, replaced)?;
    for number in numbers {
        refuse_taken(rt, &place.piece(rt.alloc(), *number)?)?;
        give_name(rt, place, *number)?;
    }
    sync_folder(rt, place.folder)?;
    lock.clear()?;
    remove_replaced(rt, place, replaced)
}

// Refuses a name that something has got meanwhile.
fn refuse_taken<R: System>(rt: &R, path: &str) -> Result<()> {
    match present(rt, path)? {
        None => Ok(()),
        Some(_) => bail!("{path} has come meanwhile"),
    }
}

// Puts aside the pieces that new ones replace.
fn put_aside<R: System>(rt: &R, place: &Place<'_>, replaced: &[usize]) -> Result<()> {
    let alloc = rt.alloc();
    for number in replaced {
        let (path, aside) = (
            place.piece(alloc, *number)?,
            place.replaced(alloc, *number)?,
        );
        fs::rename(rt, &path, &aside).context(format_args!("renaming {path}"))?;
    }
    Ok(())
}

/// Gives a new piece its name, in place of what has this.
pub fn give_name<R: System>(rt: &R, place: &Place<'_>, number: usize) -> Result<()> {
    let alloc = rt.alloc();
    let (unfinished, path) = (
        place.unfinished(alloc, number)?,
        place.piece(alloc, number)?,
    );
    fs::rename(rt, &unfinished, &path).context(format_args!("renaming {unfinished}"))
}
