//! Files that are written beside their names, and get these when they are whole.

use crate::system::{FileId, System, above_standard};
use anyhow::{Context, Result, bail};
use std::fs::{self, File, Metadata, OpenOptions, TryLockError};
use std::io::{self, ErrorKind};
use std::os::unix::fs::OpenOptionsExt;
use std::path::Path;

/// What the name of a file ends in that is not whole yet.
pub const UNFINISHED: &str = ".unfinished";

/// What is at this path, a link itself included.
pub fn present<R: System>(rt: &R, path: &str) -> Result<Option<Metadata>> {
    match fs::symlink_metadata(rt, path) {
        Ok(metadata) => Ok(Some(metadata)),
        Err(error) if error.kind() == ErrorKind::NotFound => Ok(None),
        Err(error) => Err(error).context(format_args!("looking for {path}")),
    }
}

/// Creates a file that is not there, to be written, and locks it.
pub fn create_new<R: System>(rt: &R, path: &str, mode: u32) -> io::Result<File> {
    OpenOptions::new()
        .write(true)
        .create_new(true)
        .mode(mode)
        .open(rt, path)
        .and_then(above_standard)
}

/// Creates a file that no other run may write to or remove while this one is at it. What an earlier run left there is
/// removed.
pub fn create_locked<R: System>(rt: &R, path: &str, mode: u32) -> Result<File> {
    remove_left(rt, path)?;
    let file = create_new(rt, path, mode).context(format_args!("writing {path}"))?;
    lock(rt, path, &file)?;
    Ok(file)
}

// Removes a file that an earlier run left unfinished.
fn remove_left<R: System>(rt: &R, path: &str) -> Result<()> {
    match present(rt, path)? {
        None => Ok(()),
        Some(there) if !there.is_file() => bail!("{path} is there, and is no file"),
        Some(_) => {
            let left = open_left(rt, path).context(format_args!("opening {path}"))?;
            lock(rt, path, &left)?;
            fs::remove_file(rt, path).context(format_args!("removing {path}"))
        }
    }
}

// Opens it, to be locked, by whichever permission it has.
fn open_left<R: System>(rt: &R, path: &str) -> io::Result<File> {
    match fs::open(rt, path) {
        Err(error) if error.kind() == ErrorKind::PermissionDenied => {
            OpenOptions::new().write(true).open(rt, path)
        }
        opened => opened,
    }
}

/// Locks a file against other runs. The system unlocks it at the end of this one, however it ends.
pub fn lock<R: System>(rt: &R, path: &str, file: &File) -> Result<()> {
    match file.try_lock() {
        Ok(()) => {}
        Err(TryLockError::WouldBlock) => bail!("{path} is being written by another run"),
        // Where a file system has no locks, runs at the same time are not told from each other.
        Err(TryLockError::Error(_)) => {}
    }
    if !is_at(rt, path, file)? {
        bail!("{path} was written by another run just now");
    }
    Ok(())
}

// Whether this file is the one at the path.
fn is_at<R: System>(rt: &R, path: &str, file: &File) -> Result<bool> {
    let opened = file.metadata().context(format_args!("opening {path}"))?;
    let there = present(rt, path)?;
    Ok(there.is_some_and(|there| FileId::of(&there) == FileId::of(&opened)))
}

/// The folder that a path is in.
pub fn folder_of(path: &str) -> &str {
    match Path::new(path).parent() {
        Some(parent) if !parent.as_str().is_empty() => parent.as_str(),
        _ => ".",
    }
}

/// Has the system keep the names in a folder, where it can.
pub fn sync_folder<R: System>(rt: &R, folder: &str) -> Result<()> {
    let synced = match fs::open(rt, folder) {
        Ok(opened) => opened.sync_all(),
        Err(error) => Err(error),
    };
    match synced {
        Err(error) if !is_lacking(&error) => Err(error).context(format_args!("writing {folder}")),
        _ => Ok(()),
    }
}

// Whether a folder may not be read, or its file system keeps no such promise.
fn is_lacking(error: &io::Error) -> bool {
    matches!(
        error.kind(),
        ErrorKind::PermissionDenied | ErrorKind::InvalidInput | ErrorKind::Unsupported
    )
}
