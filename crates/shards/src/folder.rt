//! The files of one split in a folder: its pieces, what is not whole yet, what was put aside, and the file that is
//! locked meanwhile. No other run touches the files of this name while the lock is held.

use crate::entries::names_in;
use crate::found::{FoundPiece, look_at};
use crate::output::{UNFINISHED, lock, present};
use crate::system::{System, above_standard};
use anyhow::{Context, Result, bail};
use std::alloc::{AllocError, Global};
use std::fs::{self, File, OpenOptions};
use std::io::{self, Read, Write};
use std::os::unix::fs::OpenOptionsExt;

// What the name of a piece ends in that new ones replace, until they are all there.
const REPLACED: &str = ".replaced";

// How many bytes the lock file's mark has at most.
const MARK: usize = 24;

/// Where the pieces of a file are written.
#[derive(Clone, Copy)]
pub struct Place<'a> {
    /// The folder.
    pub folder: &'a str,
    /// The file's name.
    pub base: &'a str,
}

impl Place<'_> {
    /// The path of the piece of this number.
    pub fn piece(&self, alloc: Global, number: usize) -> Result<String, AllocError> {
        let (folder, base) = (self.folder, self.base);
        format!(in alloc; "{folder}/{base}.{number:03}.shard")
    }

    /// That of the piece while it is not whole.
    pub fn unfinished(&self, alloc: Global, number: usize) -> Result<String, AllocError> {
        let mut path = self.piece(alloc, number)?;
        path.push_str(UNFINISHED)?;
        Ok(path)
    }

    /// That of an older piece while it is put aside.
    pub fn replaced(&self, alloc: Global, number: usize) -> Result<String, AllocError> {
        let mut path = self.piece(alloc, number)?;
        path.push_str(REPLACED)?;
        Ok(path)
    }

    // That of the lock file.
    fn lock_path(&self, alloc: Global) -> Result<String, AllocError> {
        let (folder, base) = (self.folder, self.base);
        format!(in alloc; "{folder}/{base}.shard.lock")
    }
}

/// Which files of a base are in its folder, by their numbers.
#[derive(Debug, Drop)]
pub struct Present {
    /// The pieces.
    pub pieces: Vec<usize>,
    /// Those that are not whole.
    pub unfinished: Vec<usize>,
    /// Those that were put aside.
    pub replaced: Vec<usize>,
}

impl Present {
    /// Whether all pieces are there whose number is below this.
    pub fn has_all(&self, n: usize) -> bool {
        self.pieces.iter().filter(|number| **number < n).count() == n
    }
}

/// Looks which files of a base are there. A name that is no text is not one of these.
pub fn look<R: System>(rt: &R, place: &Place<'_>) -> Result<Present> {
    let alloc = rt.alloc();
    let mut found = Present {
        pieces: Vec::new(alloc),
        unfinished: Vec::new(alloc),
        replaced: Vec::new(alloc),
    };
    for name in &names_in(rt, place.folder)?.names {
        note(alloc, place, name, &mut found)?;
    }
    Ok(found)
}

// Notes the number in a name, where it is one of these.
fn note(
    alloc: Global,
    place: &Place<'_>,
    name: &str,
    found: &mut Present,
) -> Result<(), AllocError> {
    let Some((number, end)) = parsed(place, name) else {
        return Ok(());
    };
    let mut written = format!(in alloc; "{number:03}.shard")?;
    written.push_str(end)?;
    let behind = name.len().saturating_sub(written.len());
    if name.get(behind..) != Some(written.as_str()) {
        return Ok(());
    }
    match end {
        "" => found.pieces.push(number)?,
        UNFINISHED => found.unfinished.push(number)?,
        REPLACED => found.replaced.push(number)?,
        _ => {}
    }
    Ok(())
}

// The number in the name of a file of the base, and what stands behind `.shard`.
fn parsed<'a>(place: &Place<'_>, name: &'a str) -> Option<(usize, &'a str)> {
    let rest = name.strip_prefix(place.base)?.strip_prefix('.')?;
    let (digits, end) = rest.split_once(".shard")?;
    let number = digits.parse::<usize>().ok()?;
    Some((number, end))
}

/// The lock on the files of a base.
#[derive(Drop)]
pub struct Lock {
    path: String,
    file: File,
    renaming: Option<usize>,
}

impl Lock {
    /// Takes it.
    pub fn take<R: System>(rt: &R, place: &Place<'_>) -> Result<Lock> {
        let path = place.lock_path(rt.alloc())?;
        if present(rt, &path)?.is_some_and(|there| !there.is_file()) {
            bail!("{path} is there, and is no file");
        }
        let mut file = open_lock(rt, &path).context(format_args!("writing {path}"))?;
        lock(rt, &path, &file)?;
        let renaming = read_mark(&mut file).context(format_args!("reading {path}"))?;
        Ok(Lock {
            path,
            file,
            renaming,
        })
    }

    /// How many pieces are given their names, by this run or one that ended meanwhile.
    pub fn renaming(&self) -> Option<usize> {
        self.renaming
    }

    /// Marks that so many pieces are given their names from now on.
    pub fn mark(&mut self, alloc: Global, n: usize) -> Result<()> {
        self.renaming = Some(n);
        let mark = format!(in alloc; "{n}\n")?;
        let written = self
            .file
            .write_all(mark.as_bytes())
            .and_then(|()| self.file.sync_all());
        written.context(format_args!("writing {}", self.path))
    }

    /// Marks that none is any more.
    pub fn clear(&mut self) -> Result<()> {
        let cleared = self.file.set_len(0).and_then(|()| self.file.sync_all());
        cleared.context(format_args!("writing {}", self.path))?;
        self.renaming = None;
        Ok(())
    }

    /// Gives it back.
    pub fn release<R: System>(self, rt: &R) {
        let _ = fs::remove_file(rt, &self.path);
    }
}

// Opens the lock file, which is made where it is missing.
fn open_lock<R: System>(rt: &R, path: &str) -> io::Result<File> {
    OpenOptions::new()
        .read(true)
        .append(true)
        .create(true)
        .mode(0o600)
        .open(rt, path)
        .and_then(above_standard)
}

// What the lock file has: nothing, or how many pieces are given their names. Another mark counts as more than there are.
fn read_mark(file: &mut File) -> io::Result<Option<usize>> {
    let mut mark = [0u8; MARK];
    let count = file.read(&mut mark)?;
    if count == 0 {
        return Ok(None);
    }
    let text = std::str::from_utf8(&mark[..count.min(MARK)]).unwrap_or("");
    let number = text
        .strip_suffix('\n')
        .and_then(|digits| digits.parse::<usize>().ok());
    Ok(Some(number.unwrap_or(usize::MAX)))
}

/// The piece at this path, where one is there by its ends.
pub fn piece_at<R: System>(rt: &R, path: &str) -> Result<Option<FoundPiece>> {
    match present(rt, path)? {
        Some(there) if there.is_file() => {
            let looked = look_at(rt, path).context(format_args!("reading {path}"))?;
            Ok(looked.ok())
        }
        _ => Ok(None),
    }
}
