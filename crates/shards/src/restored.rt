//! The file that is restored: its name, and what is kept of it besides its bytes.

use crate::label::Label;
use crate::output::{UNFINISHED, create_locked, folder_of, present, sync_folder};
use crate::system::{FileId, System, say};
use anyhow::{Context, Result, bail};
use shards_format::MAGIC;
use std::alloc::Global;
use std::fs::{self, File, FileTimes, Metadata, Permissions};
use std::io::{self, ErrorKind, Read};
use std::os::unix::fs::{MetadataExt, PermissionsExt};
use std::time::{Duration, SystemTime, UNIX_EPOCH};

// What the name of a file that is restored has behind it until it is whole: no piece has such a name.
const RESTORED: &str = ".restored";

/// Where the bytes of a file go.
#[derive(Clone, Copy, Debug, PartialEq, Eq)]
pub enum Target<'a> {
    /// To standard output.
    Output,
    /// To a file of this name.
    File(&'a str),
    /// To a file of the name that the pieces keep, in the current folder.
    Kept,
}

/// What the words of `join` mean: the first is the file to be written where it is no folder and no piece.
pub fn target_of<'a, R: System>(
    rt: &R,
    words: &'a [&'a str],
) -> Result<(Target<'a>, &'a [&'a str])> {
    let (target, named) = match words.split_first() {
        Some((first, rest)) if *first == "-" => (Target::Output, rest),
        Some((first, rest)) if !names_pieces(rt, first)? => (Target::File(first), rest),
        _ => (Target::Kept, words),
    };
    if named.is_empty() {
        bail!("no piece is given");
    }
    Ok((target, named))
}

// Whether a word names a folder or a piece. A file that is there and can't be read might be one.
fn names_pieces<R: System>(rt: &R, word: &str) -> Result<bool> {
    match fs::metadata(rt, word) {
        Ok(there) if there.is_dir() => Ok(true),
        Ok(there) if there.is_file() && !word.ends_with(".shard") => {
            begins_as_piece(rt, word).context(format_args!("reading {word}"))
        }
        _ => Ok(word.ends_with(".shard")),
    }
}

// Whether a file begins as a piece of any version does.
fn begins_as_piece<R: System>(rt: &R, path: &str) -> io::Result<bool> {
    let mut file = fs::open(rt, path)?;
    let mut start = [0u8; 7];
    match file.read_exact(&mut start) {
        Ok(()) => Ok(start == MAGIC),
        Err(error) if error.kind() == ErrorKind::UnexpectedEof => Ok(false),
        Err(error) => Err(error),
    }
}

/// A file that is to be restored.
#[derive(Drop)]
pub struct Restored {
    path: String,
    // Where it is written until it is whole.
    unfinished: String,
    // The permissions that it gets.
    permissions: Option<u32>,
    // When it was last changed.
    modified: Option<SystemTime>,
    force: bool,
}

impl Restored {
    /// The file of a set with this label. One that is there is refused, unless it may be replaced and is none of the
    /// files that were named.
    pub fn new<R: System>(
        rt: &R,
        target: Target<'_>,
        label: &[u8],
        force: bool,
        named: &[FileId],
    ) -> Result<Restored> {
        let alloc = rt.alloc();
        let label = Label::from_bytes(alloc, label)?;
        let path = path_of(alloc, target, &label)?;
        let mut unfinished = String::from_str(alloc, &path)?;
        unfinished.push_str(RESTORED)?;
        unfinished.push_str(UNFINISHED)?;
        refuse_named(rt, &path, named)?;
        refuse_named(rt, &unfinished, named)?;
        let there = refuse_present(rt, &path, force)?;
        let kept = label.filter(|_| there.is_none());
        let kept_permissions = kept.as_ref().map(|label| label.permissions);
        Ok(Restored {
            path,
            unfinished,
            permissions: kept_permissions
                .or(there.map(|there| there.mode()))
                .map(|mode| mode & 0o777),
            modified: kept.and_then(|label| time_of(&label)),
            force,
        })
    }

    /// The file's name.
    pub fn path(&self) -> &str {
        &self.path
    }

    /// Creates the file beside its name: for nobody else to read where it is not known that others may.
    pub fn create<R: System>(&self, rt: &R) -> Result<File> {
        let mode = match self.permissions {
            Some(permissions) => permissions & 0o400 | 0o200,
            None => 0o666,
        };
        create_locked(rt, &self.unfinished, mode)
    }

    /// Gives the file its name, which is written to its end.
    pub fn finish<R: System>(&self, rt: &R, file: &File) -> Result<()> {
        let path = &self.path;
        file.sync_all().context(format_args!("writing {path}"))?;
        self.give_kept(rt, file);
        refuse_present(rt, path, self.force)?;
        fs::rename(rt, &self.unfinished, path).context(format_args!("renaming {path}"))?;
        sync_folder(rt, folder_of(path))
    }

    // Gives the file what is kept. Where the file system has no such thing it is told.
    fn give_kept<R: System>(&self, rt: &R, file: &File) {
        let path = &self.path;
        if let Some(permissions) = self.permissions {
            if let Err(error) = file.set_permissions(Permissions::from_mode(permissions)) {
                say(
                    rt,
                    format_args!("{path} does not get its permissions: {error}"),
                );
            }
        }
        if let Some(modified) = self.modified {
            if let Err(error) = file.set_times(FileTimes::new().set_modified(modified)) {
                say(rt, format_args!("{path} does not get its time: {error}"));
            }
        }
    }

    /// Removes what was written.
    pub fn give_up<R: System>(&self, rt: &R) {
        let _ = fs::remove_file(rt, &self.unfinished);
    }
}

// The path of the file that is to be restored.
fn path_of(alloc: Global, target: Target<'_>, label: &Option<Label>) -> Result<String> {
    match (target, label) {
        (Target::File(path), _) => Ok(String::from_str(alloc, path)?),
        (_, Some(label)) => match std::str::from_utf8(&label.name) {
            Ok(name) => Ok(String::from_str(alloc, name)?),
            Err(_) => bail!("the kept name is not UTF-8 text: the file's name is to be given"),
        },
        (_, None) => bail!("the pieces keep no name: the file's name is to be given"),
    }
}

// When the file was last changed, where this can be told: not before 1970.
fn time_of(label: &Label) -> Option<SystemTime> {
    let seconds = u64::try_from(label.seconds.cast_signed()).ok()?;
    let since = Duration::from_secs(seconds).saturating_add(Duration::from_nanos(u64::from(
        label.nanoseconds,
    )));
    UNIX_EPOCH.checked_add(since)
}

// Refuses a path that leads to one of the named files.
fn refuse_named<R: System>(rt: &R, path: &str, named: &[FileId]) -> Result<()> {
    match fs::metadata(rt, path) {
        Ok(there) if named.contains(&FileId::of(&there)) => {
            bail!("{path} is one of the pieces, and would be replaced")
        }
        _ => Ok(()),
    }
}

// Refuses a path where something is that may not be replaced, and tells what is to be replaced.
fn refuse_present<R: System>(rt: &R, path: &str, force: bool) -> Result<Option<Metadata>> {
    let there = present(rt, path)?;
    match &there {
        // A link is no file here, wherever it leads.
        Some(found) if !found.is_file() => bail!("{path} is there, and is no file"),
        Some(_) if !force => bail!("{path} is there already; --force replaces it"),
        _ => Ok(there),
    }
}
