//! `shards split`.

ghost use Rattle.std.specs.Prelude.{◌≡◌, ℕ, ◌<◌, [], length, get_or};
ghost use Rattle.shards_streams.specs.Writers.{HasHashed};

use crate::errors::cause_of;
use crate::folder::{Lock, Place};
use crate::label::{LONGEST_LABEL, Label};
use crate::progress::{Progress, Watched};
use crate::renaming::{rename_all, restore, to_replace};
use crate::streams::{BUFFER, FileSink, Tried};
use crate::system::{System, say};
use crate::words::SplitWords;
use crate::writers::{new_writers, sync_all, unwritten};
use anyhow::{Context, Result, anyhow, bail};
use ark_bytes::IoSource;
use shards_format::{StripeCode, places_from};
use shards_streams::{PieceWriter, StreamError, split_into};
use std::alloc::Global;
use std::fs::{self, Metadata};
use std::io::{BufReader, Input, Read};
use std::os::unix::fs::MetadataExt;
use std::path::Path;

/// Writes the pieces of a file.
pub fn split_file<C: StripeCode, R: System>(rt: &R, words: &SplitWords<'_>) -> Result<()> {
    let (k, n) = (words.k, words.n);
    let Some(code) = C::new(k as usize, n as usize) else {
        bail!("no code has {k} of {n} pieces: 0 < K <= N <= 65536 is needed");
    };
    if words.file == "-" {
        return split_source(
            rt,
            &code,
            &Job::new(rt.alloc(), words, "stdin"),
            rt.reader(),
        );
    }
    let file = words.file;
    let input = fs::open(rt, file).context(format_args!("opening {file}"))?;
    let metadata = input.metadata().context(format_args!("opening {file}"))?;
    let job = Job::of_file(rt.alloc(), words, &metadata)?;
    split_source(rt, &code, &job, input)?;
    refuse_changes(rt, file, &metadata)
}

// Tells by an error where a file was changed meanwhile.
fn refuse_changes<R: System>(rt: &R, file: &str, before: &Metadata) -> Result<()> {
    let Ok(after) = fs::metadata(rt, file) else {
        return Ok(());
    };
    let was = (before.len(), before.mtime(), before.mtime_nsec());
    if before.is_file() && was != (after.len(), after.mtime(), after.mtime_nsec()) {
        bail!("{file} was changed meanwhile; the pieces are of what was read");
    }
    Ok(())
}

// What is split, and where to.
#[derive(Drop)]
struct Job<'a> {
    words: &'a SplitWords<'a>,
    place: Place<'a>,
    // The label of the pieces.
    label: Vec<u8>,
    // The permissions of the pieces.
    mode: u32,
    // How many bytes the file has, where that is known.
    len: Option<u64>,
}

impl<'a> Job<'a> {
    // Of what nothing is known but a name.
    fn new(alloc: Global, words: &'a SplitWords<'a>, base: &'a str) -> Job<'a> {
        Job {
            words,
            place: Place {
                folder: words.folder,
                base,
            },
            label: Vec::new(alloc),
            mode: 0o666,
            len: None,
        }
    }

    // Of a file with this metadata.
    fn of_file(alloc: Global, words: &'a SplitWords<'a>, metadata: &Metadata) -> Result<Job<'a>> {
        let file = words.file;
        let Some(base) = Path::new(file).file_name() else {
            bail!("{file} is not the name of a file");
        };
        if metadata.is_dir() {
            bail!("{file} is a folder");
        }
        if !metadata.is_file() {
            return Ok(Job::new(alloc, words, base));
        }
        Ok(Job {
            label: label_of(alloc, base, metadata)?,
            // Pieces are for those to read that may read the file.
            mode: 0o600 | metadata.mode() & 0o066,
            len: Some(metadata.len()),
            ..Job::new(alloc, words, base)
        })
    }
}

// The label of the pieces of a file with this name and metadata.
fn label_of(alloc: Global, name: &str, metadata: &Metadata) -> Result<Vec<u8>> {
    let label = Label {
        permissions: metadata.mode() & 0o7777,
        seconds: metadata.mtime().cast_unsigned(),
        nanoseconds: u32::try_from(metadata.mtime_nsec()).unwrap_or(0),
        name: Vec::from_slice(alloc, name.as_bytes())?,
    };
    Ok(label.to_bytes(alloc)?)
}

// Writes the pieces of what is read from a source, while no other run writes pieces of this name into the folder.
fn split_source<C: StripeCode, R: System, S: Read + Drop>(
    rt: &R,
    code: &C,
    job: &Job<'_>,
    source: S,
) -> Result<()> {
    let folder = job.place.folder;
    fs::create_dir_all(rt, folder).context(format_args!("making {folder}"))?;
    let mut lock = Lock::take(rt, &job.place)?;
    restore(rt, &job.place, &mut lock)?;
    let written = write_pieces(rt, code, job, &mut lock, source);
    if written.is_err() {
        if let Err(error) = restore(rt, &job.place, &mut lock) {
            say(
                rt,
                format_args!("{error:#}: the next run does what is left to do in {folder}"),
            );
            return written;
        }
    }
    lock.release(rt);
    written
}

// Writes the pieces, and gives them their names.
fn write_pieces<C: StripeCode, R: System, S: Read + Drop>(
    rt: &R,
    code: &C,
    job: &Job<'_>,
    lock: &mut Lock,
    source: S,
) -> Result<()> {
    let alloc = rt.alloc();
    let n = code.n();
    let numbers = places_from(alloc, 0, n)?;
    let replaced = to_replace(rt, &job.place, n, job.words.force)?;
    let writers = new_writers(rt, &job.place, job.mode, &numbers)?;
    write_unfinished(rt, code, job, writers, source)?;
    rename_all(rt, &job.place, lock, &numbers, &replaced)?;
    tell_removed(rt, &job.place, n, &replaced)
}

// Says which pieces are gone for which no new ones have come.
fn tell_removed<R: System>(rt: &R, place: &Place<'_>, n: usize, replaced: &[usize]) -> Result<()> {
    for number in replaced {
        if *number >= n {
            let path = place.piece(rt.alloc(), *number)?;
            say(
                rt,
                format_args!("{path} was a piece of another set; it is removed"),
            );
        }
    }
    Ok(())
}

// Writes the pieces to their ends: that a disk is full may come late.
fn write_unfinished<C: StripeCode, R: System, S: Read + Drop>(
    rt: &R,
    code: &C,
    job: &Job<'_>,
    writers: Vec<PieceWriter<FileSink>>,
    source: S,
) -> Result<()>
    requires writers { length writers.items ≡ C.n_of code.now }
    requires new { (i : ℕ) (d : _) → i < length writers.items → HasHashed (get_or writers.items i d) [] }
{
    if job.label.len() > LONGEST_LABEL {
        bail!("the name of {} is too long", job.words.file);
    }
    let alloc = rt.alloc();
    let numbers = places_from(alloc, 0, code.n())?;
    let mut writers = writers;
    let progress = Progress::new(rt, job.words.telling, "split", job.len);
    let buffered = BufReader::with_capacity(alloc, BUFFER, Tried::new(source))?;
    let mut source = Watched::new(IoSource::new(buffered), progress);
    match split_into(alloc, code, &job.label, &mut source, writers.as_mut_slice()) {
        Ok(_) => {
            source.finish();
            sync_all(alloc, &job.place, &numbers, writers)
        }
        Err(StreamError::Write(number)) => {
            Err(unwritten(alloc, &job.place, &numbers, writers, number))
        }
        Err(StreamError::Read(_)) => {
            let (_, failure) = source.into_inner().into_inner().into_inner().into_parts();
            let (file, cause) = (job.words.file, cause_of(failure));
            Err(anyhow!("reading {file}: {cause}"))
        }
        Err(error) => Err(anyhow!("{}: {error}", job.words.file)),
    }
}
