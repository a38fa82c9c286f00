//! Pieces that are written beside their names.

ghost use Rattle.std.specs.Prelude.{◌≡◌, ℕ, ◌<◌, [], length, get_or, IfOk};
ghost use Rattle.shards_streams.specs.Writers.{HasHashed};

use crate::errors::cause_of;
use crate::folder::Place;
use crate::output::create_new;
use crate::streams::{FileSink, failure_of, file_sink, finished};
use crate::system::System;
use anyhow::{Context, Result, anyhow, bail};
use shards_streams::PieceWriter;
use std::alloc::Global;
use std::fs::File;

/// A writer of each of these pieces, whose files get this mode.
pub fn new_writers<R: System>(
    rt: &R,
    place: &Place<'_>,
    mode: u32,
    numbers: &[usize],
) -> Result<Vec<PieceWriter<FileSink>>>
    ensures len { IfOk result (λ writers. length writers.items ≡ length numbers.now) }
    ensures new { IfOk result (λ writers. (i : ℕ) (d : _) → i < length writers.items
        → HasHashed (get_or writers.items i d) []) }
{
    let alloc = rt.alloc();
    let mut writers = Vec::new(alloc);
    for number in numbers {
        let path = place.unfinished(alloc, *number)?;
        let file = create_new(rt, &path, mode).context(format_args!("writing {path}"))?;
        writers.push(PieceWriter::new(file_sink(alloc, file)?))?;
    }
    Ok(writers)
}

/// Why the piece of writer `a` could not be written.
pub fn unwritten(
    alloc: Global,
    place: &Place<'_>,
    numbers: &[usize],
    mut writers: Vec<PieceWriter<FileSink>>,
    a: usize,
) -> anyhow::Error {
    writers.truncate(a.saturating_add(1));
    let failure = match writers.pop() {
        Some(writer) => failure_of(writer.into_sink()),
        None => None,
    };
    let cause = cause_of(failure);
    match place.unfinished(alloc, numbers.get(a).copied().unwrap_or(0)) {
        Ok(path) => anyhow!("writing {path}: {cause}"),
        Err(error) => error.into(),
    }
}

/// Has the system write what it still holds of the pieces of these numbers.
pub fn sync_all(
    alloc: Global,
    place: &Place<'_>,
    numbers: &[usize],
    writers: Vec<PieceWriter<FileSink>>,
) -> Result<()> {
    for (number, writer) in numbers.iter().zip(writers) {
        let synced = finished(writer.into_sink()).and_then(|file| file.sync_all());
        if let Err(error) = synced {
            let path = place.unfinished(alloc, *number)?;
            bail!("writing {path}: {error}");
        }
    }
    Ok(())
}
