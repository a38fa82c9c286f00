//! `shards join`.

use crate::checking::check_path;
use crate::choosing::{choose_set, find_pieces, leave_out, tell_others};
use crate::errors::cause_of;
use crate::found::FoundPiece;
use crate::opening::{OpenSet, Stop, open_set};
use crate::progress::{Progress, Watched};
use crate::restored::{Restored, Target, target_of};
use crate::sets::PieceSet;
use crate::streams::{FileSource, Tried, failure_of, file_of, file_sink, finished};
use crate::system::{FileId, System};
use crate::words::JoinWords;
use anyhow::{Context, Result, anyhow, bail};
use ark_bytes::{IoSink, Sink};
use shards_format::StripeCode;
use shards_streams::{ChosenPieces, PieceReader, StreamError, join_into};
use std::alloc::Global;
use std::fs::File;
use std::io;

/// Writes the file that pieces are of.
pub fn join_file<C: StripeCode, R: System>(rt: &R, words: &JoinWords<'_>) -> Result<()> {
    let (target, named) = target_of(rt, words.words)?;
    let found = find_pieces(rt, named)?;
    let mut pieces = found.pieces;
    let job = Job {
        target,
        named: found.named,
        words,
    };
    let set = choose_set(rt, &mut pieces, words.telling)?;
    tell_others(rt, &pieces, &set)?;
    pieces.retain(|piece| piece.key == set.key);
    for _ in 0..=pieces.len() {
        let set = choose_set(rt, &mut pieces, words.telling)?;
        match join_set::<C, R>(rt, &job, &pieces, &set) {
            Ok(()) => return Ok(()),
            Err(Stop::Piece(index, why)) => leave_out(rt, &mut pieces, index, &why)?,
            Err(Stop::Whole(error)) => return Err(error),
        }
    }
    bail!("no piece is left")
}

// What is joined.
#[derive(Drop)]
struct Job<'a> {
    target: Target<'a>,
    // Which files were named.
    named: Vec<FileId>,
    words: &'a JoinWords<'a>,
}

// Joins pieces of a set. One that can't be used is told, to begin anew without it.
fn join_set<C: StripeCode, R: System>(
    rt: &R,
    job: &Job<'_>,
    pieces: &[FoundPiece],
    set: &PieceSet,
) -> Result<(), Stop> {
    let opened = open_set(rt, pieces, set)?;
    if job.target == Target::Output {
        check_all(rt, job, pieces, &opened.indices)?;
        return join_to_output::<C, R>(rt, job, opened);
    }
    let restored = Restored::new(rt, job.target, &opened.label, job.words.force, &job.named)?;
    let file = restored.create(rt)?;
    let written = join_to_file::<C, R>(rt, job, &restored, opened, file);
    if written.is_err() {
        restored.give_up(rt);
    }
    written
}

// Checks pieces before they are joined, where what was written can't be taken back.
fn check_all<R: System>(
    rt: &R,
    job: &Job<'_>,
    pieces: &[FoundPiece],
    indices: &[usize],
) -> Result<(), Stop> {
    for index in indices {
        if let Some(piece) = pieces.get(*index) {
            if let Err(why) = check_path(rt, &piece.path, job.words.telling) {
                return Err(Stop::Piece(*index, why));
            }
        }
    }
    Ok(())
}

// Joins pieces to a file, and gives it its name.
fn join_to_file<C: StripeCode, R: System>(
    rt: &R,
    job: &Job<'_>,
    restored: &Restored,
    opened: OpenSet,
    file: File,
) -> Result<(), Stop> {
    let progress = Progress::new(rt, job.words.telling, "joined", Some(opened.trailer.len));
    let sink = match file_sink(rt.alloc(), file) {
        Ok(sink) => sink,
        Err(error) => return Err(Stop::Whole(error.into())),
    };
    let mut sink = Watched::new(sink, progress);
    match join_opened::<C, _>(rt.alloc(), opened, &mut sink) {
        Ok(()) => {
            let file = finished(sink.finish()).context(format_args!(
                "writing {}",
                restored.path()
            ))?;
            Ok(restored.finish(rt, &file)?)
        }
        Err(None) => {
            let (path, cause) = (restored.path(), cause_of(failure_of(sink.into_inner())));
            Err(Stop::Whole(anyhow!("writing {path}: {cause}")))
        }
        Err(Some(stop)) => Err(stop),
    }
}

// Joins pieces to standard output, where none can be left out any more.
fn join_to_output<C: StripeCode, R: System>(
    rt: &R,
    job: &Job<'_>,
    opened: OpenSet,
) -> Result<(), Stop> {
    let progress = Progress::new(rt, job.words.telling, "joined", Some(opened.trailer.len));
    let mut sink = Watched::new(IoSink::new(Tried::new(io::writer(rt))), progress);
    match join_opened::<C, _>(rt.alloc(), opened, &mut sink) {
        Ok(()) => {
            sink.finish();
            Ok(())
        }
        Err(None) => {
            let (_, failure) = sink.into_inner().into_inner().into_parts();
            let cause = cause_of(failure);
            Err(Stop::Whole(anyhow!("writing to standard output: {cause}")))
        }
        Err(Some(Stop::Piece(_, why))) => {
            Err(Stop::Whole(why.context("what was written to standard output is not the file")))
        }
        Err(Some(stop)) => Err(stop),
    }
}

// Joins pieces. `None` says that the sink failed.
fn join_opened<C: StripeCode, W: Sink>(
    alloc: Global,
    opened: OpenSet,
    sink: &mut W,
) -> Result<(), Option<Stop>> {
    let OpenSet {
        k,
        n,
        places,
        indices,
        mut readers,
        trailer,
        ..
    } = opened;
    let Some(code) = C::new(k, n) else {
        return Err(Some(Stop::Whole(anyhow!("no code has {k} of {n} pieces"))));
    };
    let chosen = ChosenPieces {
        places: &places,
        trailer: &trailer,
    };
    match join_into(alloc, &code, &chosen, readers.as_mut_slice(), sink) {
        Ok(()) => Ok(()),
        Err(StreamError::Write(_)) => Err(None),
        Err(StreamError::Read(a)) => Err(Some(unread(readers, &indices, a))),
        Err(StreamError::Damaged(a)) => Err(Some(refused(&indices, a, anyhow!("damaged")))),
        Err(error) => Err(Some(Stop::Whole(error.into()))),
    }
}

// Why a piece was not read to its end.
fn unread(mut readers: Vec<PieceReader<FileSource>>, indices: &[usize], a: usize) -> Stop {
    readers.truncate(a.saturating_add(1));
    let failure = match readers.pop() {
        Some(reader) => file_of(reader).1,
        None => None,
    };
    refused(indices, a, cause_of(failure).into())
}

// That the piece of this reader can't be used.
fn refused(indices: &[usize], a: usize, why: anyhow::Error) -> Stop {
    match indices.get(a) {
        Some(index) => Stop::Piece(*index, why),
        None => Stop::Whole(why),
    }
}
