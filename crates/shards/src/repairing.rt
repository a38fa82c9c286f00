//! `shards repair`.

ghost use Rattle.std.specs.Prelude.{◌≡◌, ℕ, ◌<◌, ◌≤◌, [], length, get_or};
ghost use Rattle.shards_streams.specs.Writers.{HasHashed};

use crate::checking::check_path;
use crate::ends::open_piece;
use crate::entries::names_in;
use crate::folder::{Lock, Place};
use crate::found::{FoundPiece, SetKey, look_at};
use crate::label::LONGEST_LABEL;
use crate::named::named_paths;
use crate::opening::{OpenSet, Stop, open_set};
use crate::output::{present, sync_folder};
use crate::renaming::{give_name, restore};
use crate::sets::{PieceSet, sets_of};
use crate::streams::FileSink;
use crate::system::{FileId, System, say};
use crate::words::RepairWords;
use crate::writers::{new_writers, sync_all, unwritten};
use anyhow::{Context, Result, bail};
use shards_format::{Damage, StripeCode, missing_places};
use shards_streams::{ChosenPieces, LostPieces, PieceWriter, StreamError, repair_into};
use std::alloc::{AllocError, Global};
use std::fs;
use std::io::Print;
use std::os::unix::fs::MetadataExt;
use std::path::Path;

/// Writes the lost and damaged pieces of each set in a folder anew.
pub fn repair_folder<C: StripeCode, R: System>(rt: &R, words: &RepairWords<'_>) -> Result<()> {
    let alloc = rt.alloc();
    restore_left(rt, words.folder)?;
    let checked = checked_pieces(rt, words)?;
    let pieces = &checked.whole;
    let sets = sets_of(alloc, pieces)?;
    let (mut lost, mut written) = (0u64, Vec::new(alloc));
    for set in &sets {
        let line = set.line(alloc, pieces, sets.len() > 1)?;
        if !set.is_enough(alloc, pieces)? {
            println!(rt; "{line}: can't be restored")?;
            lost = lost.saturating_add(1);
        } else {
            println!(rt; "{line}")?;
            written.append(&mut repair_set::<C, R>(rt, words.folder, pieces, set)?)?;
        }
    }
    let left = checked.left(&written);
    if left != 0 || lost != 0 {
        bail!("pieces that are not whole: {left}; sets that can't be restored: {lost}");
    }
    Ok(())
}

// Brings the folder to what it was before runs that didn't end, and removes what these left.
fn restore_left<R: System>(rt: &R, folder: &str) -> Result<()> {
    for name in &names_in(rt, folder)?.names {
        if let Some(base) = name.strip_suffix(".shard.lock") {
            let place = Place { folder, base };
            let mut lock = Lock::take(rt, &place)?;
            restore(rt, &place, &mut lock)?;
            lock.release(rt);
        }
    }
    Ok(())
}

// What the files of a folder are whose names end in `.shard`.
#[derive(Drop)]
struct CheckedPieces {
    // The whole pieces.
    whole: Vec<FoundPiece>,
    // The paths of the others.
    others: Vec<String>,
    // How many could not be looked for.
    unread: u64,
}

impl CheckedPieces {
    // How many are not whole, where these paths were written anew.
    fn left(&self, written: &[String]) -> u64 {
        let others = self.others.iter().filter(|path| {
            let name = Path::new(path.as_str()).file_name();
            !written
                .iter()
                .any(|path| Path::new(path.as_str()).file_name() == name)
        });
        self.unread.saturating_add(others.count() as u64)
    }
}

// Reads each file whole, and names what is no whole piece.
fn checked_pieces<R: System>(rt: &R, words: &RepairWords<'_>) -> Result<CheckedPieces> {
    let named = named_paths(rt, &[words.folder])?;
    let mut checked = CheckedPieces {
        whole: Vec::new(rt.alloc()),
        others: Vec::new(rt.alloc()),
        unread: named.unread,
    };
    for path in named.paths {
        match check_path(rt, &path, words.telling) {
            Ok(piece) => checked.whole.push(piece)?,
            Err(error) => {
                say(rt, format_args!("{path}: {error:#}"));
                checked.others.push(path)?;
            }
        }
    }
    Ok(checked)
}

// Writes the pieces of a set anew that are not among these, and tells their paths.
fn repair_set<C: StripeCode, R: System>(
    rt: &R,
    folder: &str,
    pieces: &[FoundPiece],
    set: &PieceSet,
) -> Result<Vec<String>> {
    let alloc = rt.alloc();
    let lost = missing_places(alloc, set.key.n as usize, &set.places(alloc, pieces)?)?;
    if lost.is_empty() {
        return Ok(Vec::new(alloc));
    }
    let base = base_of(alloc, pieces, set)?;
    let place = Place {
        folder,
        base: &base,
    };
    let mut lock = Lock::take(rt, &place)?;
    let repaired = write_lost::<C, R>(rt, &place, pieces, set);
    if repaired.is_err() {
        restore(rt, &place, &mut lock)?;
    }
    lock.release(rt);
    repaired
}

// What the names of a set's pieces begin with, before the number: that of the first one whose name has its number.
fn base_of(alloc: Global, pieces: &[FoundPiece], set: &PieceSet) -> Result<String> {
    for index in &set.members {
        if let Some(piece) = pieces.get(*index) {
            if let Some(base) = base_in(alloc, piece)? {
                return Ok(String::from_str(alloc, base)?);
            }
        }
    }
    bail!(
        "no piece has a name that ends in its number and .shard, so the others' names are not known"
    )
}

// What the name of a piece begins with, before its number.
fn base_in<'a>(alloc: Global, piece: &'a FoundPiece) -> Result<Option<&'a str>, AllocError> {
    let number = piece.number;
    let end = format!(in alloc; ".{number:03}.shard")?;
    Ok(
        Path::new(piece.path.as_str())
            .file_name()
            .and_then(|name| name.strip_suffix(end.as_str())),
    )
}

// Refuses where something has the name of a lost piece that may not be replaced.
fn refuse_others<R: System>(
    rt: &R,
    place: &Place<'_>,
    pieces: &[FoundPiece],
    set: &PieceSet,
    lost: &[usize],
) -> Result<()> {
    for number in lost {
        let path = place.piece(rt.alloc(), *number)?;
        if let Some(there) = present(rt, &path)? {
            let is_whole = pieces.iter().any(|piece| piece.id == FileId::of(&there));
            if is_whole || stands_apart(rt, &path, &set.key)? {
                bail!("{path} is another piece, and stands in the way");
            }
        }
    }
    Ok(())
}

// Whether a file is of another set or another version. Of one that can't be opened it is not known.
fn stands_apart<R: System>(rt: &R, path: &str, key: &SetKey) -> Result<bool> {
    open_piece(rt, path).context(format_args!("opening {path}"))?;
    match look_at(rt, path) {
        Ok(Ok(piece)) => Ok(piece.key != *key),
        Ok(Err(damage)) => Ok(matches!(damage, Damage::Version(_))),
        Err(_) => Ok(false),
    }
}

// Writes the pieces of a set that are lost beside their names, gives them these, and tells them.
fn write_lost<C: StripeCode, R: System>(
    rt: &R,
    place: &Place<'_>,
    pieces: &[FoundPiece],
    set: &PieceSet,
) -> Result<Vec<String>> {
    let alloc = rt.alloc();
    let opened = match open_set(rt, pieces, set) {
        Ok(opened) => opened,
        Err(stop) => return Err(why(pieces, stop)),
    };
    let mode = mode_of(rt, pieces, set)?;
    let numbers = missing_places(alloc, opened.n, &set.places(alloc, pieces)?)?;
    refuse_others(rt, place, pieces, set, &numbers)?;
    let writers = new_writers(rt, place, mode, &numbers)?;
    repair_opened::<C>(alloc, place, opened, &numbers, writers)?;
    refuse_others(rt, place, pieces, set, &numbers)?;
    let mut written = Vec::new(alloc);
    for number in &numbers {
        give_name(rt, place, *number)?;
        let path = place.piece(alloc, *number)?;
        println!(rt; "{path}: written anew")?;
        written.push(path)?;
    }
    sync_folder(rt, place.folder)?;
    Ok(written)
}

// The permissions of a set's pieces.
fn mode_of<R: System>(rt: &R, pieces: &[FoundPiece], set: &PieceSet) -> Result<u32> {
    let first = set.members.first().and_then(|index| pieces.get(*index));
    let Some(piece) = first else {
        bail!("no piece is given");
    };
    let there = fs::metadata(rt, &piece.path).context(format_args!("opening {}", piece.path))?;
    Ok(there.mode() & 0o666)
}

// Why pieces could not be opened.
fn why(pieces: &[FoundPiece], stop: Stop) -> anyhow::Error {
    match stop {
        Stop::Whole(error) => error,
        Stop::Piece(index, error) => match pieces.get(index) {
            Some(piece) => error.context(format_args!("{}", piece.path)),
            None => error,
        },
    }
}

// Makes the pieces of these numbers anew of others, and has the system write what it still holds of them.
fn repair_opened<C: StripeCode>(
    alloc: Global,
    place: &Place<'_>,
    opened: OpenSet,
    numbers: &[usize],
    writers: Vec<PieceWriter<FileSink>>,
) -> Result<()>
    requires few { length numbers.now ≤ 65536 }
    requires below { (b : ℕ) → b < length numbers.now → get_or numbers.now b 0 < opened.n }
    requires writers { length writers.items ≡ length numbers.now }
    requires new { (i : ℕ) (d : _) → i < length writers.items → HasHashed (get_or writers.items i d) [] }
{
    let OpenSet {
        k,
        n,
        places,
        mut readers,
        label,
        trailer,
        ..
    } = opened;
    let mut writers = writers;
    let Some(code) = C::new(k, n) else {
        bail!("no code has {k} of {n} pieces");
    };
    if label.len() > LONGEST_LABEL {
        bail!("the label is too long");
    }
    let chosen = ChosenPieces {
        places: &places,
        trailer: &trailer,
    };
    let lost = lost_pieces(chosen, &label, numbers);
    match repair_into(
        alloc,
        &code,
        &lost,
        readers.as_mut_slice(),
        writers.as_mut_slice(),
    ) {
        Ok(()) => sync_all(alloc, place, numbers, writers),
        Err(StreamError::Write(a)) => Err(unwritten(alloc, place, numbers, writers, a)),
        Err(StreamError::Damaged(_) | StreamError::Read(_)) => {
            bail!("pieces of the set were changed meanwhile, or can't be read any more")
        }
        Err(error) => Err(error.into()),
    }
}

// The pieces of these numbers, with this label, and what they are made of.
fn lost_pieces<'a>(
    chosen: ChosenPieces<'a>,
    label: &'a [u8],
    numbers: &'a [usize],
) -> LostPieces<'a>
    requires few { length numbers.now ≤ 65536 }
    requires small { (b : ℕ) → b < length numbers.now → get_or numbers.now b 0 < 65536 }
    ensures chosen { result.chosen.places.now ≡ chosen.entry.places.now }
    ensures label { result.label.now ≡ label.now }
    ensures places { result.places.now ≡ numbers.now }
{
    LostPieces {
        chosen,
        label,
        places: numbers,
    }
}
