//! The words of the command line.

use crate::progress::Telling;
use clap::{Arg, ArgAction, ArgMatches, Command, value_parser};
use std::alloc::{AllocError, Global};

/// What `split` is told.
#[derive(Clone, Copy)]
pub struct SplitWords<'a> {
    /// How many pieces give the file back.
    pub k: u32,
    /// How many pieces are made.
    pub n: u32,
    /// The file; `-` is standard input.
    pub file: &'a str,
    /// The folder of the pieces.
    pub folder: &'a str,
    /// Whether pieces that are there may be replaced.
    pub force: bool,
    /// How progress is told.
    pub telling: Telling,
}

/// What `join` is told.
#[derive(Clone, Copy)]
pub struct JoinWords<'a> {
    /// The file to be written, and pieces and folders, of which at least one is given.
    pub words: &'a [&'a str],
    /// Whether a file that is there may be replaced.
    pub force: bool,
    /// How progress is told.
    pub telling: Telling,
}

/// What `repair` is told.
#[derive(Clone, Copy)]
pub struct RepairWords<'a> {
    /// The folder of the pieces.
    pub folder: &'a str,
    /// How progress is told.
    pub telling: Telling,
}

/// What `check` and `list` are told.
#[derive(Clone, Copy)]
pub struct PieceWords<'a> {
    /// Pieces and folders.
    pub pieces: &'a [&'a str],
    /// How progress is told.
    pub telling: Telling,
}

/// The command, with its texts.
pub fn command<'a>(alloc: Global) -> Result<Command<'a>, AllocError> {
    Command::new(alloc, "shards")
        .about("Keeps files in pieces, any K of N of which give them back")
        .version("0.2.0")
        .subcommand_required(true)
        .subcommand(split(alloc)?)?
        .subcommand(join(alloc)?)?
        .subcommand(check(alloc)?)?
        .subcommand(repair(alloc)?)?
        .subcommand(list(alloc)?)
}

fn split<'a>(alloc: Global) -> Result<Command<'a>, AllocError> {
    Command::new(alloc, "split")
        .about(
            "Writes N pieces of FILE, any K of which give it back, as DIR/FILE.000.shard and so on",
        )
        .arg(count(alloc, "K").help("How many pieces give the file back, at least 1"))?
        .arg(count(alloc, "N").help("How many pieces are written, at least K and at most 65536"))?
        .arg(
            Arg::new(alloc, "FILE").required(true).help(
                "The file, which is read once; - is standard input, whose pieces are called stdin",
            ),
        )?
        .arg(
            Arg::new(alloc, "DIR").default_value(".").help(
                "The folder of the pieces, which is made where it is missing",
            ),
        )?
        .arg(force(alloc).help(
            "Replaces pieces of a file of this name that are in DIR, all of them, once the new ones are written",
        ))?
        .arg(progress(alloc))
}

fn join<'a>(alloc: Global) -> Result<Command<'a>, AllocError> {
    Command::new(alloc, "join")
        .about(
            "Writes the file that the pieces are of: join OUT PIECE.. writes it to OUT, join - PIECE.. to standard \
             output, and join PIECE.. into the current folder, by the name that the pieces keep",
        )
        .arg(
            pieces(alloc, "WORD")
                .value_names(&["OUT|- | PIECE|DIR"])
                .help(
                    "Pieces, and folders whose files *.shard are taken. The first word is OUT where it is no folder, \
             does not end in .shard and has no piece",
                ),
        )?
        .arg(force(alloc).help("Replaces a file that is there"))?
        .arg(progress(alloc))
}

fn check<'a>(alloc: Global) -> Result<Command<'a>, AllocError> {
    Command::new(alloc, "check")
        .about(
            "Reads each piece whole and says whether it is, and of each set whether it can be restored. The status \
             is 0 only where all pieces are whole and each set can be restored",
        )
        .arg(pieces(alloc, "PIECE").help("Pieces, and folders whose files *.shard are taken"))?
        .arg(progress(alloc))
}

fn repair<'a>(alloc: Global) -> Result<Command<'a>, AllocError> {
    Command::new(alloc, "repair")
        .about(
            "Writes the lost and damaged pieces of each set in DIR anew, bit for bit, from those that are whole. The \
             status is 0 only where all pieces of each set are whole then",
        )
        .arg(
            Arg::new(alloc, "DIR")
                .required(true)
                .help("The folder whose files *.shard are the pieces"),
        )?
        .arg(progress(alloc))
}

fn list<'a>(alloc: Global) -> Result<Command<'a>, AllocError> {
    Command::new(alloc, "list")
        .about("Says of each piece what it says of itself, without reading it whole")
        .arg(pieces(alloc, "PIECE").help("Pieces, and folders whose files *.shard are taken"))
}

fn count<'a>(alloc: Global, name: &'a str) -> Arg<'a> {
    Arg::new(alloc, name)
        .required(true)
        .value_parser(value_parser!(u32))
}

fn pieces<'a>(alloc: Global, name: &'a str) -> Arg<'a> {
    Arg::new(alloc, name)
        .required(true)
        .num_args(1..)
        .action(ArgAction::Append)
}

fn force<'a>(alloc: Global) -> Arg<'a> {
    Arg::new(alloc, "force")
        .long("force")
        .action(ArgAction::SetTrue)
}

fn progress<'a>(alloc: Global) -> Arg<'a> {
    Arg::new(alloc, "progress")
        .long("progress")
        .action(ArgAction::SetTrue)
        .help("Tells on standard error how far it is, as it does on a terminal without this")
}

/// What `split` is told.
pub fn split_words<'a>(matches: &ArgMatches<'a>, terminal: bool) -> SplitWords<'a> {
    SplitWords {
        k: matches.get_one::<u32>("K").unwrap_or(0),
        n: matches.get_one::<u32>("N").unwrap_or(0),
        file: matches.get_str("FILE").unwrap_or(""),
        folder: matches.get_str("DIR").unwrap_or("."),
        force: matches.get_flag("force"),
        telling: telling(matches, terminal),
    }
}

/// What `join` is told.
pub fn join_words<'b, 'a: 'b>(matches: &'b ArgMatches<'a>, terminal: bool) -> JoinWords<'b> {
    JoinWords {
        words: matches.get_strs("WORD").unwrap_or(&[]),
        force: matches.get_flag("force"),
        telling: telling(matches, terminal),
    }
}

/// What `repair` is told.
pub fn repair_words<'a>(matches: &ArgMatches<'a>, terminal: bool) -> RepairWords<'a> {
    RepairWords {
        folder: matches.get_str("DIR").unwrap_or("."),
        telling: telling(matches, terminal),
    }
}

/// What `check` or `list` is told.
pub fn piece_words<'b, 'a: 'b>(matches: &'b ArgMatches<'a>, terminal: bool) -> PieceWords<'b> {
    PieceWords {
        pieces: matches.get_strs("PIECE").unwrap_or(&[]),
        telling: telling(matches, terminal),
    }
}

// How progress is told.
fn telling(matches: &ArgMatches<'_>, terminal: bool) -> Telling {
    if terminal {
        Telling::Terminal
    } else if matches.get_flag("progress") {
        Telling::Lines
    } else {
        Telling::Silent
    }
}
