//! Keeps files in pieces, any `k` of which give them back.
#![tactic(auto)]

mod checking;
mod choosing;
mod ends;
mod entries;
mod errors;
mod folder;
mod found;
mod joining;
mod label;
mod listing;
mod named;
mod opening;
mod output;
mod progress;
mod renaming;
mod repairing;
mod restored;
mod sets;
mod splitting;
mod streams;
mod system;
mod words;
mod writers;

use anyhow::Result;
use clap::ArgMatches;
use shards_lib::FileCode;
use std::io::{ErrorKind, IsTerminal};
use std::process::ExitCode;
use system::System;

fn main(rt: HostRuntime) -> Result<ExitCode> {
    let held = system::hold_standard(&rt);
    let alloc = rt.alloc();
    let words: Vec<String> = match std::env::args(&rt) {
        Ok(words) => words.collect(alloc)?,
        Err(error) if error.kind() == ErrorKind::InvalidData => {
            eprintln!(rt;
                "shards: an argument is not UTF-8 text, as names have to be here; a file of another may be given as standard input"
            )?;
            return Ok(ExitCode::from(2));
        }
        Err(error) => return Err(error.into()),
    };
    let matches = match words::command(alloc)?.try_get_matches_from(words.as_slice()) {
        Ok(matches) => matches,
        Err(error) => {
            error.print(&rt)?;
            return Ok(ExitCode::from(error.exit_code() as u8));
        }
    };
    let done = run(&rt, &matches, rt.stderr().is_terminal());
    drop(held);
    match done {
        Ok(()) => Ok(ExitCode::SUCCESS),
        Err(error) => {
            let _ = eprintln!(rt; "shards: {error:#}");
            Ok(ExitCode::FAILURE)
        }
    }
}

// Runs the command that the words name.
fn run<R: System>(rt: &R, matches: &ArgMatches<'_>, terminal: bool) -> Result<()> {
    match matches.subcommand() {
        Some(("split", inner)) => {
            splitting::split_file::<FileCode, R>(rt, &words::split_words(inner, terminal))
        }
        Some(("join", inner)) => {
            joining::join_file::<FileCode, R>(rt, &words::join_words(inner, terminal))
        }
        Some(("check", inner)) => checking::check_pieces(rt, &words::piece_words(inner, terminal)),
        Some(("repair", inner)) => {
            repairing::repair_folder::<FileCode, R>(rt, &words::repair_words(inner, terminal))
        }
        Some(("list", inner)) => listing::list_pieces(rt, &words::piece_words(inner, terminal)),
        _ => Ok(()),
    }
}
