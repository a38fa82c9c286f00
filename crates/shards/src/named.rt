//! What the words of the command line name.

use crate::entries::{names_in, path_in};
use crate::system::{System, say};
use anyhow::{Result, bail};
use std::fs;

/// What words name.
#[derive(Debug, Drop)]
pub struct Named {
    /// The paths of what may be pieces.
    pub paths: Vec<String>,
    /// How many folders have none or could not be read, and how many names in folders are no text.
    pub unread: u64,
}

/// The paths that words name: each file, and of a folder those in it that end in `.shard`.
pub fn named_paths<R: System>(rt: &R, words: &[&str]) -> Result<Named> {
    let alloc = rt.alloc();
    let mut paths = Vec::new(alloc);
    let mut unread = 0u64;
    for word in words {
        match fs::metadata(rt, *word) {
            Ok(found) if found.is_dir() => {
                let others = match push_folder(rt, word, &mut paths) {
                    Ok(others) => others,
                    Err(error) => {
                        say(rt, format_args!("{error:#}"));
                        1
                    }
                };
                unread = unread.saturating_add(others);
            }
            _ => paths.push(String::from_str(alloc, word)?)?,
        }
    }
    Ok(Named { paths, unread })
}

// The paths in a folder that end in `.shard`, by name. It tells how many names are no text.
fn push_folder<R: System>(rt: &R, folder: &str, paths: &mut Vec<String>) -> Result<u64> {
    let alloc = rt.alloc();
    let mut found = names_in(rt, folder)?;
    found.names.retain(|name| name.ends_with(".shard"));
    if found.names.is_empty() && found.others == 0 {
        bail!("{folder}: no file in it ends in .shard");
    }
    found.names.sort()?;
    for name in &found.names {
        paths.push(path_in(alloc, folder, name)?)?;
    }
    if found.others != 0 {
        say(
            rt,
            format_args!(
                "{folder}: names in it that are not UTF-8 text: {}",
                found.others
            ),
        );
    }
    Ok(found.others)
}
