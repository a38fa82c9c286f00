//! The names in a folder.

use crate::system::System;
use anyhow::{Context, Result};
use std::alloc::{AllocError, Global};
use std::fs;
use std::io::ErrorKind;

/// The names in a folder.
#[derive(Debug, Drop)]
pub struct Names {
    /// Those that are text.
    pub names: Vec<String>,
    /// How many others there are.
    pub others: u64,
}

/// Reads the names in a folder.
pub fn names_in<R: System>(rt: &R, folder: &str) -> Result<Names> {
    let alloc = rt.alloc();
    let mut found = Names {
        names: Vec::new(alloc),
        others: 0,
    };
    let entries = fs::read_dir(rt, folder).context(format_args!("reading {folder}"))?;
    for entry in entries {
        match entry {
            Ok(entry) => found
                .names
                .push(String::from_str(alloc, entry.file_name())?)?,
            Err(error) if error.kind() == ErrorKind::InvalidFilename => {
                found.others = found.others.saturating_add(1);
            }
            Err(error) => return Err(error).context(format_args!("reading {folder}")),
        }
    }
    Ok(found)
}

/// The path of a name in a folder.
pub fn path_in(alloc: Global, folder: &str, name: &str) -> Result<String, AllocError> {
    let slash = if folder.ends_with('/') { "" } else { "/" };
    format!(in alloc; "{folder}{slash}{name}")
}
