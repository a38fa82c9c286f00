//! What the program takes of the system.

use std::fmt::Display;
use std::fs::{File, Metadata, OpenOptions};
use std::io::{self, Eprint};
use std::os::fd::AsRawFd;
use std::os::unix::fs::MetadataExt;
use std::rt::{Files, Runtime};

/// All of it, as one bound.
pub trait System: Runtime + Files<File = File> + AllocGlobal {}

impl<R: Runtime + Files<File = File> + AllocGlobal> System for R {}

/// Says something on standard error. Where this is closed it is not said, and nothing fails by that.
pub fn say<E: Eprint, D: Display + Drop>(rt: &E, message: D) {
    let _ = rt.eprintln(message);
}

/// Which file it is, whatever it is called.
#[derive(Clone, Copy, Debug, PartialEq, Eq)]
pub struct FileId {
    device: u64,
    number: u64,
}

impl FileId {
    /// That of the file with this metadata.
    pub fn of(metadata: &Metadata) -> FileId {
        FileId {
            device: metadata.dev(),
            number: metadata.ino(),
        }
    }
}

/// What stands at those of the descriptors 0, 1 and 2 that the program was started without, so that no file that it opens
/// is taken for a standard stream. Reading from it or writing to it fails.
#[derive(Drop)]
pub struct Standard {
    input: Option<File>,
    output: Option<File>,
    error: Option<File>,
}

/// Takes the standard descriptors that are closed.
pub fn hold_standard<R: Files<File = File>>(files: &R) -> Standard {
    Standard {
        input: low_file(files, OpenOptions::new().write(true), 0),
        output: low_file(files, OpenOptions::new().read(true), 1),
        error: low_file(files, OpenOptions::new().read(true), 2),
    }
}

// A file that fails to be used, where its descriptor is this one.
fn low_file<R: Files<File = File>>(files: &R, options: &OpenOptions, wanted: i32) -> Option<File> {
    let opened: io::Result<File> = options.open(files, "/dev/null");
    opened.ok().filter(|file| file.as_raw_fd() == wanted)
}

/// Refuses a file that took the place of a standard stream, to which messages would be written.
pub fn above_standard(file: File) -> io::Result<File> {
    if file.as_raw_fd() > 2 {
        Ok(file)
    } else {
        Err(io::Error::other("a standard stream is closed"))
    }
}
