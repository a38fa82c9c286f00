//! How failures of the system are told.

use std::io::{self, ErrorKind};

/// What is told of a file that could not be read or written.
pub fn cause_of(failure: Option<io::Error>) -> io::Error {
    failure.unwrap_or(io::Error::other("it ends too early"))
}

/// Whether it is no fault of the file that it could not be opened: too many are open, or memory is short.
pub fn is_shortage(error: &io::Error) -> bool {
    error.kind() == ErrorKind::OutOfMemory || matches!(error.raw_os_error(), Some(12 | 23 | 24))
}
