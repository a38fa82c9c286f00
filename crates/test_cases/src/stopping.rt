//! Ends that fail once, and work again afterwards: whoever asks once more is seen.

use std::io;
use std::io::{ErrorKind, Read, Write};

/// Gives the first bytes, fails once, and then gives the others.
#[derive(Drop)]
pub struct StopReader<'a> {
    pub first: &'a [u8],
    pub others: &'a [u8],
    pub has_failed: bool,
    /// Whether it was asked after it had failed.
    pub is_asked_again: bool,
}

impl<'a> StopReader<'a> {
    pub fn new(first: &'a [u8], others: &'a [u8]) -> Self {
        StopReader {
            first,
            others,
            has_failed: false,
            is_asked_again: false,
        }
    }
}

impl Read for StopReader<'_> {
    fn read(&mut self, buf: &mut [u8]) -> io::Result<usize> {
        if self.first.is_empty() && !self.has_failed {
            self.has_failed = true;
            return Err(io::Error::from(ErrorKind::Interrupted));
        }
        if self.first.is_empty() {
            self.is_asked_again = true;
            self.first = self.others;
        }
        let all = self.first;
        let count = buf.len().min(all.len());
        buf[..count].copy_from_slice(&all[..count]);
        self.first = &all[count..];
        Ok(count)
    }
}

/// Takes at most three bytes at a time, fails once it has taken `room` of them, whose memory it is given, and takes all
/// afterwards.
#[derive(Drop)]
pub struct StopWriter {
    pub room: usize,
    pub taken: Vec<u8>,
    pub has_failed: bool,
    /// Whether it was asked after it had failed.
    pub is_asked_again: bool,
}

impl StopWriter {
    pub fn new(room: usize, taken: Vec<u8>) -> Self {
        StopWriter {
            room,
            taken,
            has_failed: false,
            is_asked_again: false,
        }
    }

    /// Whether it holds just these bytes, and has failed and was not asked again.
    pub fn stopped_after(&self, bytes: &[u8]) -> bool {
        self.has_failed && !self.is_asked_again && self.taken.as_slice() == bytes
    }
}

impl Write for StopWriter {
    fn write(&mut self, buf: &[u8]) -> io::Result<usize> {
        if self.has_failed {
            self.is_asked_again = true;
            return Ok(buf.len());
        }
        if self.room == 0 {
            self.has_failed = true;
            return Err(io::Error::from(ErrorKind::Interrupted));
        }
        let count = buf.len().min(self.room).min(3);
        self.taken.extend_from_slice(&buf[..count])?;
        self.room -= count;
        Ok(count)
    }

    fn flush(&mut self) -> io::Result<()> {
        Ok(())
    }
}
