//! Where calls read bytes.

ghost use Rattle.std.specs.Prelude.{◌≡◌, ◌≤◌, ℕ, List, Option, IfOk, length};
ghost use Rattle.std.specs.Io.KnownBytes.{ReadConsumes};
ghost use Rattle.ark_bytes.specs.Transfer.{CountsFailure};
ghost use Rattle.ark_bytes.specs.Reading.{source_state, Fills};

use crate::counter::Counter;
use crate::error::{Failed, SerializationError};
use std::io::Read;

/// What calls read their bytes from.
pub trait Source {
    // The bytes that it has left, where they are known. Those of standard input, say, are not.
    ghost remaining: { Self → Option (List ℕ) };

    // How many calls of `take` answered `Failed` so far, for contracts alone.
    ghost failures: { Self → ℕ };

    /// Puts the next bytes into the buffer and tells how many these are, 0 only at the end or for an empty
    /// buffer. `Failed` takes none.
    fn take(&mut self, buffer: &mut [u8]) -> Result<usize, Failed>
        ensures bound { IfOk result (λ n. n ≤ length buffer.new) }
        ensures bytes { ReadConsumes (remaining self.old) (remaining self.new) result buffer.new }
        ensures counted { CountsFailure result (failures self.old) (failures self.new) };

    /// Fills the whole buffer. `IoError` comes where the source ends or fails before, and is the only error.
    fn take_all(&mut self, buffer: &mut [u8]) -> Result<(), SerializationError>
        ensures { Fills buffer.new (source_state remaining failures self.old)
            (source_state remaining failures self.new) result }
    {
        let mut filled = 0;
        while filled < buffer.len() {
            match self.take(&mut buffer[filled..]) {
                Ok(count) if 0 < count => filled += count,
                _ => return Err(SerializationError::IoError),
            }
        }
        Ok(())
    }
}

/// The bytes that are left of a slice. No call fails, and a buffer of known length is filled by one copy.
impl Source for &[u8] {
    ghost use Rattle.std.specs.Prelude.{Some};

    ghost remaining = { λ bytes. Some bytes.now };

    ghost failures = { λ _. 0 };

    fn take(&mut self, buffer: &mut [u8]) -> Result<usize, Failed> {
        let all = *self;
        let count = buffer.len().min(all.len());
        buffer[..count].copy_from_slice(&all[..count]);
        *self = &all[count..];
        Ok(count)
    }

    fn take_all(&mut self, buffer: &mut [u8]) -> Result<(), SerializationError> {
        let all = *self;
        if all.len() < buffer.len() {
            *self = &all[all.len()..];
            return Err(SerializationError::IoError);
        }
        buffer.copy_from_slice(&all[..buffer.len()]);
        *self = &all[buffer.len()..];
        Ok(())
    }
}

/// A `Source` over any `Read`.
///
/// Every error, `Interrupted` too, is `Failed`: no `read` is tried again.
#[derive(Drop)]
pub struct IoSource<R> {
    inner: R,
    failures: Counter,
}

impl<R> IoSource<R> {
    ghost use Rattle.ark_bytes.specs.IoSource.{io_source_inner, io_source_failures};

    /// A source that reads from `inner`, of which no call failed yet.
    pub fn new(inner: R) -> IoSource<R>
        ensures inner { io_source_inner result ≡ inner }
        ensures failures { io_source_failures result ≡ 0 }
    {
        IoSource {
            inner,
            failures: Counter::zero(),
        }
    }

    /// The reader, as the calls left it.
    pub fn into_inner(self) -> R
        ensures { result ≡ io_source_inner self }
    {
        self.inner
    }
}

impl<R: Read> Source for IoSource<R> {
    ghost use Rattle.ark_bytes.specs.IoSource.{io_source_inner, io_source_failures};

    ghost remaining = { λ source. R.remaining (io_source_inner source) };

    ghost failures = { io_source_failures };

    fn take(&mut self, buffer: &mut [u8]) -> Result<usize, Failed> {
        match self.inner.read(buffer) {
            Ok(count) => Ok(count),
            Err(_) => {
                self.failures.add_one();
                Err(Failed)
            }
        }
    }
}
