//! Files as sources and sinks: a call that a signal interrupts is tried again, and the last failure is kept to be told.

ghost use Rattle.std.specs.Io.{ReadsAtMost, WritesAtMost};

use ark_bytes::{IoSink, IoSource};
use shards_streams::PieceReader;
use std::alloc::Global;
use std::fs::File;
use std::io::{self, BufReader, BufWriter, ErrorKind, Read, Write};

/// How many bytes of a file are read or written at a time.
pub const BUFFER: usize = 65536;

// How often a call is tried again.
const TRIES: usize = 1000;

/// A reader or a writer, with its last failure.
#[derive(Drop)]
pub struct Tried<T> {
    inner: T,
    failure: Option<io::Error>,
}

impl<T> Tried<T> {
    /// Of which no call failed yet.
    pub fn new(inner: T) -> Self {
        Tried {
            inner,
            failure: None,
        }
    }

    /// What was read or written, and why the last call failed.
    pub fn into_parts(self) -> (T, Option<io::Error>) {
        (self.inner, self.failure)
    }
}

impl<T: Read> Read for Tried<T> {
    fn read(&mut self, buffer: &mut [u8]) -> io::Result<usize> {
        let answer = read_again(&mut self.inner, buffer);
        if let Err(error) = &answer {
            self.failure = Some(*error);
        }
        answer
    }
}

impl<T: Write> Write for Tried<T> {
    fn write(&mut self, bytes: &[u8]) -> io::Result<usize> {
        let answer = write_again(&mut self.inner, bytes);
        if let Err(error) = &answer {
            self.failure = Some(*error);
        }
        answer
    }

    fn flush(&mut self) -> io::Result<()> {
        self.inner.flush()
    }
}

// Reads, and again where a signal came first.
fn read_again<T: Read>(inner: &mut T, buffer: &mut [u8]) -> io::Result<usize>
    ensures { ReadsAtMost result buffer.new }
{
    for _ in 0..TRIES {
        match inner.read(buffer) {
            Err(error) if error.kind() == ErrorKind::Interrupted => {}
            answer => return answer,
        }
    }
    Err(io::Error::from(ErrorKind::Interrupted))
}

// Writes, and again where a signal came first.
fn write_again<T: Write>(inner: &mut T, bytes: &[u8]) -> io::Result<usize>
    ensures { WritesAtMost result bytes.now }
{
    for _ in 0..TRIES {
        match inner.write(bytes) {
            Err(error) if error.kind() == ErrorKind::Interrupted => {}
            answer => return answer,
        }
    }
    Err(io::Error::from(ErrorKind::Interrupted))
}

/// A file that is read, many bytes at a time.
pub type FileSource = IoSource<BufReader<Tried<File>>>;

/// A file that is written, many bytes at a time.
pub type FileSink = IoSink<BufWriter<Tried<File>>>;

/// The file, to be read.
pub fn file_source(alloc: Global, file: File) -> io::Result<FileSource> {
    let buffered = BufReader::with_capacity(alloc, BUFFER, Tried::new(file))?;
    Ok(IoSource::new(buffered))
}

/// The file, to be written. What it was given is in the file only after `finished`.
pub fn file_sink(alloc: Global, file: File) -> io::Result<FileSink> {
    let buffered = BufWriter::with_capacity(alloc, BUFFER, Tried::new(file))?;
    Ok(IoSink::new(buffered))
}

/// The file of a piece that was read, and why the last call failed.
pub fn file_of(reader: PieceReader<FileSource>) -> (File, Option<io::Error>) {
    let buffered = reader.into_source().into_inner();
    buffered.into_inner().into_parts()
}

/// The file with all that the sink was given.
pub fn finished(sink: FileSink) -> io::Result<File> {
    match sink.into_inner().into_inner() {
        Ok(written) => Ok(written.into_parts().0),
        Err(error) => Err(error.into_error()),
    }
}

/// Why the sink failed.
pub fn failure_of(sink: FileSink) -> Option<io::Error> {
    sink.into_inner().get_ref().failure
}
