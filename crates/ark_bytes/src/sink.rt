//! Where calls write bytes.
ghost use Rattle.std.specs.Prelude.{◌≡◌, ℕ, List, [], Option, OnOk, OnErr, IfOk, IsOk, IsSome};
ghost use Rattle.std.specs.Io.KnownBytes.{Appends};
ghost use Rattle.ark_bytes.specs.Transfer.{AppendsBeginning, CountsFailure};

use crate::counter::Counter;
use crate::error::Failed;
use std::io::Write;

/// What calls write their bytes to.
pub trait Sink {
    // The bytes that it holds, where they are known. Those of standard output, say, are not.
    ghost contents: { Self → Option (List ℕ) };

    // How many calls of `put` answered `Failed` so far, for contracts alone.
    ghost failures: { Self → ℕ };

    /// Appends the bytes, or a beginning of them before `Failed`.
    fn put(&mut self, bytes: &[u8]) -> Result<(), Failed>
        ensures ok { OnOk result (Appends (contents self.old) (contents self.new) bytes.now) }
        ensures failed { OnErr result
            (AppendsBeginning (contents self.old) (contents self.new) bytes.now) }
        ensures counted { CountsFailure result (failures self.old) (failures self.new) };
}

/// A `Sink` over any `Write`.
///
/// A `write` that takes nothing, and every error, `Interrupted` too, is `Failed`: no `write` is tried again.
/// Nothing is flushed here: `into_inner` gives the writer back, to be flushed.
#[derive(Drop)]
pub struct IoSink<W> {
    inner: W,
    failures: Counter,
}

impl<W> IoSink<W> {
    ghost use Rattle.ark_bytes.specs.IoSink.{io_sink_inner, io_sink_failures};

    /// A sink that writes to `inner`, of which no call failed yet.
    pub fn new(inner: W) -> IoSink<W>
        ensures inner { io_sink_inner result ≡ inner }
        ensures failures { io_sink_failures result ≡ 0 }
    {
        IoSink {
            inner,
            failures: Counter::zero(),
        }
    }

    /// The writer, as the calls left it.
    pub fn into_inner(self) -> W
        ensures { result ≡ io_sink_inner self }
    {
        self.inner
    }
}

impl<W: Write> Sink for IoSink<W> {
    ghost use Rattle.ark_bytes.specs.IoSink.{io_sink_inner, io_sink_failures};

    ghost contents = { λ sink. W.contents (io_sink_inner sink) };

    ghost failures = { io_sink_failures };

    /// Writes until all bytes are taken. With no bytes it is `Ok`, and nothing is written.
    fn put(&mut self, bytes: &[u8]) -> Result<(), Failed>
        ensures ok { OnOk result (Appends (W.contents (io_sink_inner self.old))
            (W.contents (io_sink_inner self.new)) bytes.now) }
        ensures failed { OnErr result (AppendsBeginning (W.contents (io_sink_inner self.old))
            (W.contents (io_sink_inner self.new)) bytes.now) }
        ensures counted { CountsFailure result
            (io_sink_failures self.old) (io_sink_failures self.new) }
        ensures empty { bytes.now ≡ [] → IsOk result × (self.new ≡ self.old) }

        // Where it is known what the writer holds, a failure is seen there: not all bytes were taken.
        ensures short { IsSome (W.contents (io_sink_inner self.old)) → OnErr result
            (¬ Appends (W.contents (io_sink_inner self.old)) (W.contents (io_sink_inner self.new)) bytes.now) }
    {
        let mut rest = bytes;
        while !rest.is_empty() {
            match self.inner.write(rest) {
                Ok(count) if 0 < count => rest = &rest[count..],
                _ => {
                    self.failures.add_one();
                    return Err(Failed);
                }
            }
        }
        Ok(())
    }
}
