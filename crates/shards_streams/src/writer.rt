//! Pieces that are being written.

ghost use Rattle.std.specs.Prelude.{◌≡◌, ℕ, List, [], ◌++◌, length, OnOk, OnErr};
ghost use Rattle.std.specs.Io.KnownBytes.{Appends};
ghost use Rattle.sha2.specs.Sha256.{sha256};
ghost use Rattle.ark_bytes.specs.Transfer.{AppendsBeginning};

use ark_bytes::{Failed, Sink};
use sha2::{Digest, Sha256};

/// A piece that is being written, with the digest of what was.
#[derive(Drop)]
pub struct PieceWriter<W: Sink + Drop> {
    sink: W,
    hasher: Sha256,
}

impl<W: Sink + Drop> PieceWriter<W> {
    ghost use Rattle.shards_streams.specs.Writers.{piece_sink, HasHashed};

    /// A piece of which nothing was written yet.
    pub fn new(sink: W) -> Self
        ensures sink { piece_sink result ≡ sink }
        ensures none { HasHashed result [] }
    {
        PieceWriter {
            sink,
            hasher: Sha256::new(),
        }
    }

    /// The sink, as the calls left it.
    pub fn into_sink(self) -> W
        ensures { result ≡ piece_sink self }
    {
        self.sink
    }

    /// The sink, as the calls left it.
    pub fn sink(&self) -> &W
        ensures { result.now ≡ piece_sink self.now }
    {
        &self.sink
    }

    /// Writes more of the piece.
    pub fn put(&mut self, bytes: &[u8]) -> Result<(), Failed>
        ensures ok { OnOk result (Appends (W.contents (piece_sink self.old)) (W.contents (piece_sink self.new)) bytes.now) }
        ensures failed { OnErr result
            (AppendsBeginning (W.contents (piece_sink self.old)) (W.contents (piece_sink self.new)) bytes.now) }
        ensures hashed { (text : List ℕ) → HasHashed self.old text → HasHashed self.new (text ++ bytes.now) }
    {
        self.hasher.update(bytes);
        self.sink.put(bytes)
    }

    /// The SHA-256 of what was written since the last call.
    pub fn digest(&mut self) -> [u8; 32]
        ensures digest { (text : List ℕ) → HasHashed self.old text → result ≡ sha256 text }
        ensures len { length result ≡ 32 }
        ensures kept { piece_sink self.new ≡ piece_sink self.old }
    {
        self.hasher.finalize_reset()
    }

    /// Writes bytes that no digest is made of.
    pub fn put_behind(&mut self, bytes: &[u8]) -> Result<(), Failed>
        ensures ok { OnOk result (Appends (W.contents (piece_sink self.old)) (W.contents (piece_sink self.new)) bytes.now) }
        ensures failed { OnErr result
            (AppendsBeginning (W.contents (piece_sink self.old)) (W.contents (piece_sink self.new)) bytes.now) }
    {
        self.sink.put(bytes)
    }
}
