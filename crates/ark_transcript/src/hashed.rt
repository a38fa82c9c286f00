//! Texts that are hashed as they grow.

ghost use Rattle.std.specs.Prelude.{◌≡◌, List, ℕ, [], ◌++◌, ◌<◌, ◌^◌, length, Some, OnOk, OnErr, IsOk};
ghost use Rattle.sha2.specs.Sha256.{sha256};
ghost use Rattle.std.specs.Int.{w64, to_le_bytes};
ghost use Rattle.ark_bytes.specs.declared.compress.Compress.{Compress};
ghost use Rattle.ark_transcript.specs.Calls.{counted};
ghost use Rattle.ark_transcript.specs.Challenges.{block, squeezed};

use crate::calls::Text;
use ark_bytes::{CanonicalSerialize, Compress, Failed, Sink};
use sha2::{Digest, Sha256};
use std::alloc::AllocError;
use std::marker::Model;

/// A text, of which only the state of its SHA-256 is kept.
#[derive(Drop)]
pub(crate) struct Hashed {
    hasher: Sha256,
    text: Text,
}

impl Model for Hashed {
    ghost use Rattle.std.specs.Prelude.{List, ℕ};
    ghost use Rattle.sha2.specs.Hashers.{Holds256};

    ghost Value = { List ℕ };

    ghost view = { λ h. h.text.bytes };

    ghost invariant = { λ h. Holds256 h.hasher h.text.bytes };
}

impl Hashed {
    /// The empty text.
    pub(crate) fn new() -> Hashed
        ensures { result ≡ [] }
    {
        Hashed {
            hasher: Sha256::new(),
            text: Text::none(),
        }
    }

    /// Puts bytes behind the text.
    pub(crate) fn add(&mut self, bytes: &[u8])
        ensures { self.new ≡ self.old ++ bytes.now }
    {
        self.hasher.update(bytes);
        self.text = Text::and(&self.text, bytes);
    }

    /// Puts a number behind the text, in eight bytes.
    pub(crate) fn add_number(&mut self, number: usize)
        ensures { self.new ≡ self.old ++ to_le_bytes w64 number }
    {
        self.add(&(number as u64).to_le_bytes());
    }

    /// Puts bytes behind the text, and before them how many these are.
    pub(crate) fn add_counted(&mut self, bytes: &[u8])
        ensures { self.new ≡ self.old ++ counted bytes.now }
    {
        self.add_number(bytes.len());
        self.add(bytes);
    }

    /// Puts the spelling of a value behind the text.
    pub(crate) fn add_value<T: CanonicalSerialize>(&mut self, value: &T)
        ensures { self.new ≡ self.old ++ (T.format Compress.Yes).spelling value.now }
    {
        match value.serialize_compressed(self) {
            Ok(()) => {}
            Err(_) => unreachable!(),
        }
    }

    /// The text, for contracts alone.
    pub(crate) fn text(&self) -> Text
        ensures { result.bytes ≡ self.now }
    {
        Text::and(&self.text, &[])
    }

    /// The same text again.
    pub(crate) fn again(&self) -> Hashed
        ensures { result ≡ self.now }
    {
        let hasher = match self.hasher.clone() {
            Ok(hasher) => hasher,
            Err(_) => unreachable!(),
        };
        Hashed {
            hasher,
            text: self.text(),
        }
    }

    /// The block of this index after the text.
    fn block(&self, index: usize) -> [u8; 32]
        ensures { result ≡ block self.now index }
    {
        let mut whole = self.again();
        whole.add_number(index);
        whole.digest()
    }

    /// The digest of the text.
    fn digest(self) -> [u8; 32]
        ensures { result ≡ sha256 self }
    {
        self.hasher.finalize()
    }

    /// Fills the buffer with the blocks after the text.
    pub(crate) fn squeeze(&self, out: &mut [u8])
        ensures { out.new ≡ squeezed self.now (length out.old) }
    {
        let mut block = [0u8; 32];
        'bytes: for i in 0..out.len() {
            if i % 32 == 0 {
                block = self.block(i / 32);
            }
            out[i] = block[i % 32];
        }
    }
}

/// What is written is put behind the text. No call fails.
impl Sink for Hashed {
    ghost use Rattle.std.specs.Prelude.{Some};

    ghost contents = { λ text. Some text };

    ghost failures = { λ _. 0 };

    fn put(&mut self, bytes: &[u8]) -> Result<(), Failed> {
        self.add(bytes);
        Ok(())
    }
}
