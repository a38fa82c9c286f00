//! Transcripts.

ghost use Rattle.std.specs.Prelude.{◌≡◌, ◌≢◌, List, [], ◌∷◌, ◌++◌, ◌<◌, ◌≤◌, ◌^◌, length};
ghost use Rattle.std.specs.Prelude.{IfOk, IfSome, IsNone, OnOk, OnErr};
ghost use Rattle.std.specs.Int.{w64, from_le_bytes};
ghost use Rattle.ark_bytes.specs.declared.compress.Compress.{Compress};
ghost use Rattle.ark_transcript.specs.Calls.{AllFit, Call, Begun, Absorbed, Asked};
ghost use Rattle.ark_transcript.specs.Challenges.{IsChallenge, challenge_of, then_asked};

use crate::calls::{Calls, Note, Text};
use crate::elements::{element_buffer, element_of};
use crate::error::TooLong;
use crate::hashed::Hashed;
use ark_traits::{CanonicalSerialize, Compress, Field};
use std::alloc::{AllocError, Global};
use std::fmt;
use std::marker::Model;

// What tells the calls apart.
const BEGUN: u8 = 0;

const ABSORBED: u8 = 1;

const ASKED: u8 = 2;

// How often bytes are asked for until they spell an element: one try in twenty gives one of an extension of
// degree four over 31 bits.
const TRIES: u32 = 4096;

/// What a prover or a verifier said so far: calls, in contracts the list of them, of which only the state of
/// a hash is kept. Each call has a label, and its spelling tells the label, how long each part is, and the
/// part.
#[derive(Drop)]
pub struct Transcript {
    hashed: Hashed,
    calls: Calls,
}

impl Model for Transcript {
    ghost use Rattle.std.specs.Prelude.{List};
    ghost use Rattle.ark_transcript.specs.Calls.{Call};
    ghost use Rattle.ark_transcript.specs.Kept.{Keeps};

    ghost Value = { List Call };

    ghost view = { λ t. t.calls.list };

    ghost invariant = { λ t. Keeps t.hashed t.calls.list };
}

impl Transcript {
    /// A transcript that is begun, with a label that names the protocol.
    pub fn new(label: &[u8]) -> Transcript
        ensures { result ≡ Begun label.now ∷ [] }
    {
        let mut hashed = Hashed::new();
        hashed.add(&[BEGUN]);
        hashed.add_counted(label);
        Transcript {
            hashed,
            calls: Calls::then(&Calls::none(), &Note::Begun(label)),
        }
    }

    /// Absorbs bytes under a label.
    pub fn absorb_bytes(&mut self, label: &[u8], bytes: &[u8])
        ensures { self.new ≡ self.old ++ Absorbed label.now bytes.now ∷ [] }
    {
        self.hashed.add(&[ABSORBED]);
        self.hashed.add_counted(label);
        self.hashed.add_counted(bytes);
        let before = Text::none();
        let after = Text::and(&before, bytes);
        self.calls = Calls::then(&self.calls, &Note::Absorbed(label, &before, &after));
    }

    /// Absorbs the bytes that spell a value, compressed, under a label. `TooLong` comes exactly where these
    /// are 2^64 or more, and then nothing was absorbed.
    pub fn absorb<T: CanonicalSerialize>(&mut self, label: &[u8], value: &T) -> Result<(), TooLong>
        ensures ok { OnOk result
            (self.new ≡ self.old ++ Absorbed label.now ((T.format Compress.Yes).spelling value.now) ∷ []) }
        ensures short { OnOk result (length ((T.format Compress.Yes).spelling value.now) < 2 ^ 64) }
        ensures kept { OnErr result (self.new ≡ self.old) }
        ensures long { OnErr result (2 ^ 64 ≤ length ((T.format Compress.Yes).spelling value.now)) }
    {
        let Some(size) = value.serialized_size(Compress::Yes) else {
            return Err(TooLong);
        };
        self.hashed.add(&[ABSORBED]);
        self.hashed.add_counted(label);
        self.hashed.add_number(size);
        let before = self.hashed.text();
        self.hashed.add_value(value);
        let after = self.hashed.text();
        self.calls = Calls::then(&self.calls, &Note::Absorbed(label, &before, &after));
        Ok(())
    }

    /// Fills the buffer with bytes that follow from all calls before, the label and how many bytes are asked
    /// for. To ask is a call too, so to ask once more hashes another text.
    pub fn challenge_bytes(&mut self, label: &[u8], out: &mut [u8])
        ensures bytes { out.new ≡ challenge_of self.old label.now (length out.old) }
        ensures calls { self.new ≡ then_asked self.old label.now (length out.old) }
    {
        self.hashed.add(&[ASKED]);
        self.hashed.add_counted(label);
        self.hashed.add_number(out.len());
        self.calls = Calls::then(&self.calls, &Note::Asked(label, out.len()));
        self.hashed.squeeze(out);
    }

    /// An element of the field that follows from all calls before and the label. As many bytes are asked for
    /// as an element has, again and again until they spell one, 4096 times at most. Where all these fail it
    /// is the number that eight more bytes spell, reduced, so one of the residues of numbers below 2^64: the
    /// usual outcome in a field where far fewer than one in 4096 strings of an element's length spell one. A
    /// refusal of memory comes before anything was asked for.
    pub fn challenge<F: Field>(&mut self, alloc: Global, label: &[u8]) -> Result<F, AllocError>
        ensures element { IfOk result (λ x.
            IsChallenge F.field (F.format Compress.Yes) F.element_size label.now 4096 self.old x self.new) }
        ensures kept { OnErr result (self.new ≡ self.old) }
    {
        let mut bytes = element_buffer::<F>(alloc)?;
        Ok(self.challenge_in(alloc, label, &mut bytes))
    }

    /// The element that `challenge` gives, by a buffer of as many bytes as an element has, as
    /// `element_buffer` makes it: so no memory is taken, and none refused. As there, it is a residue of a
    /// number below 2^64 where all 4096 tries fail, as they mostly do in a field whose elements are rare
    /// among the strings of their length.
    pub fn challenge_in<F: Field>(&mut self, alloc: Global, label: &[u8], bytes: &mut [u8]) -> F
        requires { length bytes.old ≡ F.element_size }
        ensures { IsChallenge F.field (F.format Compress.Yes) F.element_size label.now 4096
            self.old result self.new }
    {
        'tries: for _i in 0..TRIES {
            if let Some(element) = self.try_once(alloc, label, bytes) {
                return element;
            }
        }
        F::from(self.ask_number(label))
    }

    // Asks for as many bytes as an element has, and gives the element that they spell.
    fn try_once<F: Field>(&mut self, alloc: Global, label: &[u8], bytes: &mut [u8]) -> Option<F>
        requires { length bytes.old ≡ F.element_size }
        ensures some { IfSome result (λ x. challenge_of self.old label.now F.element_size
            ≡ (F.format Compress.Yes).spelling x) }
        ensures none { IsNone result → (x : F) → challenge_of self.old label.now F.element_size
            ≢ (F.format Compress.Yes).spelling x }
        ensures calls { self.new ≡ then_asked self.old label.now F.element_size }
    {
        self.challenge_bytes(label, bytes);
        element_of(alloc, bytes)
    }

    // Asks for eight bytes, and gives the number that they spell.
    fn ask_number(&mut self, label: &[u8]) -> u64
        ensures number { result ≡ from_le_bytes w64 (challenge_of self.old label.now 8) }
        ensures calls { self.new ≡ then_asked self.old label.now 8 }
    {
        let mut bytes = [0u8; 8];
        self.challenge_bytes(label, &mut bytes);
        u64::from_le_bytes(bytes)
    }

    /// A law: all lengths of a transcript's calls are below 2^64, as `transcripts_differ` asks.
    pub fn calls_fit(&self)
        ensures { AllFit self.now }
    {
        let _ = &self.hashed;
    }
}

impl Clone for Transcript {
    ghost use Rattle.std.specs.Prelude.{◌≡◌, ⊤};

    ghost is_clone = { λ x y. y ≡ x };

    ghost is_infallible = { λ _. ⊤ };

    /// A transcript of the same calls.
    fn clone(&self) -> Result<Transcript, AllocError> {
        Ok(Transcript {
            hashed: self.hashed.again(),
            calls: Calls::then(&self.calls, &Note::Nothing),
        })
    }
}

impl fmt::Debug for Transcript {
    fn fmt<W: fmt::Write>(&self, f: &mut fmt::Formatter<W>) -> fmt::Result {
        f.write_str("Transcript { ... }")
    }
}
