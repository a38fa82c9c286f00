//! What was hashed and what was called, for contracts alone.

ghost use Rattle.std.specs.Prelude.{◌≡◌, List, ℕ, [], ◌++◌};
ghost use Rattle.std.specs.Borrow.{ftrue};
ghost use Rattle.ark_transcript.specs.Calls.{Call};

use std::marker::Model;

// The functions of this file that make a value are proved by hand.

// A text. It takes no bytes at run time.
#[derive(Drop)]
pub(crate) struct Text {
    pub ghost bytes: { List ℕ },
}

impl Model for Text {
    ghost also_owns = { λ _. ftrue };
}

impl Text {
    pub(crate) fn none() -> Text
        ensures { result ≡ record { bytes = [] } }
    {
        Text {}
    }

    // The text, and more after it.
    pub(crate) fn and(_before: &Text, _more: &[u8]) -> Text
        ensures { result ≡ record { bytes = _before.now.bytes ++ _more.now } }
    {
        Text {}
    }
}

// Calls. They take no bytes at run time.
#[derive(Drop)]
pub(crate) struct Calls {
    pub ghost list: { List Call },
}

impl Model for Calls {
    ghost also_owns = { λ _. ftrue };
}

// One call, or none; what was absorbed is what the second text has after the first.
#[derive(Clone, Copy, Drop)]
pub(crate) enum Note<'a> {
    Nothing,
    Begun(&'a [u8]),
    Absorbed(&'a [u8], &'a Text, &'a Text),
    Asked(&'a [u8], usize),
}

impl Calls {
    ghost use Rattle.ark_transcript.specs.Noted.{noted};

    pub(crate) fn none() -> Calls
        ensures { result ≡ record { list = [] } }
    {
        Calls {}
    }

    // The calls, and this one after them.
    pub(crate) fn then(_before: &Calls, _note: &Note<'_>) -> Calls
        ensures { result ≡ record { list = noted _before.now.list _note.now } }
    {
        Calls {}
    }
}
