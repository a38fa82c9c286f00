//! What reading says of bytes that were changed, cut or drawn.

use ark_base::{CanonicalDeserialize, CanonicalSerialize, Compress, IoSink, SerializationError};
use std::alloc::Global;
use test_cases::answers::Answer;

// How many readings ended in each way, and the sum over all of them of the reading's number times the number of its
// end: 1 where a value is read, 2 for `InvalidData` and 3 for `IoError`.
#[derive(Clone, Copy)]
struct Tally {
    read: u64,
    invalid: u64,
    unfinished: u64,
    /// Memory was refused, or writing did not give back what was taken.
    wrong: u64,
    readings: u64,
    sum: u64,
}

impl Tally {
    fn new() -> Tally {
        Tally {
            read: 0,
            invalid: 0,
            unfinished: 0,
            wrong: 0,
            readings: 0,
            sum: 0,
        }
    }

    fn count(&mut self, end: End) {
        match end {
            End::Read => self.read = self.read.wrapping_add(1),
            End::Invalid => self.invalid = self.invalid.wrapping_add(1),
            End::Unfinished => self.unfinished = self.unfinished.wrapping_add(1),
            End::Wrong => self.wrong = self.wrong.wrapping_add(1),
        }
        self.readings = self.readings.wrapping_add(1);
        self.sum = self
            .sum
            .wrapping_add(self.readings.wrapping_mul(end.number()));
    }

    fn text(&self, alloc: Global) -> Answer {
        let wrong = if self.wrong > 0 { " wrong" } else { "" };
        Ok(format!(in alloc;
            "{},{},{},{}{wrong}",
            self.read, self.invalid, self.unfinished, self.sum
        )?)
    }
}

// How a reading ended.
#[derive(Clone, Copy)]
enum End {
    Read,
    Invalid,
    Unfinished,
    Wrong,
}

impl End {
    fn number(self) -> u64 {
        match self {
            End::Read => 1,
            End::Invalid => 2,
            End::Unfinished => 3,
            End::Wrong => 4,
        }
    }
}

// How reading the bytes ends.
fn end_of<T: CanonicalSerialize + CanonicalDeserialize>(
    alloc: Global,
    bytes: &[u8],
    mode: Compress,
) -> End {
    let mut rest = bytes;
    match T::deserialize_with_mode(alloc, &mut rest, mode) {
        Ok(value) if is_given_back(alloc, &value, mode, bytes, rest.len()) => End::Read,
        Ok(_) => End::Wrong,
        Err(SerializationError::InvalidData) => End::Invalid,
        Err(SerializationError::IoError) => End::Unfinished,
        Err(SerializationError::Memory) => End::Wrong,
    }
}

// Whether writing the value gives the bytes up to those that are left.
fn is_given_back<T: CanonicalSerialize>(
    alloc: Global,
    value: &T,
    mode: Compress,
    bytes: &[u8],
    left: usize,
) -> bool {
    let mut sink = IoSink::new(Vec::new(alloc));
    let is_written = value.serialize_with_mode(&mut sink, mode).is_ok();
    let written = sink.into_inner();
    is_written
        && bytes.starts_with(&written)
        && bytes.len() - written.len().min(bytes.len()) == left
}

// The tallies of both modes.
fn both_tallies(alloc: Global, short: Tally, full: Tally) -> Answer {
    let (short, full) = (short.text(alloc)?, full.text(alloc)?);
    Ok(format!(in alloc; "{short}|{full}")?)
}

/// What reading says where each byte in turn has each value, and then of each beginning.
pub fn changed<T: CanonicalSerialize + CanonicalDeserialize>(
    alloc: Global,
    bytes: &[u8],
) -> Answer {
    let short = changed_in_mode::<T>(alloc, bytes, Compress::Yes)?;
    let full = changed_in_mode::<T>(alloc, bytes, Compress::No)?;
    both_tallies(alloc, short, full)
}

fn changed_in_mode<T: CanonicalSerialize + CanonicalDeserialize>(
    alloc: Global,
    bytes: &[u8],
    mode: Compress,
) -> Result<Tally, ark_base::PolyError> {
    let mut tally = Tally::new();
    let mut copy = Vec::from_slice(alloc, bytes)?;
    for (place, byte) in bytes.iter().enumerate() {
        for value in 0..=255 {
            replace(&mut copy, place, value);
            tally.count(end_of::<T>(alloc, &copy, mode));
        }
        replace(&mut copy, place, *byte);
    }
    for len in 0..bytes.len() {
        tally.count(end_of::<T>(alloc, &bytes[..len], mode));
    }
    Ok(tally)
}

fn replace(bytes: &mut [u8], place: usize, value: u8) {
    if let Some(byte) = bytes.get_mut(place) {
        *byte = value;
    }
}

const DRAWS: u32 = 100_000;

/// What reading says of drawn bytes. The word seeds them.
pub fn drawn<T: CanonicalSerialize + CanonicalDeserialize>(alloc: Global, seed: &[u8]) -> Answer {
    let mut draws = Draws {
        state: u64::from(seed.first().copied().unwrap_or(0)),
    };
    let (mut short, mut full) = (Tally::new(), Tally::new());
    for _ in 0..DRAWS {
        let bytes = draws.bytes(alloc)?;
        short.count(end_of::<T>(alloc, &bytes, Compress::Yes));
        full.count(end_of::<T>(alloc, &bytes, Compress::No));
    }
    both_tallies(alloc, short, full)
}

// A linear congruence, of which the high bits are drawn.
#[derive(Drop)]
struct Draws {
    state: u64,
}

impl Draws {
    fn next(&mut self) -> u64 {
        self.state = self
            .state
            .wrapping_mul(6364136223846793005)
            .wrapping_add(1442695040888963407);
        self.state >> 56
    }

    // Half of the bytes are zero, a quarter below four, and the others any.
    fn byte(&mut self) -> u8 {
        let drawn = self.next();
        match drawn {
            0..128 => 0,
            128..192 => (drawn % 4) as u8,
            _ => (self.next() % 256) as u8,
        }
    }

    // Up to 40 bytes.
    fn bytes(&mut self, alloc: Global) -> Result<Vec<u8>, std::alloc::AllocError> {
        let mut bytes = Vec::new(alloc);
        for _ in 0..self.next() % 41 {
            bytes.push(self.byte())?;
        }
        Ok(bytes)
    }
}
