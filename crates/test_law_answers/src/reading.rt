//! A case of any type.

use crate::hostile::{changed, drawn};
use ark_base::{
    CanonicalDeserialize, CanonicalSerialize, Compress, IoSink, IoSource, SerializationError,
    Source, recompress, recompressed_and_back,
};
use std::alloc::{AllocError, Global};
use test_cases::answers::Answer;
use test_cases::hex::text_of;
use test_cases::stopping::{StopReader, StopWriter};
use test_cases::words::told;
use test_types::single_bytes::SingleBytes;

/// The answer to a case.
pub fn answer_of<T: CanonicalSerialize + CanonicalDeserialize>(
    alloc: Global,
    bytes: &[u8],
    modes: &str,
) -> Answer {
    match modes {
        "changed" => changed::<T>(alloc, bytes),
        "drawn" => drawn::<T>(alloc, bytes),
        _ => match modes.split_once('<') {
            Some((from, to)) => there_and_back::<T>(alloc, bytes, mode_of(from), mode_of(to)),
            None => answer_in_modes::<T>(alloc, bytes, modes),
        },
    }
}

// The bytes from one mode to the other and back, or the refusal.
fn there_and_back<T: CanonicalSerialize + CanonicalDeserialize>(
    alloc: Global,
    bytes: &[u8],
    from: Compress,
    to: Compress,
) -> Answer {
    match recompressed_and_back::<T>(alloc, bytes, from, to) {
        Ok((_, back)) => text_of(alloc, &back),
        Err(error) => Ok(format!(in alloc; "{error}")?),
    }
}

// What reading the bytes says and writing gives back, and how many bytes are left. From the slice itself and byte by
// byte the same comes, and each beginning of the bytes that were taken is refused with `IoError`, whether the source
// ends or fails there; else the answer says so.
fn answer_in_modes<T: CanonicalSerialize + CanonicalDeserialize>(
    alloc: Global,
    bytes: &[u8],
    modes: &str,
) -> Answer {
    let mut source = IoSource::new(bytes);
    let given = outcome::<T, _>(alloc, &mut source, modes)?;
    let left = source.into_inner().len();
    let mut rest = bytes;
    let by_slice = outcome::<T, _>(alloc, &mut rest, modes)?;
    if by_slice != given || rest.len() != left {
        return told(alloc, "another answer of the slice itself");
    }
    let mut single = SingleBytes {
        source: IoSource::new(bytes),
    };
    let by_one = outcome::<T, _>(alloc, &mut single, modes)?;
    if by_one != given || single.source.into_inner().len() != left {
        return told(alloc, "another answer byte by byte");
    }
    for taken in 0..bytes.len() - left.min(bytes.len()) {
        if !is_unfinished::<T>(alloc, bytes, taken, modes) {
            return told(alloc, "a beginning is taken");
        }
    }
    Ok(format!(in alloc; "{given}|{left}")?)
}

// The answer to one mode, or to two.
fn outcome<T: CanonicalSerialize + CanonicalDeserialize, S: Source>(
    alloc: Global,
    source: &mut S,
    modes: &str,
) -> Answer {
    match modes.split_once('>') {
        Some((from, to)) => recompressed::<T, S>(alloc, source, mode_of(from), mode_of(to)),
        None => read_and_written::<T, S>(alloc, source, mode_of(modes)),
    }
}

// The mode that the word names.
fn mode_of(word: &str) -> Compress {
    if word == "yes" {
        Compress::Yes
    } else {
        Compress::No
    }
}

// What `recompress` writes, and its refusal after that.
fn recompressed<T: CanonicalSerialize + CanonicalDeserialize, S: Source>(
    alloc: Global,
    source: &mut S,
    from: Compress,
    to: Compress,
) -> Answer {
    let mut sink = IoSink::new(Vec::new(alloc));
    let result = recompress::<T, S, _>(alloc, source, from, &mut sink, to);
    let written = text_of(alloc, &sink.into_inner())?;
    match result {
        Ok(()) => Ok(written),
        Err(error) => Ok(format!(in alloc; "{written}{error}")?),
    }
}

// The spellings of what is read, full and short, or the refusal.
fn read_and_written<T: CanonicalSerialize + CanonicalDeserialize, S: Source>(
    alloc: Global,
    source: &mut S,
    mode: Compress,
) -> Answer {
    match T::deserialize_with_mode(alloc, source, mode) {
        Ok(value) => {
            let full = spelling_of(alloc, &value, Compress::No)?;
            let short = spelling_of(alloc, &value, Compress::Yes)?;
            Ok(format!(in alloc; "{full}|{short}")?)
        }
        Err(error) => Ok(format!(in alloc; "{error}")?),
    }
}

// Whether so many of the bytes are refused with `IoError`, in the mode that is read, where they end and where reading
// fails once after them, and the others aren't asked for.
fn is_unfinished<T: CanonicalDeserialize>(
    alloc: Global,
    bytes: &[u8],
    taken: usize,
    modes: &str,
) -> bool {
    let mode = mode_of(modes.split_once('>').map_or(modes, |pair| pair.0));
    let (first, others) = bytes.split_at(taken.min(bytes.len()));
    let mut rest = first;
    let mut failing = IoSource::new(StopReader::new(first, others));
    is_io_error(T::deserialize_with_mode(alloc, &mut rest, mode))
        && is_io_error(T::deserialize_with_mode(alloc, &mut failing, mode))
        && !failing.into_inner().is_asked_again
}

fn is_io_error<T: Drop>(read: Result<T, SerializationError>) -> bool {
    match read {
        Err(error) => error == SerializationError::IoError,
        Ok(_) => false,
    }
}

// The bytes that writing gives, as text. A writer that fails after some of them holds just these, and the answer is
// `IoError`; else the answer says so.
fn spelling_of<T: CanonicalSerialize>(alloc: Global, value: &T, mode: Compress) -> Answer {
    let mut sink = IoSink::new(Vec::new(alloc));
    let written = value.serialize_with_mode(&mut sink, mode);
    let bytes = sink.into_inner();
    if written.is_err() || value.serialized_size(mode) != Some(bytes.len()) {
        return told(alloc, "another size");
    }
    for room in 0..bytes.len() {
        if !stops_at(alloc, value, mode, &bytes[..room])? {
            return told(alloc, "another beginning is written");
        }
    }
    text_of(alloc, &bytes)
}

// Whether just these bytes are written where the writer fails once after them, it isn't asked again, and the answer is
// `IoError`.
fn stops_at<T: CanonicalSerialize>(
    alloc: Global,
    value: &T,
    mode: Compress,
    beginning: &[u8],
) -> Result<bool, AllocError> {
    let room = beginning.len();
    let taken = Vec::with_capacity(alloc, room)?;
    let mut sink = IoSink::new(StopWriter::new(room, taken));
    let is_told = is_io_error(value.serialize_with_mode(&mut sink, mode));
    Ok(is_told && sink.into_inner().stopped_after(beginning))
}
