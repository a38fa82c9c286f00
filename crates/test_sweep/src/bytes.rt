//! Calls that write and read bytes.

use crate::given::named;
use crate::swept::{Call, Ended, attempt};
use ark_base::{
    CanonicalDeserialize, CanonicalSerialize, Compress, FftField, IoSink, PolyError,
    SerializationError, read_list, recompress, recompressed_and_back, written_then_read,
};
use ark_poly::multivariate::{self, SparseTerm};
use ark_poly::univariate::{DensePolynomial, SparsePolynomial};
use ark_poly::{
    DenseMultilinearExtension, EvaluationDomain, Evaluations, GeneralEvaluationDomain,
    MixedRadixEvaluationDomain, Radix2EvaluationDomain, SparseMultilinearExtension,
};
use std::alloc::Global;
use test_cases::answers::Answer;
use test_cases::hex::{bytes_of, text_of};
use test_cases::words::{no_case, told};

/// Bytes of the mode, the value that they spell, and room for others.
#[derive(Drop)]
pub struct OfBytes<T: CanonicalDeserialize> {
    mode: Compress,
    bytes: Vec<u8>,
    value: T,
    room: Option<Vec<u8>>,
}

/// What the calls answer.
#[derive(Drop)]
pub enum Answered<T> {
    Value(T),
    Number(usize),
    Bytes(Vec<u8>),
    Refused(SerializationError),
    NoCall,
}

impl<T: CanonicalSerialize + CanonicalDeserialize> Call for OfBytes<T> {
    type Answered = Answered<T>;

    fn given(alloc: Global, words: &[String]) -> Result<Self, PolyError> {
        let mode = mode_of(named(words, "mode"));
        let bytes = bytes_of(alloc, named(words, "bytes"))?;
        match T::deserialize_with_mode(alloc, &mut bytes.as_slice(), mode) {
            Ok(value) => {
                let room = Some(Vec::with_capacity(alloc, 200)?);
                Ok(OfBytes {
                    mode,
                    bytes,
                    value,
                    room,
                })
            }
            Err(_) => Err(PolyError::Memory),
        }
    }

    fn call(&mut self, alloc: Global, name: &str) -> Result<Answered<T>, PolyError> {
        let mut source = self.bytes.as_slice();
        match name {
            "deserialize_with_mode" => {
                value_read(T::deserialize_with_mode(alloc, &mut source, self.mode))
            }
            "deserialize_compressed" => value_read(T::deserialize_compressed(alloc, &mut source)),
            "deserialize_uncompressed" => value_read(T::deserialize_uncompressed(
                alloc,
                &mut source,
            )),
            "read_list" => match read_list::<T, _>(alloc, &mut source, self.mode) {
                Ok(list) => Ok(Answered::Number(list.len())),
                Err(error) => refused(error),
            },
            "recompressed_and_back to yes" => bytes_back(recompressed_and_back::<T>(
                alloc,
                &self.bytes,
                self.mode,
                Compress::Yes,
            )),
            "recompressed_and_back to no" => bytes_back(recompressed_and_back::<T>(
                alloc,
                &self.bytes,
                self.mode,
                Compress::No,
            )),
            "written_then_read" => value_read(written_then_read(alloc, &self.value, self.mode)),
            "check" => match self.value.check() {
                Ok(()) => Ok(Answered::Number(0)),
                Err(error) => refused(error),
            },
            _ => self.written(alloc, name),
        }
    }

    fn is_same(&self, other: &Self) -> bool {
        self.bytes == other.bytes
    }

    fn text(&self, alloc: Global, answered: &Answered<T>) -> Answer {
        match answered {
            Answered::Value(value) => spelling_of(alloc, value),
            Answered::Number(number) => Ok(format!(in alloc; "{number}")?),
            Answered::Bytes(bytes) => text_of(alloc, bytes),
            Answered::Refused(error) => Ok(format!(in alloc; "{error}")?),
            Answered::NoCall => no_case(alloc),
        }
    }
}

impl<T: CanonicalSerialize + CanonicalDeserialize> OfBytes<T> {
    // Makes a call that writes to the room.
    fn written(&mut self, alloc: Global, name: &str) -> Result<Answered<T>, PolyError> {
        let Some(room) = self.room.take() else {
            return Ok(Answered::NoCall);
        };
        let mut sink = IoSink::new(room);
        let mut source = self.bytes.as_slice();
        let written = match name {
            "serialize_with_mode" => self.value.serialize_with_mode(&mut sink, self.mode),
            "serialize_compressed" => self.value.serialize_compressed(&mut sink),
            "serialize_uncompressed" => self.value.serialize_uncompressed(&mut sink),
            "recompress to yes" => {
                recompress::<T, _, _>(alloc, &mut source, self.mode, &mut sink, Compress::Yes)
            }
            "recompress to no" => {
                recompress::<T, _, _>(alloc, &mut source, self.mode, &mut sink, Compress::No)
            }
            _ => return Ok(Answered::NoCall),
        };
        match written {
            Ok(()) => Ok(Answered::Bytes(sink.into_inner())),
            Err(error) => {
                self.room = Some(sink.into_inner());
                refused(error)
            }
        }
    }
}

// The mode that the word names.
fn mode_of(word: &str) -> Compress {
    if word == "yes" {
        Compress::Yes
    } else {
        Compress::No
    }
}

// The value that was read.
fn value_read<T>(read: Result<T, SerializationError>) -> Result<Answered<T>, PolyError> {
    match read {
        Ok(value) => Ok(Answered::Value(value)),
        Err(error) => refused(error),
    }
}

// The bytes that came back.
fn bytes_back<T>(
    lists: Result<(Vec<u8>, Vec<u8>), SerializationError>,
) -> Result<Answered<T>, PolyError> {
    match lists {
        Ok((_, bytes)) => Ok(Answered::Bytes(bytes)),
        Err(error) => refused(error),
    }
}

// A refusal of memory, or the answer that another refusal is.
fn refused<T>(error: SerializationError) -> Result<Answered<T>, PolyError> {
    if error == SerializationError::Memory {
        return Err(PolyError::Memory);
    }
    Ok(Answered::Refused(error))
}

// The bytes of the full mode.
fn spelling_of<T: CanonicalSerialize>(alloc: Global, value: &T) -> Answer {
    let mut sink = IoSink::new(Vec::new(alloc));
    match value.serialize_uncompressed(&mut sink) {
        Ok(()) => text_of(alloc, &sink.into_inner()),
        Err(_) => told(alloc, "not written"),
    }
}

/// How a call over bytes of the type ends.
pub fn answer_of_bytes<F: FftField, R: Print>(
    alloc: Global,
    watched: Option<&R>,
    kind: &str,
    name: &str,
    given: &[String],
) -> Result<Ended, PolyError> {
    match kind {
        "bytes element" => attempt::<OfBytes<F>, R>(alloc, watched, name, given),
        "bytes list" => attempt::<OfBytes<Vec<F>>, R>(alloc, watched, name, given),
        "bytes dense" => attempt::<OfBytes<DensePolynomial<F>>, R>(alloc, watched, name, given),
        "bytes sparse" => attempt::<OfBytes<SparsePolynomial<F>>, R>(alloc, watched, name, given),
        "bytes term" => attempt::<OfBytes<SparseTerm>, R>(alloc, watched, name, given),
        "bytes multivariate" => {
            attempt::<OfBytes<multivariate::SparsePolynomial<F, SparseTerm>>, R>(
                alloc, watched, name, given,
            )
        }
        "bytes dense_extension" => {
            attempt::<OfBytes<DenseMultilinearExtension<F>>, R>(alloc, watched, name, given)
        }
        "bytes sparse_extension" => {
            attempt::<OfBytes<SparseMultilinearExtension<F>>, R>(alloc, watched, name, given)
        }
        _ => of_domains::<F, R>(alloc, watched, kind, name, given),
    }
}

fn of_domains<F: FftField, R: Print>(
    alloc: Global,
    watched: Option<&R>,
    kind: &str,
    name: &str,
    given: &[String],
) -> Result<Ended, PolyError> {
    match kind {
        "bytes radix2" => {
            of_domain::<F, Radix2EvaluationDomain<F>, R>(alloc, watched, name, given)
        }
        "bytes mixed" => {
            of_domain::<F, MixedRadixEvaluationDomain<F>, R>(alloc, watched, name, given)
        }
        "bytes general" => {
            of_domain::<F, GeneralEvaluationDomain<F>, R>(alloc, watched, name, given)
        }
        "bytes values" => {
            of_values::<F, GeneralEvaluationDomain<F>, R>(alloc, watched, name, given)
        }
        _ => Ended::none(alloc),
    }
}

fn of_domain<F: FftField, D: EvaluationDomain<F>, R: Print>(
    alloc: Global,
    watched: Option<&R>,
    name: &str,
    given: &[String],
) -> Result<Ended, PolyError> {
    attempt::<OfBytes<D>, R>(alloc, watched, name, given)
}

fn of_values<F: FftField, D: EvaluationDomain<F>, R: Print>(
    alloc: Global,
    watched: Option<&R>,
    name: &str,
    given: &[String],
) -> Result<Ended, PolyError> {
    attempt::<OfBytes<Evaluations<F, D>>, R>(alloc, watched, name, given)
}
