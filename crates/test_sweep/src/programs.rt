//! Calls of the program.

use crate::given::named;
use crate::swept::Call;
use ark_base::{IoSink, PolyError};
use polyrun_lib::{check, run};
use std::alloc::{AllocError, Global};
use test_cases::answers::Answer;
use test_cases::words::{told, words_of};

// The line of refused memory.
const REFUSED: &[u8] = b"error 1: Memory\n";

/// The words of a command, rows and a field's name for the check, room for what is written, and a text that was cut
/// short by a refusal of memory.
#[derive(Drop)]
pub struct OfProgram {
    words: Vec<String>,
    rows: Vec<(Vec<String>, String)>,
    field: String,
    room: Option<Vec<u8>>,
    begun: Vec<u8>,
}

/// What was written, and the status.
#[derive(Drop)]
pub struct Written {
    bytes: Vec<u8>,
    status: u8,
}

impl Call for OfProgram {
    type Answered = Written;

    fn given(alloc: Global, words: &[String]) -> Result<Self, PolyError> {
        Ok(OfProgram {
            words: words_of(alloc, named(words, "words"), ' ')?,
            rows: rows_of(alloc, named(words, "rows"))?,
            field: named(words, "field").to_string(alloc)?,
            room: Some(Vec::with_capacity(alloc, 200)?),
            begun: Vec::with_capacity(alloc, 200)?,
        })
    }

    fn call(&mut self, alloc: Global, name: &str) -> Result<Written, PolyError> {
        let Some(room) = self.room.take() else {
            return Err(PolyError::NoDomain);
        };
        let mut sink = IoSink::new(room);
        let status = match name {
            "check" => check(alloc, self.field.as_str(), &self.rows, &mut sink),
            _ => run(alloc, &self.words, &mut sink),
        };
        let mut bytes = sink.into_inner();
        if status == 1 && bytes.ends_with(REFUSED) {
            let lines = bytes.len() - REFUSED.len().min(bytes.len());
            self.begun.extend_from_slice(&bytes[..lines])?;
            bytes.clear();
            self.room = Some(bytes);
            return Err(PolyError::Memory);
        }
        Ok(Written { bytes, status })
    }

    fn is_same(&self, other: &Self) -> bool {
        self.words == other.words && self.rows == other.rows
    }

    /// What was written, which begins with the lines before a refusal of memory.
    fn text(&self, alloc: Global, written: &Written) -> Answer {
        if !written.bytes.starts_with(&self.begun) {
            return told(alloc, "another beginning was written");
        }
        let Ok(text) = str::from_utf8(&written.bytes) else {
            return told(alloc, "no text");
        };
        Ok(format!(in alloc; "{}{}", text.replace(alloc, "\n", ";")?, written.status)?)
    }
}

// The rows between bars: words between spaces, a point and the text that is expected.
fn rows_of(alloc: Global, word: &str) -> Result<Vec<(Vec<String>, String)>, AllocError> {
    let mut rows = Vec::new(alloc);
    if !word.is_empty() {
        for row in word.split('|') {
            let (words, text) = row.split_once('.').unwrap_or((row, ""));
            rows.push((words_of(alloc, words, ' ')?, text.to_string(alloc)?))?;
        }
    }
    Ok(rows)
}
