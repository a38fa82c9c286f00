//! Answers cases of the program's commands, by what `run` and `check` write for the words, also where the writer fails.
#![tactic(auto)]

use ark_base::IoSink;
use polyrun_lib::{check, run};
use std::alloc::{AllocError, Global};
use std::process::ExitCode;
use test_cases::answers::{Answer, Answers, answer_lines};
use test_cases::stopping::StopWriter;
use test_cases::words::{told, words_of};

// After how many bytes at most a writer fails.
const MOST: usize = 200;

struct CommandAnswers;

impl Answers for CommandAnswers {
    fn answer(alloc: Global, words: &[String]) -> Answer {
        if let [field, name, rows] = words
            && name.as_str() == "check"
        {
            return checked(alloc, field.as_str(), rows.as_str());
        }
        let mut out = IoSink::new(Vec::new(alloc));
        let status = run(alloc, words, &mut out);
        let text = out.into_inner();
        for room in 0..text.len().min(MOST) {
            let mut out = stopping(alloc, room)?;
            if run(alloc, words, &mut out) != 3 || !holds(out, &text[..room]) {
                return told(alloc, "another beginning is written");
            }
        }
        written(alloc, &text, status)
    }
}

// What `check` writes for the rows, which stand between bars.
fn checked(alloc: Global, field: &str, rows: &str) -> Answer {
    let mut all = Vec::new(alloc);
    if !rows.is_empty() {
        for row in rows.split('|') {
            all.push(words_and_text(alloc, row)?)?;
        }
    }
    let mut out = IoSink::new(Vec::new(alloc));
    let status = check(alloc, field, &all, &mut out);
    let text = out.into_inner();
    for room in 0..text.len().min(MOST) {
        let mut out = stopping(alloc, room)?;
        if check(alloc, field, &all, &mut out) != 3 || !holds(out, &text[..room]) {
            return told(alloc, "another beginning is written");
        }
    }
    written(alloc, &text, status)
}

// A writer that fails once, after so many bytes.
fn stopping(alloc: Global, room: usize) -> Result<IoSink<StopWriter>, AllocError> {
    let taken = Vec::with_capacity(alloc, room)?;
    Ok(IoSink::new(StopWriter::new(room, taken)))
}

// Whether it holds just these bytes, and was not asked to write more.
fn holds(out: IoSink<StopWriter>, bytes: &[u8]) -> bool {
    out.into_inner().stopped_after(bytes)
}

// A row for `check`: words between spaces, an equals sign and a text.
fn words_and_text(alloc: Global, row: &str) -> Result<(Vec<String>, String), AllocError> {
    let (words, text) = row.split_once('=').unwrap_or((row, ""));
    Ok((
        words_of(alloc, words, ' ')?,
        text.replace(alloc, ";", "\n")?,
    ))
}

// The text with a semicolon after each line but the last, and a status that is not zero.
fn written(alloc: Global, bytes: &[u8], status: u8) -> Answer {
    let text = str::from_utf8(bytes).unwrap_or("no text");
    let text = text.strip_suffix('\n').unwrap_or(text);
    let text = text.replace(alloc, "\n", ";")?;
    if status == 0 {
        return Ok(text);
    }
    Ok(format!(in alloc; "{text} ({status})")?)
}

fn main(rt: HostRuntime) -> ExitCode {
    answer_lines::<CommandAnswers, HostRuntime>(&rt)
}
