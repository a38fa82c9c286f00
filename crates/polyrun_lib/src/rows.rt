//! What is said of the rows of a table of answers, a line for each.

ghost use Rattle.std.specs.Prelude.{◌≡◌, ◌↔◌, map, IfOk, IfErr, IsTrue, string_bytes};
ghost use Rattle.polyrun_lib.specs.Lines.{ended, refusal_line_of};
ghost use Rattle.polyrun_lib.specs.Answer.{HasAtMostOne};
ghost use Rattle.polyrun_lib.specs.Written.{writer, IsWritten, IsOneWritten};
ghost use Rattle.polyrun_lib.specs.Vectors.{Row};
ghost use Rattle.polyrun_lib.specs.Check.{row_of, IsVectors, IsVerdict, HasLine, EndsAt, IsChecked, MayCheck};

use crate::laws::one_check;
use crate::lines::{refusal_line, row_line, usage_line};
use crate::program::{answer_in, write};
use ark_base::{PolyError, Sink};
use std::alloc::{AllocError, Global};

/// Writes a line for each row of a table of answers, and gives the status: 0; 1 where a row is bad, or where memory was refused;
/// and 3 where the writer failed, after a beginning of the text.
///
/// A row is the words after the field, and a text. Its line is its number from 1, a space, and `ok` where
/// `run` would write that text and a newline for the field and the words, and otherwise `bad`; a row whose
/// command is `vectors` is always bad. Each line's memory is taken before that line is written: where it is
/// refused, the lines before stand, and the error's line follows.
pub fn check<W: Sink>(alloc: Global, field: &str, rows: &[(Vec<String>, String)], out: &mut W) -> u8
    ensures written { IsOneWritten (MayCheck field.now (map row_of rows.now))
        (writer W.Sink out.old) (writer W.Sink out.new) result }

    // There are no other verdicts.
    ensures only { HasAtMostOne (IsChecked field.now (map row_of rows.now)) }
{
    one_check(field, rows);
    check_rows(alloc, field, rows, out)
}

/// A row of a table of answers, as it is checked.
#[derive(Clone, Copy)]
pub struct TableRow<'a> {
    /// Its place in the table, from 1.
    pub number: u64,
    /// The words after the field.
    pub words: &'a [String],
    /// The answer to them, without the newline at its end.
    pub text: &'a str,
}

/// What a row of a table of answers is made of.
pub trait Checked {
    // What its words and its text spell.
    ghost shown: { Self → Row };

    /// Writes the row's line, and tells whether the row is good. Where memory for the line is refused, or the
    /// writer fails, no line comes after it, and the error is the status.
    fn check<W: Sink>(
        &self,
        alloc: Global,
        field: &str,
        number: u64,
        out: &mut W,
    ) -> Result<bool, u8>
        ensures line { IfOk result (HasLine field.now (shown self.now) number
            (writer W.Sink out.old) (writer W.Sink out.new)) }
        ensures end { IfErr result (EndsAt field.now (shown self.now) number
            (writer W.Sink out.old) (writer W.Sink out.new)) };
}

impl Checked for (Vec<String>, String) {
    ghost shown = { row_of };

    fn check<W: Sink>(
        &self,
        alloc: Global,
        field: &str,
        number: u64,
        out: &mut W,
    ) -> Result<bool, u8> {
        let row = TableRow {
            number,
            words: &self.0,
            text: self.1.as_str(),
        };
        check_row(alloc, field, &row, out)
    }
}

/// Writes what `check` writes for rows of either kind, and gives its status.
pub fn check_rows<R: Checked, W: Sink>(alloc: Global, field: &str, rows: &[R], out: &mut W) -> u8
    ensures { IsOneWritten (MayCheck field.now (map R.shown rows.now))
        (writer W.Sink out.old) (writer W.Sink out.new) result }
{
    let mut status = 0;
    for (i, row) in rows.iter().enumerate() {
        match row.check(alloc, field, i as u64 + 1, out) {
            Ok(is_good) => {
                if !is_good {
                    status = 1;
                }
            }
            Err(ended) => return ended,
        }
    }
    status
}

/// Writes the line of a row, and tells whether the row is good.
pub fn check_row<W: Sink>(
    alloc: Global,
    field: &str,
    row: &TableRow<'_>,
    out: &mut W,
) -> Result<bool, u8>
    ensures line { IfOk result (HasLine field.now (map string_bytes row.now.words.now, row.now.text.now) row.now.number
        (writer W.Sink out.old) (writer W.Sink out.new)) }
    ensures end { IfErr result (EndsAt field.now (map string_bytes row.now.words.now, row.now.text.now) row.now.number
        (writer W.Sink out.old) (writer W.Sink out.new)) }
{
    let Ok(is_good) = is_good(alloc, field, row.words, row.text) else {
        return Err(refuse(out));
    };
    let Ok(line) = row_line(alloc, row.number, is_good) else {
        return Err(refuse(out));
    };
    if write(out, line.as_str(), 0) == 3 {
        return Err(3);
    }
    Ok(is_good)
}

/// Writes that memory was refused, and gives the status.
pub fn refuse<W: Sink>(out: &mut W) -> u8
    ensures { IsWritten (writer W.Sink out.old) (writer W.Sink out.new)
        (refusal_line_of PolyError.Memory) 1 result }
{
    write(out, refusal_line(PolyError::Memory), 1)
}

// Whether a row is good. An answer for which memory was refused is neither.
fn is_good(alloc: Global, field: &str, words: &[String], text: &str) -> Result<bool, AllocError>
    ensures { IfOk result (IsVerdict field.now (map string_bytes words.now, text.now)) }
{
    if is_vectors(words) {
        return Ok(false);
    }
    match answer_in(alloc, field, words) {
        Some(Ok(answer)) => Ok(is_line_of(answer.as_str(), text)),
        Some(Err(error)) => {
            if error == PolyError::Memory {
                return Err(AllocError);
            }
            Ok(is_line_of(refusal_line(error), text))
        }
        None => Ok(is_line_of(usage_line(), text)),
    }
}

// Whether the words' command is `vectors`.
fn is_vectors(words: &[String]) -> bool
    ensures { IsTrue result ↔ IsVectors (map string_bytes words.now) }
{
    let [name, ..] = words else {
        return false;
    };
    name.as_str() == "vectors"
}

// Whether an answer is a text and a newline.
fn is_line_of(answer: &str, text: &str) -> bool
    ensures { IsTrue result ↔ (answer.now ≡ ended text.now) }
{
    match answer.strip_suffix('\n') {
        Some(line) => line == text,
        None => false,
    }
}
