//! Calls of the program's commands.

ghost use Rattle.std.specs.Prelude.{map, string_bytes};
ghost use Rattle.polyrun_lib.specs.Check.{row_of, MayCheck, MayWrite};
ghost use Rattle.polyrun_lib.specs.Written.{writer, IsOneWritten};

use ark_base::Sink;
use polyrun_lib::{check, run};
use std::alloc::Global;

/// Writes the answer to the words, and gives its status.
pub fn answered<W: Sink>(alloc: Global, words: &[String], out: &mut W) -> u8
    ensures { IsOneWritten (MayWrite (map string_bytes words.now))
        (writer W.Sink out.old) (writer W.Sink out.new) result }
{
    run(alloc, words, out)
}

/// Writes a line for each row, and gives the status.
pub fn checked<W: Sink>(
    alloc: Global,
    field: &str,
    rows: &[(Vec<String>, String)],
    out: &mut W,
) -> u8
    ensures { IsOneWritten (MayCheck field.now (map row_of rows.now))
        (writer W.Sink out.old) (writer W.Sink out.new) result }
{
    check(alloc, field, rows, out)
}
