//! The program's arguments.

ghost use Rattle.std.specs.Prelude.{◌≡◌, ◌≢◌, map, IfOk, IfErr, string_bytes};
ghost use Rattle.std.specs.IoError.{error_kind};
ghost use Rattle.polyrun_lib.specs.Lines.{refusal_line_of, usage_text};
ghost use Rattle.polyrun_lib.specs.Check.{MayWrite};
ghost use Rattle.polyrun_lib.specs.Written.{writer, IsWritten, IsOneWritten};

use crate::lines::{refusal_line, usage_line};
use crate::program::{run, write};
use ark_base::{PolyError, Sink};
use std::alloc::Global;
use std::env::Env;
use std::io::ErrorKind;
use std::{env, io};

/// The arguments after the program's name. One that isn't text is an error of another kind than want of
/// memory.
pub fn arguments<R: Env + AllocGlobal>(rt: &R) -> io::Result<Vec<String>> {
    let mut all = env::args(rt)?;
    let _name = all.next();
    Ok(all.collect(rt.alloc())?)
}

/// Writes what `run` writes for the arguments, and gives its status. Where they are an error, that is
/// `usage`, unless memory for them was refused.
pub fn run_arguments<W: Sink>(alloc: Global, arguments: io::Result<Vec<String>>, out: &mut W) -> u8
    ensures words { IfOk arguments (λ words. IsOneWritten (MayWrite (map string_bytes words.items))
        (writer W.Sink out.old) (writer W.Sink out.new) result) }
    ensures usage { IfErr arguments (λ e. error_kind e ≢ ErrorKind.OutOfMemory
        → IsWritten (writer W.Sink out.old) (writer W.Sink out.new) usage_text 2 result) }
    ensures memory { IfErr arguments (λ e. error_kind e ≡ ErrorKind.OutOfMemory
        → IsWritten (writer W.Sink out.old) (writer W.Sink out.new) (refusal_line_of PolyError.Memory) 1 result) }
{
    match arguments {
        Ok(words) => run(alloc, &words, out),
        Err(error) if error.kind() == ErrorKind::OutOfMemory => {
            write(out, refusal_line(PolyError::Memory), 1)
        }
        Err(_) => write(out, usage_line(), 2),
    }
}
