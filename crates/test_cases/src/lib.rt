//! What the programs of cases share: a case is a line of the input, and its answer a line of the output, which is
//! compared with what is known from outside.
//!
//! The words of a case stand between tabs, and `-` is the empty word. A line of an answer that has more lines ends in a
//! semicolon. A line that begins with `#` is written as it is.
#![tactic(auto)]

pub mod answers;
pub mod forms;
pub mod hex;
pub mod stopping;
pub mod words;
