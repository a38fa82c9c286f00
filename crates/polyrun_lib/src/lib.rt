//! The program's answers: it reads the words of a command line, and writes the lines of an answer.
#![tactic(auto)]

mod args;
mod command;
pub mod laws;
mod lines;
mod program;
mod rows;
mod vectors;
mod words;

pub use args::{arguments, run_arguments};
pub use lines::refusal_line;
pub use program::run;
pub use rows::check;
