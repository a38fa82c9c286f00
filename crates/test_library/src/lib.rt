//! Tests of draws, errors, sinks and the program's failures, what transforms cost as numbers, and callers proved from
//! public contracts alone. Cases with answers from outside stand in `test_command_answers`.
#![tactic(auto)]

#[cfg(test)]
mod costs;
#[cfg(test)]
mod errors;
#[cfg(test)]
mod fields;
#[cfg(test)]
mod outside;
#[cfg(test)]
mod program;
#[cfg(test)]
mod sinks;
