//! A call, and how it ends.

use ark_base::PolyError;
use std::alloc::Global;
use test_cases::answers::Answer;
use test_cases::words::told;

/// What calls of a kind are given: receiver and arguments.
pub trait Call: Drop {
    /// What they answer.
    type Answered: Drop;

    /// What the words name.
    fn given(alloc: Global, words: &[String]) -> Result<Self, PolyError>;

    /// Makes the call of this name.
    fn call(&mut self, alloc: Global, name: &str) -> Result<Self::Answered, PolyError>;

    /// Whether all of it is the same.
    fn is_same(&self, other: &Self) -> bool;

    /// The answer, or what a call in place has made of its receiver.
    fn text(&self, alloc: Global, answered: &Self::Answered) -> Answer;
}

/// How a call ended.
#[derive(Drop)]
pub enum Ended {
    /// With this answer.
    Answered(String),
    /// Memory was refused, all that it was given was kept, and the same call made again gave this answer.
    AnsweredAgain(String),
    /// With an error, and what it was given had changed.
    Changed,
}

impl Ended {
    /// Where no call is named.
    pub fn none(alloc: Global) -> Result<Ended, PolyError> {
        Ok(Ended::Answered(told(alloc, "no call")?))
    }
}

/// Makes a call of what the words name, and tells how it ended. `Err` is a refusal before the call or after it.
pub fn attempt<C: Call, R: Print>(
    alloc: Global,
    watched: Option<&R>,
    name: &str,
    words: &[String],
) -> Result<Ended, PolyError> {
    let mut given = C::given(alloc, words)?;
    let copy = C::given(alloc, words)?;
    mark(watched, b"call\n");
    let answered = given.call(alloc, name);
    mark(watched, b"called\n");
    match answered {
        Ok(answered) => Ok(Ended::Answered(given.text(alloc, &answered)?)),
        Err(_) if !given.is_same(&copy) => Ok(Ended::Changed),
        Err(PolyError::Memory) => again(alloc, given, name),
        Err(error) => Ok(Ended::Answered(refusal_text(alloc, error)?)),
    }
}

// Makes the call again.
fn again<C: Call>(alloc: Global, mut given: C, name: &str) -> Result<Ended, PolyError> {
    let answer = match given.call(alloc, name) {
        Ok(answered) => given.text(alloc, &answered)?,
        Err(error) => refusal_text(alloc, error)?,
    };
    Ok(Ended::AnsweredAgain(answer))
}

// The refusal's number and name.
fn refusal_text(alloc: Global, error: PolyError) -> Answer {
    Ok(format!(in alloc; "error {}: {error}", error as u32)?)
}

// Tells what watches the requests for memory where a call begins and ends.
fn mark<R: Print>(watched: Option<&R>, line: &[u8]) {
    if let Some(rt) = watched {
        let _ = rt.write_all(line);
    }
}
