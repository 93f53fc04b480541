//! The outcome of a run: the tool's answer, and the numbers of calls of its streams.

use std::alloc::{AllocError, Global};
use std::fmt;
use test_reference::Answer;

/// An answer, and numbers of calls. A number that isn't checked is `None`.
#[derive(Drop)]
pub(crate) struct Outcome {
    pub answer: Answer,
    pub reads: Option<usize>,
    pub writes: Option<usize>,
    pub flushes: Option<usize>,
}

impl Outcome {
    /// Returns an outcome with this answer, and any numbers of calls.
    pub(crate) fn of(answer: Answer) -> Outcome {
        Outcome {
            answer,
            reads: None,
            writes: None,
            flushes: None,
        }
    }

    /// Returns an outcome with a copy of this answer, and any numbers of calls.
    ///
    /// # Errors
    /// Fails if memory runs out.
    pub(crate) fn like(alloc: Global, answer: &Answer) -> Result<Outcome, AllocError> {
        Ok(Outcome::of(copy(alloc, answer)?))
    }

    /// Returns whether a run had this outcome.
    pub(crate) fn is_met_by(&self, run: &Outcome) -> bool {
        self.answer.status == run.answer.status
            && self.answer.message.as_slice() == run.answer.message.as_slice()
            && self.answer.output.as_slice() == run.answer.output.as_slice()
            && is_count(self.reads, run.reads)
            && is_count(self.writes, run.writes)
            && is_count(self.flushes, run.flushes)
    }
}

impl fmt::Display for Outcome {
    fn fmt<W: fmt::Write>(&self, f: &mut fmt::Formatter<W>) -> fmt::Result {
        write!(
            f,
            "status {}, output \"{}\", message \"{}\"",
            self.answer.status,
            self.answer.output.as_slice().escape_ascii(),
            self.answer.message.as_slice().escape_ascii()
        )?;
        for (calls, name) in [
            (self.reads, "reads"),
            (self.writes, "writes"),
            (self.flushes, "flushes"),
        ] {
            if let Some(count) = calls {
                write!(f, ", {count} {name}")?;
            }
        }
        Ok(())
    }
}

/// Returns a copy of an answer.
///
/// # Errors
/// Fails if memory runs out.
pub(crate) fn copy(alloc: Global, answer: &Answer) -> Result<Answer, AllocError> {
    Ok(Answer {
        output: Vec::from_slice(alloc, answer.output.as_slice())?,
        message: Vec::from_slice(alloc, answer.message.as_slice())?,
        status: answer.status,
    })
}

/// Returns whether a number of calls is the expected one, if it is checked.
fn is_count(expected: Option<usize>, calls: Option<usize>) -> bool {
    expected.is_none() || expected == calls
}
