//! Runs of the tool over memory.

use crate::case::Behavior;
use crate::outcome::Outcome;
use std::alloc::{AllocError, Global};
use std::io::Read;
use test_reference::Answer;
use unifdef::{Watched, tool};

/// Runs the tool over streams that behave so.
///
/// # Errors
/// Fails if memory runs out.
pub(crate) fn run(
    alloc: Global,
    args: &[String],
    input: &[u8],
    behavior: Behavior,
) -> Result<Outcome, AllocError> {
    let mut reader = Watched::new(behavior.source(input));
    let mut out = Watched::new(behavior.sink(alloc));
    let mut err = Watched::new(Vec::<u8>::new(alloc));
    let status = tool(alloc, args, &mut reader, &mut out, &mut err);
    let output = out.inner().sink.taken.as_slice();
    Ok(Outcome {
        answer: answer_of(alloc, output, err.inner().as_slice(), status)?,
        reads: Some(reader.inner().reads),
        writes: Some(out.inner().writes),
        flushes: Some(out.inner().flushes),
    })
}

/// Runs the tool over a reader, and writes to memory.
///
/// # Errors
/// Fails if memory runs out.
pub(crate) fn run_over<R: Read + Drop>(
    alloc: Global,
    args: &[String],
    reader: R,
) -> Result<Outcome, AllocError> {
    let mut reader = Watched::new(reader);
    let mut out = Watched::new(Vec::<u8>::new(alloc));
    let mut err = Watched::new(Vec::<u8>::new(alloc));
    let status = tool(alloc, args, &mut reader, &mut out, &mut err);
    let output = out.inner().as_slice();
    Ok(Outcome::of(answer_of(alloc, output, err.inner().as_slice(), status)?))
}

/// Returns the answer with this output, message and status.
fn answer_of(
    alloc: Global,
    output: &[u8],
    message: &[u8],
    status: u8,
) -> Result<Answer, AllocError> {
    Ok(Answer {
        output: Vec::from_slice(alloc, output)?,
        message: Vec::from_slice(alloc, message)?,
        status,
    })
}
