//! The tool's expected answer if a read or a write fails, made from the reference's answers to
//! whole texts.

use crate::outcome::copy;
use memchr::memrchr;
use std::alloc::{AllocError, Global};
use test_reference::{Answer, answer_to};
use ud_args::{display_name, plan};

/// The exit status after a fault.
const TROUBLE: u8 = 2;

/// Returns the answer if the read after the bytes `given` fails.
///
/// That is a fault that they have as a text that goes on, or else the output for the whole lines
/// and a read error.
///
/// # Errors
/// Fails if memory runs out.
pub(crate) fn after_bytes(
    alloc: Global,
    args: &[String],
    given: &[u8],
) -> Result<Answer, AllocError> {
    let lines = answer_to(alloc, args, whole_lines(given))?;
    if has_faulty_line(&lines) {
        return Ok(lines);
    }
    let ended = answer_to(alloc, args, given)?;
    if ended.message.as_slice().ends_with(b"Line too long\n") {
        return Ok(ended);
    }
    failed(alloc, args, lines.output.as_slice(), b"Read error")
}

/// Returns the answer if the output accepts `room` bytes, and then fails.
///
/// # Errors
/// Fails if memory runs out.
pub(crate) fn within_room(
    alloc: Global,
    args: &[String],
    whole: &Answer,
    room: usize,
) -> Result<Answer, AllocError> {
    match whole.output.as_slice().get(..room) {
        Some(prefix) if room < whole.output.len() => failed(alloc, args, prefix, b"Write error"),
        _ => copy(alloc, whole),
    }
}

/// Returns the answer if the flush at the end fails.
///
/// # Errors
/// Fails if memory runs out.
pub(crate) fn unflushed(
    alloc: Global,
    args: &[String],
    whole: &Answer,
) -> Result<Answer, AllocError> {
    if whole.message.is_empty() {
        return failed(alloc, args, whole.output.as_slice(), b"Write error");
    }
    copy(alloc, whole)
}

/// Returns the whole lines of a text: its bytes up to the last newline.
fn whole_lines(text: &[u8]) -> &[u8] {
    match memrchr(b'\n', text) {
        Some(at) => text.get(..=at).unwrap_or(text),
        None => &[],
    }
}

/// Returns whether a line of the text is faulty, and not just its end.
fn has_faulty_line(answer: &Answer) -> bool {
    let message = answer.message.as_slice();
    !message.is_empty() && !message.windows(3).any(|part| part == b"EOF".as_slice())
}

/// Returns the answer of a run with this output that reports a failed call.
fn failed(
    alloc: Global,
    args: &[String],
    output: &[u8],
    error: &[u8],
) -> Result<Answer, AllocError> {
    let plan = plan(alloc, args);
    let name = match &plan {
        Ok(plan) => display_name(plan, args),
        Err(_) => b"stdin".as_slice(),
    };
    let mut message = Vec::new(alloc);
    for part in [b"unifdef: ".as_slice(), name, b": ", error, b"\n"] {
        message.extend_from_slice(part)?;
    }
    Ok(Answer {
        output: Vec::from_slice(alloc, output)?,
        message,
        status: TROUBLE,
    })
}
