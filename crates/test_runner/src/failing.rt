//! Each read of a text fails in turn, each write of its output, and the flush.

use crate::case::Behavior;
use crate::engines::is_fused;
use crate::expected::{after_bytes, unflushed, within_room};
use crate::mismatch::{Mismatch, Way};
use crate::outcome::Outcome;
use crate::running::run;
use std::alloc::{AllocError, Global};
use test_reference::{Answer, answer_to};
use unifdef::plan;

/// Finds the first of the last places at which a failing read has an unexpected outcome.
///
/// The text is read byte by byte up to there, and the next read fails or is interrupted. No read is
/// made after that one, and none after a fault.
///
/// # Errors
/// Fails if memory runs out.
pub(crate) fn failing_reads(
    alloc: Global,
    args: &[String],
    text: &[u8],
    last: usize,
) -> Result<Option<Mismatch>, AllocError> {
    for place in text.len().saturating_sub(last)..=text.len() {
        let wanted = failed_read(alloc, args, text, place)?;
        for behavior in [failing_after(place), interrupted_after(place)] {
            let found = run(alloc, args, text, behavior)?;
            let is_late = wanted.reads.is_none() && found.reads.is_some_and(|count| count > place);
            let wanted = Outcome {
                reads: if is_late { Some(place) } else { wanted.reads },
                flushes: wanted.flushes,
                ..Outcome::like(alloc, &wanted.answer)?
            };
            let wrong = Mismatch::between(alloc, Way::ReadFails(place), &wanted, found)?;
            if wrong.is_some() {
                return Ok(wrong);
            }
        }
    }
    Ok(None)
}

/// Returns the outcome if the read after the first `place` bytes fails, each read before it having
/// returned one byte.
fn failed_read(
    alloc: Global,
    args: &[String],
    text: &[u8],
    place: usize,
) -> Result<Outcome, AllocError> {
    let (given, _) = text.split_at(place.min(text.len()));
    let answer = after_bytes(alloc, args, given)?;
    let is_read_error = answer.message.as_slice().ends_with(b": Read error\n");
    Ok(Outcome {
        reads: is_read_error.then_some(place.saturating_add(1)),
        flushes: flushes_of(alloc, args)?,
        ..Outcome::of(answer)
    })
}

/// Returns streams that read one byte a call, and fail after `place` bytes.
fn failing_after(place: usize) -> Behavior {
    Behavior {
        read_fails_after: Some(place),
        ..Behavior::reading(1)
    }
}

/// Returns streams that read one byte a call, and are interrupted once after `place` bytes.
fn interrupted_after(place: usize) -> Behavior {
    Behavior {
        interrupted_read: place.saturating_add(1),
        ..Behavior::reading(1)
    }
}

/// Finds the first of the last places at which a failing write has an unexpected outcome.
///
/// The output accepts the bytes up to there, and then fails, accepts none, or is interrupted. An
/// engine is fused after it.
///
/// # Errors
/// Fails if memory runs out.
pub(crate) fn failing_writes(
    alloc: Global,
    args: &[String],
    text: &[u8],
    last: usize,
) -> Result<Option<Mismatch>, AllocError> {
    let whole = answer_to(alloc, args, text)?;
    let size = whole.output.len();
    for room in size.saturating_sub(last)..=size {
        let wanted = Outcome {
            flushes: flushes_of(alloc, args)?,
            ..Outcome::of(within_room(alloc, args, &whole, room)?)
        };
        let wrong = failing_writes_at(alloc, args, text, &wanted, room)?;
        if wrong.is_some() {
            return Ok(wrong);
        }
    }
    fused_engines(alloc, args, text, last)
}

/// Returns the number of flushes of a run: none if its arguments have a fault.
fn flushes_of(alloc: Global, args: &[String]) -> Result<Option<usize>, AllocError> {
    Ok(Some(usize::from(plan(alloc, args).is_ok())))
}

/// Tries outputs of capacity `room`: ones that accept all bytes at once or few a call, and then
/// fail, accept none or are interrupted. The text is read at once or byte by byte.
fn failing_writes_at(
    alloc: Global,
    args: &[String],
    text: &[u8],
    wanted: &Outcome,
    room: usize,
) -> Result<Option<Mismatch>, AllocError> {
    for (read_step, write_step, refuses) in [
        (usize::MAX, usize::MAX, true),
        (usize::MAX, usize::MAX, false),
        (usize::MAX, 1, true),
        (1, 3, false),
    ] {
        let behavior = Behavior {
            write_step,
            room,
            refuses,
            ..Behavior::reading(read_step)
        };
        let found = run(alloc, args, text, behavior)?;
        let wrong = Mismatch::between(alloc, Way::WriteFails(room), wanted, found)?;
        if wrong.is_some() {
            return Ok(wrong);
        }
    }
    interrupted_write(alloc, args, text, wanted, room)
}

/// Tries an output that accepts one byte a call, and whose call after `room` bytes is interrupted.
/// It isn't called again.
fn interrupted_write(
    alloc: Global,
    args: &[String],
    text: &[u8],
    wanted: &Outcome,
    room: usize,
) -> Result<Option<Mismatch>, AllocError> {
    let number = room.saturating_add(1);
    let behavior = Behavior {
        write_step: 1,
        interrupted_write: number,
        ..Behavior::PLAIN
    };
    let failed = wanted
        .answer
        .message
        .as_slice()
        .ends_with(b": Write error\n");
    let wanted = Outcome {
        writes: Some(if failed { number } else { room }),
        flushes: wanted.flushes,
        ..Outcome::like(alloc, &wanted.answer)?
    };
    let found = run(alloc, args, text, behavior)?;
    Mismatch::between(alloc, Way::WriteFails(room), &wanted, found)
}

/// Finds the first capacity of the output at which an engine isn't fused after its write failed.
fn fused_engines(
    alloc: Global,
    args: &[String],
    text: &[u8],
    last: usize,
) -> Result<Option<Mismatch>, AllocError> {
    let Ok(plan) = plan(alloc, args) else {
        return Ok(None);
    };
    for room in 0..=last.min(text.len()) {
        if !is_fused(alloc, &plan, text, room) {
            return Ok(Some(Mismatch {
                way: Way::Fused(room),
                wanted: Outcome::of(no_answer(alloc)),
                found: Outcome::of(no_answer(alloc)),
            }));
        }
    }
    Ok(None)
}

/// Returns an empty answer.
fn no_answer(alloc: Global) -> Answer {
    Answer {
        output: Vec::new(alloc),
        message: Vec::new(alloc),
        status: 0,
    }
}

/// Tries an output whose flush is interrupted.
///
/// # Errors
/// Fails if memory runs out.
pub(crate) fn failing_flush(
    alloc: Global,
    args: &[String],
    text: &[u8],
) -> Result<Option<Mismatch>, AllocError> {
    let whole = answer_to(alloc, args, text)?;
    let wanted = Outcome {
        flushes: flushes_of(alloc, args)?,
        ..Outcome::of(unflushed(alloc, args, &whole)?)
    };
    let behavior = Behavior {
        first_flush_fails: true,
        ..Behavior::PLAIN
    };
    let found = run(alloc, args, text, behavior)?;
    Mismatch::between(alloc, Way::FlushFails, &wanted, found)
}
