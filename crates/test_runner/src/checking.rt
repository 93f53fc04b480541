//! A case, run in all its ways.

use crate::case::{Behavior, Case};
use crate::failing::{failing_flush, failing_reads, failing_writes};
use crate::mismatch::{Mismatch, Way};
use crate::outcome::Outcome;
use crate::running::{run, run_over};
use std::alloc::{AllocError, Global};
use std::io::Read;
use test_reference::answer_to;

/// Runs a case, and finds the first way in which its outcome isn't the expected one.
///
/// A case that says how its streams behave is run so. Any other is run whole, in reads of 64, 7 and
/// 1 bytes, and by the reference; then as the case asks.
///
/// # Errors
/// Fails if memory runs out.
pub(crate) fn check(alloc: Global, case: &Case) -> Result<Option<Mismatch>, AllocError> {
    let (args, input) = (case.args.as_slice(), case.input.as_slice());
    if let Some(behavior) = case.behavior {
        let found = run(alloc, args, input, behavior)?;
        return Mismatch::between(alloc, Way::AsStated, &case.expected, found);
    }
    if let Some(wrong) = check_reads(alloc, case)? {
        return Ok(Some(wrong));
    }
    if case.tries.again {
        if let Some(wrong) = check_again(alloc, args, &case.expected)? {
            return Ok(Some(wrong));
        }
    }
    if case.tries.cuts {
        if let Some(wrong) = check_prefixes(alloc, args, input, usize::MAX)? {
            return Ok(Some(wrong));
        }
    }
    if case.tries.failures {
        return check_failures(alloc, args, input, usize::MAX);
    }
    Ok(None)
}

/// Runs a case in reads of several sizes, and by the reference.
fn check_reads(alloc: Global, case: &Case) -> Result<Option<Mismatch>, AllocError> {
    let (args, input) = (case.args.as_slice(), case.input.as_slice());
    for step in [usize::MAX, 64, 7, 1] {
        let found = run(alloc, args, input, Behavior::reading(step))?;
        let wrong = Mismatch::between(alloc, Way::Reads(step), &case.expected, found)?;
        if wrong.is_some() {
            return Ok(wrong);
        }
    }
    let found = Outcome::of(answer_to(alloc, args, input)?);
    Mismatch::between(alloc, Way::Reference, &case.expected, found)
}

/// Runs the output of a case again, which is copied. The status says so by the exit mode.
fn check_again(
    alloc: Global,
    args: &[String],
    first: &Outcome,
) -> Result<Option<Mismatch>, AllocError> {
    let input = first.answer.output.as_slice();
    let mut wanted = Outcome::of(answer_to(alloc, args, input)?);
    wanted.answer.output = Vec::from_slice(alloc, input)?;
    wanted.answer.message = Vec::new(alloc);
    let found = run(alloc, args, input, Behavior::PLAIN)?;
    Mismatch::between(alloc, Way::Again, &wanted, found)
}

/// Runs the `last` longest prefixes of an input, each in two reads that are cut at one of the last
/// places, beside the reference.
///
/// # Errors
/// Fails if memory runs out.
pub(crate) fn check_prefixes(
    alloc: Global,
    args: &[String],
    input: &[u8],
    last: usize,
) -> Result<Option<Mismatch>, AllocError> {
    for len in input.len().saturating_sub(last)..=input.len() {
        let wrong = check_cuts(alloc, args, &input[..len], last)?;
        if wrong.is_some() {
            return Ok(wrong);
        }
    }
    Ok(None)
}

/// Runs a text in two reads, cut at each of the last places, beside the reference.
fn check_cuts(
    alloc: Global,
    args: &[String],
    text: &[u8],
    last: usize,
) -> Result<Option<Mismatch>, AllocError> {
    let wanted = Outcome::of(answer_to(alloc, args, text)?);
    for cut in text.len().saturating_sub(last)..=text.len() {
        let (prefix, rest) = text.split_at(cut);
        let found = run_over(alloc, args, prefix.chain(rest))?;
        let len = text.len();
        let wrong = Mismatch::between(alloc, Way::Cut { len, cut }, &wanted, found)?;
        if wrong.is_some() {
            return Ok(wrong);
        }
    }
    Ok(None)
}

/// Lets each read and each write at the last places fail in turn, and the flush.
///
/// # Errors
/// Fails if memory runs out.
pub(crate) fn check_failures(
    alloc: Global,
    args: &[String],
    input: &[u8],
    last: usize,
) -> Result<Option<Mismatch>, AllocError> {
    if let Some(wrong) = failing_reads(alloc, args, input, last)? {
        return Ok(Some(wrong));
    }
    if let Some(wrong) = failing_writes(alloc, args, input, last)? {
        return Ok(Some(wrong));
    }
    failing_flush(alloc, args, input)
}
