//! Case files read: `data/README.md` has the form.

use crate::case::{Behavior, Case};
use crate::literals::unescape;
use std::alloc::{AllocError, Global};

/// Why a case file can't be read.
#[derive(Debug, Drop)]
pub(crate) enum BadCase {
    /// Memory ran out.
    OutOfMemory,
    /// A line has none of the forms.
    Line(usize),
    /// There is no line of arguments, or there are two.
    Arguments,
}

impl From<AllocError> for BadCase {
    fn from(_: AllocError) -> BadCase {
        BadCase::OutOfMemory
    }
}

/// Returns the case that the text of a file states.
///
/// # Errors
/// Fails if a line has none of the forms, if not exactly one line has the arguments, or if memory
/// runs out.
pub(crate) fn parse(alloc: Global, text: &str) -> Result<Case, BadCase> {
    let mut case = Case::empty(alloc);
    let (mut number, mut commands, mut copies) = (0_usize, 0_usize, false);
    for line in text.lines() {
        number = number.saturating_add(1);
        if line == "unifdef" || line.starts_with("unifdef ") {
            commands = commands.saturating_add(1);
        } else if line == "output is input" {
            copies = true;
        }
        if !take(alloc, &mut case, line)? {
            return Err(BadCase::Line(number));
        }
    }
    if copies {
        case.expected.answer.output = Vec::from_slice(alloc, case.input.as_slice())?;
    }
    if commands == 1 {
        Ok(case)
    } else {
        Err(BadCase::Arguments)
    }
}

/// Adds what a line states. Returns whether the line has one of the forms.
fn take(alloc: Global, case: &mut Case, line: &str) -> Result<bool, AllocError> {
    if is_left_out(line) {
        return Ok(true);
    }
    if let Some(words) = line.strip_prefix("unifdef") {
        return add_arguments(alloc, &mut case.args, words);
    }
    if let Some(text) = line.strip_prefix('<') {
        return add_text(alloc, &mut case.input, text);
    }
    if let Some(text) = line.strip_prefix('>') {
        return add_text(alloc, &mut case.expected.answer.output, text);
    }
    if let Some(text) = line.strip_prefix('!') {
        return add_text(alloc, &mut case.expected.answer.message, text);
    }
    Ok(take_status(case, line) || take_try(case, line) || take_behavior(case, line))
}

/// Returns whether a line says nothing of what is compared here: a comment, the released program's
/// answer, the output that is read off the input, or the growths of memory.
fn is_left_out(line: &str) -> bool {
    line.is_empty()
        || line.starts_with('#')
        || line.starts_with("2.10")
        || line == "output is input"
        || line == "try growths"
}

/// Adds the arguments of a line: words between spaces, and what stands in quotes. Returns whether
/// each quote is closed, and no backslash stands in quotes.
fn add_arguments(alloc: Global, args: &mut Vec<String>, text: &str) -> Result<bool, AllocError> {
    let mut is_quoted = false;
    for part in text.split('"') {
        if is_quoted && part.contains('\\') {
            return Ok(false);
        } else if is_quoted {
            args.push(String::from_str(alloc, part)?)?;
        } else {
            for word in part.split_whitespace() {
                args.push(String::from_str(alloc, word)?)?;
            }
        }
        is_quoted = !is_quoted;
    }
    // The last part stands outside of quotes.
    Ok(is_quoted)
}

/// Appends a line of text, or the bytes of a literal, which may be repeated. Returns whether the
/// text after the first byte of its line has one of these forms.
fn add_text(alloc: Global, bytes: &mut Vec<u8>, text: &str) -> Result<bool, AllocError> {
    if let Some(literal) = text.strip_prefix('"') {
        return add_literal(alloc, bytes, literal);
    }
    let Some(line) = text.strip_prefix(' ') else {
        bytes.push(b'\n')?;
        return Ok(text.is_empty());
    };
    bytes.extend_from_slice(line.as_bytes())?;
    bytes.push(b'\n')?;
    Ok(true)
}

/// Appends the bytes of a literal after its first quote. Returns whether it is one.
fn add_literal(alloc: Global, bytes: &mut Vec<u8>, literal: &str) -> Result<bool, AllocError> {
    let Some((inside, after)) = literal.rsplit_once('"') else {
        return Ok(false);
    };
    let count = match after.strip_prefix(" * ") {
        Some(count) => count.parse::<usize>().ok(),
        None if after.is_empty() => Some(1),
        None => None,
    };
    let (Some(count), Some(text)) = (count, unescape(alloc, inside)?) else {
        return Ok(false);
    };
    for _ in 0..count {
        bytes.extend_from_slice(text.as_slice())?;
    }
    Ok(true)
}

/// Takes a line `status N`.
fn take_status(case: &mut Case, line: &str) -> bool {
    match number_in(line, "status ", "").and_then(|status| u8::try_from(status).ok()) {
        Some(status) => {
            case.expected.answer.status = status;
            true
        }
        None => false,
    }
}

/// Takes a line that asks for further runs.
fn take_try(case: &mut Case, line: &str) -> bool {
    match line {
        "try cuts" => case.tries.cuts = true,
        "try failures" => case.tries.failures = true,
        "try again" => case.tries.again = true,
        _ => return false,
    }
    true
}

/// Takes a line that says how the streams behave, or how often they are called.
fn take_behavior(case: &mut Case, line: &str) -> bool {
    let before = case.behavior.unwrap_or(Behavior::PLAIN);
    if let Some(counts) = line.strip_prefix("calls ") {
        case.behavior = Some(before);
        return take_calls(case, counts);
    }
    match behavior_after(before, line) {
        Some(behavior) => {
            case.behavior = Some(behavior);
            true
        }
        None => false,
    }
}

/// Returns the behavior that a line adds to.
fn behavior_after(before: Behavior, line: &str) -> Option<Behavior> {
    let mut behavior = before;
    if let Some(step) = number_in(line, "reads of ", " bytes") {
        behavior.read_step = step;
    } else if let Some(count) = number_in(line, "read fails after ", " bytes") {
        behavior.read_fails_after = Some(count);
    } else if let Some(number) = number_in(line, "read ", " is interrupted") {
        behavior.interrupted_read = number;
    } else if let Some(step) = number_in(line, "writes of ", " bytes") {
        behavior.write_step = step;
    } else if let Some(room) = number_in(line, "write fails after ", " bytes") {
        behavior.room = room;
    } else if let Some(room) = number_in(line, "write stops after ", " bytes") {
        behavior.room = room;
        behavior.refuses = false;
    } else if let Some(number) = number_in(line, "write ", " is interrupted") {
        behavior.interrupted_write = number;
    } else if line == "flush fails" {
        behavior.flush_fails = true;
    } else if line == "first flush fails" {
        behavior.first_flush_fails = true;
    } else {
        return None;
    }
    Some(behavior)
}

/// Takes the numbers of calls: of reads, of writes and of flushes.
fn take_calls(case: &mut Case, counts: &str) -> bool {
    let mut words = counts.split_whitespace();
    let (Some(reads), Some(writes), Some(flushes), None) = (
        words.next(),
        words.next(),
        words.next(),
        words.next(),
    ) else {
        return false;
    };
    let is_number = |word: &str| word == "-" || word.parse::<usize>().is_ok();
    case.expected.reads = reads.parse::<usize>().ok();
    case.expected.writes = writes.parse::<usize>().ok();
    case.expected.flushes = flushes.parse::<usize>().ok();
    is_number(reads) && is_number(writes) && is_number(flushes)
}

/// Returns the number between two texts that make up the rest of the line.
fn number_in(line: &str, front: &str, back: &str) -> Option<usize> {
    line.strip_prefix(front)?
        .strip_suffix(back)?
        .parse::<usize>()
        .ok()
}
