//! Runs of lines. The tool, fed in chunks of each small size, is compared with the reference on
//! texts whose stops are at the borders of SIMD lanes.

use crate::case::Behavior;
use crate::mismatch::{Mismatch, Way};
use crate::outcome::Outcome;
use crate::running::run;
use std::alloc::{AllocError, Global};
use test_reference::answer_to;
use test_streams::parted;

/// Bytes that stop a run, and some that only seem to, each after some plain bytes of its line.
const STOPS: [&[u8]; 26] = [
    b"/* c */",
    b"/* c\n * d\n */ e",
    b"/* c */ #ifdef A",
    b"/**/# endif",
    b"// c \\\nd",
    b"// c /* d",
    b"\"s\" 's'",
    b"\"s\\\"/*\"",
    b"\"s\\\n/*\"",
    b"don't",
    b"\\\n#x",
    b"\\\r\n/* */",
    b"/\\\n* c */",
    b"/* c *\\\n/",
    b"/***/ /*/ */",
    b"# x",
    b"\n#include <a>",
    b"\n#define E(x) #x",
    b"\n # ifdef A\ny",
    b"\n#else",
    b"\n#endif",
    b"\n#ifdef B\ny",
    b"\r\ny\r",
    b"\n\n\n\n",
    b"/",
    b"*/ *\\",
];

/// The arguments of the runs, in turn.
const ARGS: [&str; 7] = ["", "-t", "-b", "-n", "-c", "-s", "-c -n"];

/// The numbers of plain bytes before each stop: about none, and about a border of 16, 32, 64 and
/// 128 lanes.
const LEADS: [usize; 17] = [
    0, 1, 2, 14, 15, 16, 17, 30, 31, 32, 33, 62, 63, 64, 65, 127, 128,
];

/// Returns all stops, each after `lead` plain bytes, in two sections of which one is removed.
fn dense_text(alloc: Global, lead: usize) -> Result<Vec<u8>, AllocError> {
    let mut text = Vec::new(alloc);
    for section in [b"#ifdef A\n", b"#ifdef B\n"] {
        text.extend_from_slice(section)?;
        for stop in &STOPS {
            for _ in 0..lead {
                text.push(b'a')?;
            }
            text.extend_from_slice(stop)?;
            text.push(b'\n')?;
        }
    }
    for _ in 0..4 {
        text.extend_from_slice(b"#endif\n")?;
    }
    Ok(text)
}

/// Finds the first text of stops that is answered wrongly: all of it, or its first third.
///
/// # Errors
/// Fails if memory runs out.
pub(crate) fn check_borders(alloc: Global) -> Result<Option<Mismatch>, AllocError> {
    for &lead in &LEADS {
        let text = dense_text(alloc, lead)?;
        let third = &text.as_slice()[..text.len() / 3];
        for (symbols, text) in [("-DA -UB", text.as_slice()), ("-UA -DB", third)] {
            if let Some(wrong) = check_arguments(alloc, symbols, lead, text)? {
                return Ok(Some(wrong));
            }
        }
    }
    Ok(None)
}

/// Compares the answers to a text with each of the arguments.
fn check_arguments(
    alloc: Global,
    symbols: &str,
    lead: usize,
    text: &[u8],
) -> Result<Option<Mismatch>, AllocError> {
    for (turn, args) in ARGS.iter().enumerate() {
        let words = format!(in alloc; "{symbols} {args}")?;
        let args = parted(alloc, words.as_str())?;
        let wrong = check_turn(alloc, args.as_slice(), turn, lead, text)?;
        if wrong.is_some() {
            return Ok(wrong);
        }
    }
    Ok(None)
}

/// Compares the answers to these arguments. The tool reads chunks of 8,192 bytes, and of each size
/// from 1 to 70 bytes whose turn it is.
fn check_turn(
    alloc: Global,
    args: &[String],
    turn: usize,
    lead: usize,
    text: &[u8],
) -> Result<Option<Mismatch>, AllocError> {
    let wanted = Outcome::of(answer_to(alloc, args, text)?);
    for step in 1..=71_usize {
        let step = if step == 71 { 8192 } else { step };
        if step == 8192 || step.wrapping_add(lead) % ARGS.len() == turn {
            let found = run(alloc, args, text, Behavior::reading(step))?;
            let wrong = Mismatch::between(alloc, Way::Reads(step), &wanted, found)?;
            if wrong.is_some() {
                return Ok(wrong);
            }
        }
    }
    Ok(None)
}
