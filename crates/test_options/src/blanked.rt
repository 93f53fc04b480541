//! Line for line: under `-b` the lines of the output are at the places of the input's lines.

use crate::arguments::has_flag;
use crate::finding::Finding;
use crate::lines::{ending_of, lines_of, may_be_edited};
use crate::runs::run_with;
use std::alloc::{AllocError, Global};
use test_texts::Case;

/// Checks the lines under `-b`, and under `-b -c`, if nothing is listed and the text ends in a
/// newline.
pub(crate) fn check_places(alloc: Global, case: &Case) -> Result<Finding, AllocError> {
    let text = case.text.as_slice();
    if has_flag(case.args.as_slice(), b"sS") || !(text.is_empty() || text.ends_with(b"\n")) {
        return Ok(Finding::Skipped);
    }
    let mut found = Finding::Skipped;
    for first in ["-b", "-bc"] {
        let run = run_with(alloc, case, &[first], &[])?;
        if run.has_fault() {
            continue;
        }
        if !are_in_place(alloc, text, run.output.as_slice())? {
            return Ok(Finding::Differs);
        }
        found = Finding::Holds;
    }
    Ok(found)
}

/// Returns whether each line of `output` may be printed of the line at its place in `text`, and
/// there are no others.
fn are_in_place(alloc: Global, text: &[u8], output: &[u8]) -> Result<bool, AllocError> {
    let lines = lines_of(alloc, text)?;
    let printed = lines_of(alloc, output)?;
    Ok(
        lines.len() == printed.len()
            && lines
                .iter()
                .zip(printed.iter())
                .all(|(line, other)| is_in_place(line, other)),
    )
}

/// Returns whether `printed` is the line, an edited form of it or its ending.
fn is_in_place(line: &[u8], printed: &[u8]) -> bool {
    printed == line || printed == ending_of(line) || may_be_edited(line, printed)
}
