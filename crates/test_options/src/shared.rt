//! Lines shared: each line of a text is printed by the run or by the run with `-c`, in order.
//!
//! Which of the two printed a line can be open, since lines may be alike. So the ways in which the
//! first lines can be shared are followed together: `ways` has, for each number of lines of the
//! run, whether these may be the lines of the run among them.

use crate::arguments::has_flag;
use crate::finding::Finding;
use crate::lines::{lines_of, may_be_edited};
use crate::runs::{Run, has_usage, run_with};
use std::alloc::{AllocError, Global};
use test_texts::Case;

/// Checks the run and the run with `-c`, if no other option lists or changes lines.
pub(crate) fn check_shares(alloc: Global, case: &Case) -> Result<Finding, AllocError> {
    if has_flag(case.args.as_slice(), b"bclnsS") || !has_usage(alloc, case)? {
        return Ok(Finding::Skipped);
    }
    let run = run_with(alloc, case, &[], &[])?;
    let other = run_with(alloc, case, &["-c"], &[])?;
    let same_fault = run.has_fault() == other.has_fault()
        && run.message.as_slice() == other.message.as_slice();
    if same_fault && are_shared(alloc, case.text.as_slice(), &run, &other)? {
        Ok(Finding::Holds)
    } else {
        Ok(Finding::Differs)
    }
}

/// Returns whether the outputs share the lines of the text: all of them, or those before a fault.
fn are_shared(alloc: Global, text: &[u8], run: &Run, other: &Run) -> Result<bool, AllocError> {
    let lines = lines_of(alloc, text)?;
    let kept = lines_of(alloc, run.output.as_slice())?;
    let removed = lines_of(alloc, other.output.as_slice())?;
    let count = kept.len().saturating_add(removed.len());
    if count > lines.len() || (count < lines.len() && !run.has_fault()) {
        return Ok(false);
    }
    let mut ways = Vec::new(alloc);
    ways.push(true)?;
    for (at, line) in lines.iter().take(count).enumerate() {
        ways.push(false)?;
        share_line(
            ways.as_mut_slice(),
            at,
            line,
            kept.as_slice(),
            removed.as_slice(),
        );
    }
    Ok(ways.get(kept.len()) == Some(&true))
}

/// Goes on by the line at this place. A line that is kept may be edited, and a removed one not.
fn share_line(ways: &mut [bool], at: usize, line: &[u8], kept: &[&[u8]], removed: &[&[u8]]) {
    for count in (0..=at).rev() {
        if ways.get(count) == Some(&true) {
            let stays = may_stay(line, kept.get(count));
            let goes = removed
                .get(at.saturating_sub(count))
                .is_some_and(|other| *other == line);
            set_way(ways, count, goes);
            if stays {
                set_way(ways, count.saturating_add(1), true);
            }
        }
    }
}

/// Returns whether the run may have printed `printed` for this line.
fn may_stay(line: &[u8], printed: Option<&&[u8]>) -> bool {
    match printed {
        Some(printed) => *printed == line || may_be_edited(line, printed),
        None => false,
    }
}

/// Sets the way at a place, if there is one.
fn set_way(ways: &mut [bool], at: usize, value: bool) {
    if let Some(way) = ways.get_mut(at) {
        *way = value;
    }
}
