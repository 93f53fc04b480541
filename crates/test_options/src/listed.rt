//! The list, then an option more: a name that `-s` doesn't list, and that no value leads to, counts
//! for nothing.

use crate::arguments::{has_value, may_go_on};
use crate::finding::Finding;
use crate::runs::{Run, run_with};
use std::alloc::{AllocError, Global};
use test_texts::Case;

/// Names that are frequent in the texts, and one that isn't there.
const NAMES: [&str; 6] = ["A", "B", "C", "X", "Y", "NOWHERE"];

/// Letters and a value of an option, before and after its name. The seed turns them from name to
/// name.
const OPTIONS: [(&str, &str); 4] = [("-D", ""), ("-D", "=2"), ("-U", ""), ("-iD", "")];

/// Returns whether a list has this name, alone in its line or after a depth.
fn is_listed(list: &[u8], name: &str) -> bool {
    for line in list.split(|byte| *byte == b'\n') {
        for word in line.split(|byte| *byte == b' ') {
            if word == name.as_bytes() {
                return true;
            }
        }
    }
    false
}

/// Checks an option for each name that isn't listed and is no value, if the list succeeds.
pub(crate) fn check_unlisted(alloc: Global, case: &Case) -> Result<Finding, AllocError> {
    let list = run_with(alloc, case, &["-s"], &[])?;
    if list.has_fault() {
        return Ok(Finding::Skipped);
    }
    let expected = run_with(alloc, case, &[], &[])?;
    for (at, name) in NAMES.iter().enumerate() {
        if !is_listed(list.output.as_slice(), name)
            && !has_value(case.args.as_slice(), name)
            && !counts_for_nothing(alloc, case, at, name, &expected)?
        {
            return Ok(Finding::Differs);
        }
    }
    Ok(Finding::Holds)
}

/// Returns whether the run is the expected one with an option for the name, before the arguments
/// and, if they can go on, after them.
fn counts_for_nothing(
    alloc: Global,
    case: &Case,
    at: usize,
    name: &str,
    expected: &Run,
) -> Result<bool, AllocError> {
    let turn = (case.seed % 4) as usize;
    let (letters, value) = OPTIONS[turn.wrapping_add(at) % 4];
    let option = format!(in alloc; "{letters}{name}{value}")?;
    let before = run_with(alloc, case, &[option.as_str()], &[])?;
    if !before.is_same(expected) {
        return Ok(false);
    }
    if !may_go_on(case.args.as_slice()) {
        return Ok(true);
    }
    let after = run_with(alloc, case, &[], &[option.as_str()])?;
    Ok(after.is_same(expected))
}
