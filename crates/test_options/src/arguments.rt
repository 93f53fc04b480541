//! Arguments of a command line, read as far as the checks need.

use std::alloc::{AllocError, Global};

/// Returns these arguments with `first` before them and `last` after them.
pub(crate) fn with_more(
    alloc: Global,
    first: &[&str],
    arguments: &[String],
    last: &[&str],
) -> Result<Vec<String>, AllocError> {
    let mut all = Vec::new(alloc);
    for argument in first {
        all.push(String::from_str(alloc, argument)?)?;
    }
    for argument in arguments {
        all.push(String::from_str(alloc, argument.as_str())?)?;
    }
    for argument in last {
        all.push(String::from_str(alloc, argument)?)?;
    }
    Ok(all)
}

/// Returns whether one of these letters is a flag of some argument.
pub(crate) fn has_flag(arguments: &[String], letters: &[u8]) -> bool {
    arguments
        .iter()
        .any(|argument| is_flagged(argument.as_bytes(), letters))
}

/// Returns whether one of these letters is a flag of an argument, as `b` is of `-kbUA`.
fn is_flagged(argument: &[u8], letters: &[u8]) -> bool {
    let Some(flags) = argument.strip_prefix(b"-") else {
        return false;
    };
    for flag in flags {
        if b"DUix".contains(flag) {
            return false;
        }
        if letters.contains(flag) {
            return true;
        }
    }
    false
}

/// Returns whether an argument after these is an option too. `false` also if the last of these may
/// be an operand.
pub(crate) fn may_go_on(arguments: &[String]) -> bool {
    for argument in arguments {
        if argument.as_str() == "--" {
            return false;
        }
    }
    match arguments.last() {
        Some(last) => last.len() > 1 && last.as_bytes().starts_with(b"-"),
        None => true,
    }
}

/// Returns whether some argument gives a symbol this value.
pub(crate) fn has_value(arguments: &[String], value: &str) -> bool {
    for argument in arguments {
        if let Some((_, given)) = argument.as_str().split_once('=') {
            if given == value {
                return true;
            }
        }
    }
    false
}
