//! What users of options may rely on (`test_options`), on the texts of cases and of seeds.

use crate::case::Case;
use std::alloc::{AllocError, Global};
use test_options::{CHECKS, Finding, findings};

/// Finds the first check that differs on a case. Seeds 0 to 3 give each name each option in turn.
///
/// # Errors
/// Fails if memory runs out.
pub(crate) fn differing_check(
    alloc: Global,
    case: &Case,
) -> Result<Option<&'static str>, AllocError> {
    for seed in 0..4 {
        let mut args = Vec::new(alloc);
        for word in &case.args {
            args.push(String::from_str(alloc, word.as_str())?)?;
        }
        let text = Vec::from_slice(alloc, case.input.as_slice())?;
        let found = differing(alloc, &test_texts::Case { args, text, seed })?;
        if found.is_some() {
            return Ok(found);
        }
    }
    Ok(None)
}

/// Finds the first of `count` seeds from `first` on whose case a check differs on, with the check's
/// name.
///
/// # Errors
/// Fails if memory runs out.
pub(crate) fn differing_seed(
    alloc: Global,
    first: u64,
    count: u64,
) -> Result<Option<(u64, &'static str)>, AllocError> {
    for at in 0..count {
        let seed = first.wrapping_add(at);
        if let Some(name) = differing(alloc, &test_texts::case_of(alloc, seed)?)? {
            return Ok(Some((seed, name)));
        }
    }
    Ok(None)
}

/// Returns the name of the first check that differs on a case.
fn differing(alloc: Global, case: &test_texts::Case) -> Result<Option<&'static str>, AllocError> {
    for (finding, name) in findings(alloc, case)?.iter().zip(CHECKS) {
        if *finding == Finding::Differs {
            return Ok(Some(name));
        }
    }
    Ok(None)
}
