//! Texts at the limits: the longest line, the deepest sections, and one more. Their last prefixes
//! are tried, and the last failing calls.

use crate::checking::{check_failures, check_prefixes};
use crate::mismatch::Mismatch;
use std::alloc::{AllocError, Global};
use test_streams::{nested, parted, repeated};

/// The number of last places that are tried.
const LAST: usize = 8;

/// Finds the first text at a limit that is answered wrongly.
///
/// # Errors
/// Fails if memory runs out.
pub(crate) fn check_limits(alloc: Global) -> Result<Option<Mismatch>, AllocError> {
    for count in [65_535, 65_536] {
        let mut line = repeated(alloc, b"a", count)?;
        line.push(b'\n')?;
        if let Some(wrong) = check_last(alloc, line.as_slice())? {
            return Ok(Some(wrong));
        }
    }
    for depth in [64, 256, 257] {
        let text = nested(alloc, depth)?;
        if let Some(wrong) = check_last(alloc, text.as_slice())? {
            return Ok(Some(wrong));
        }
    }
    Ok(None)
}

/// Tries the last prefixes of a text, and its last failing calls.
fn check_last(alloc: Global, text: &[u8]) -> Result<Option<Mismatch>, AllocError> {
    let args = parted(alloc, "-DA")?;
    if let Some(wrong) = check_prefixes(alloc, args.as_slice(), text, LAST)? {
        return Ok(Some(wrong));
    }
    check_failures(alloc, args.as_slice(), text, LAST)
}
