//! The marks of the lines of an input, by what became of them in the output.

ghost use Rattle.std.specs.Prelude.{◌≡◌, IfOk};
ghost use Rattle.ud_passes.specs.squeezing.SqueezedTexts as spec;
ghost use Rattle.ud_passes.specs.squeezing.SqueezedTexts.{marks_with, first_flag, later_flags};

use crate::diff::{EDITED, SAME};
use std::alloc::{AllocError, Global};

/// The mark of a line that stayed in an output, and is left out of the squeezed one.
pub(crate) const SQUEEZED: u8 = b'-';

/// Returns whether a line with this mark stays: it is the same, or another line replaces it.
fn stays(mark: u8) -> bool
    ensures { result ≡ spec.stays mark }
{
    mark == SAME || mark == EDITED
}

/// Returns whether the first of the lines with these marks went.
pub(crate) fn is_gap(marks: &[u8]) -> bool
    ensures { result ≡ spec.is_gap marks.now }
{
    match marks.first() {
        Some(mark) => !stays(*mark),
        None => false,
    }
}

/// Returns the marks after the first line that stays.
pub(crate) fn after_stay(marks: &[u8]) -> &[u8]
    ensures { result.now ≡ spec.after_stay marks.now }
{
    let mut rest = marks;
    while let Some((mark, later)) = rest.split_first() {
        rest = later;
        if stays(*mark) {
            break;
        }
    }
    rest
}

/// Returns whether the next line stays, as it does if no flag is left.
pub(crate) fn first_flag(flags: &[bool]) -> bool
    ensures { result ≡ first_flag flags.now }
{
    *flags.first().unwrap_or(&true)
}

/// Returns the flags after the first one.
pub(crate) fn later_flags(flags: &[bool]) -> &[bool]
    ensures { result.now ≡ later_flags flags.now }
{
    flags.get(1..).unwrap_or(&[])
}

/// Returns the marks with the flags of the lines that stayed: such a line has the mark `SQUEEZED`
/// if its flag is false.
///
/// # Errors
/// Fails if memory runs out.
pub(crate) fn marks_with(alloc: Global, marks: &[u8], flags: &[bool]) -> Result<Vec<u8>, AllocError>
    ensures { IfOk result (λ with. with.items ≡ marks_with marks.now flags.now) }
{
    let mut with = Vec::new(alloc);
    let mut rest = flags;
    for mark in marks {
        if stays(*mark) {
            with.push(if first_flag(rest) { *mark } else { SQUEEZED })?;
            rest = later_flags(rest);
        } else {
            with.push(*mark)?;
        }
    }
    Ok(with)
}
