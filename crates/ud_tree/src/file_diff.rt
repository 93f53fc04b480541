//! The diff of one file.
//!
//! A diff comes from what became of each line, without a search for common lines. Its path has no
//! `./`, which `git apply` refuses, and is quoted if it begins or ends with a space, which `patch`
//! loses. Rejected: comparing the texts, which finds no better hunks.

ghost use Rattle.std.specs.Prelude.{IfOk};
ghost use Rattle.ud_passes.specs.diff.Patching.{IsDiff};
ghost use Rattle.ud_replace.specs.MadeOutcomes.{output_of};

use std::alloc::{AllocError, Global};
use ud_passes::unified_diff;
use ud_replace::Kept;

/// Returns the diff of a file's text and its output.
///
/// # Errors
/// Fails if memory runs out.
pub(crate) fn diff_of(alloc: Global, name: &[u8], kept: &Kept) -> Result<Vec<u8>, AllocError>
    ensures { IfOk result
        (λ diff. IsDiff name.now kept.now.text.items (output_of kept.now) diff.items) }
{
    let marks = kept.outcome.marks.as_slice();
    unified_diff(alloc, name, kept.text.as_slice(), kept.output(), marks)
}
