//! A unified diff (POSIX XCU, diff -u) of a text and the output for it.
//!
//! `unified_diff` makes it from both texts. Marks say which lines stay; with wrong marks, the diff
//! would have more changes, but still turn one text into the other. `specs/diff` defines what hunks
//! are (Hunks), how they change a text (Patching), which lines they show (Contexts), and how they
//! are printed (DiffTexts).

ghost use Rattle.std.specs.Prelude.{IfOk};
ghost use Rattle.ud_passes.specs.diff.Patching.{IsDiff};

use hunks::append_hunks;
use print::append_names;
use script::script_of;
pub use script::{EDITED, SAME};
use std::alloc::{AllocError, Global};

mod hunks;
mod line;
mod print;
mod script;

/// Returns the unified diff of a text and the output for it. `path` names the file, and `marks` has
/// a mark for each line of the old text: `SAME` if it stays, `EDITED` if another line replaces it,
/// else any other byte.
///
/// Whatever the marks are, the diff turns one text into the other. Its hunks show three kept lines
/// before and after changes, fewer only at the beginning and end of the texts.
///
/// # Errors
/// Fails if memory runs out.
pub fn unified_diff(
    alloc: Global,
    path: &[u8],
    old: &[u8],
    new: &[u8],
    marks: &[u8],
) -> Result<Vec<u8>, AllocError>
    ensures { IfOk result (λ diff. IsDiff path.now old.now new.now diff.items) }
{
    let script = script_of(alloc, old, new, marks)?;
    let mut out = Vec::new(alloc);
    append_names(&mut out, path)?;
    append_hunks(&mut out, script.as_slice())?;
    Ok(out)
}
