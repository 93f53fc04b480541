//! Shows what would change in one file.

ghost use Rattle.std.specs.Prelude.{◌≡◌, ◌⊎◌, ◌<◌, ◌≤◌, true, false};
ghost use Rattle.ud_tree.specs.Reports.{KeepsScreen};
ghost use Rattle.ud_tree.specs.TreeRuns.{WritesBy};
ghost use Rattle.ud_tree.specs.Writing.{stage};

use crate::arguments::Task;
use crate::file_diff::diff_of;
use crate::file_result::Done;
use crate::job::Job;
use crate::replace_file::edits_of;
use crate::report::Report;
use crate::run_file::run_file;
use crate::tree::Tree;
use crate::walk::FileAt;
use std::io::Write;
use ud_io::{Watched, send};
use ud_replace::{FileStat, Kept, ReplaceError, Update};

/// Writes the diff of a file, and adds the conditions of its output that still name a symbol to the
/// report. Looks for names in the text, even if that has a fault. The result is `Replaced` if the
/// file would change.
///
/// The only call reads the file, once.
///
/// # Errors
/// The result is an error as of `run_file`. It is `OutOfMemory` also if memory for the diff can't
/// be allocated, and `SeveralLinks` if the file would change, and a run would only write into it,
/// which isn't allowed. Then no condition is added to the report.
pub(crate) fn show_file<T: Tree, W: Write, E: Write>(
    job: &Job<'_>,
    tree: &mut T,
    file: FileAt<'_>,
    out: &mut Watched<W>,
    report: &mut Report<E>,
) -> Done
    ensures writes { WritesBy Task.Diff job.now.arguments.now file.entry.name.now
        (stage T.history W.contents tree.old out.old report.old)
        (stage T.history W.contents tree.new out.new report.new) result }
    ensures screen { KeepsScreen report.old report.new }
{
    let mut kept = Kept::new(job.alloc);
    let ran = match run_file(job, tree, file, &mut kept) {
        Ok(ran) => ran,
        Err(error) => {
            report.find_names(job, kept.text.as_slice());
            return Done::unedited(Err(error));
        }
    };
    if !ran.differs {
        report.find(job, file.name, &kept);
        return Done::unedited(Ok(Update::Unchanged));
    }
    report.find_names(job, kept.text.as_slice());
    if is_left_alone(&ran.stat, job.arguments.write_into) {
        return Done::unedited(Err(ReplaceError::SeveralLinks));
    }
    let Ok(diff) = diff_of(job.alloc, file.name, &kept) else {
        return Done::unedited(Err(ReplaceError::OutOfMemory));
    };
    report.search(job, file.name, kept.output());
    send(out, diff.as_slice());
    Done {
        update: Ok(Update::Replaced),
        edits: edits_of(Update::Replaced, &kept),
    }
}

/// Returns whether a run leaves a file alone because it has several links.
fn is_left_alone(stat: &FileStat, write_into: bool) -> bool
    ensures left { result ≡ true → (1 < stat.now.links) × (write_into ≡ false) }
    ensures replaced { result ≡ false → (stat.now.links ≤ 1) ⊎ (write_into ≡ true) }
{
    if stat.links <= 1 {
        return false;
    }
    !write_into
}
