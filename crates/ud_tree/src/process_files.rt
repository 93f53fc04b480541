//! Processing all files of a run.

ghost use Rattle.std.specs.Prelude.{◌≡◌, true, false};
ghost use Rattle.ud_tree.specs.Reports.{KeepsScreen};
ghost use Rattle.ud_tree.specs.TreeRuns.{DoesFile, DoesFiles, shows_changes};
ghost use Rattle.ud_tree.specs.Writing.{stage};

use crate::arguments::{Arguments, Task};
use crate::counts::Counts;
use crate::file_result::{Done, fate_of};
use crate::job::Job;
use crate::list_file::list_file;
use crate::replace_file::replace_file;
use crate::report::Report;
use crate::show_file::show_file;
use crate::tree::Tree;
use crate::walk::{FileAt, Found};
use std::io::Write;
use ud_engine::Watched;
use ud_passes::Names;

/// The report and the names of a run, which it keeps while it goes over its files.
#[derive(Drop)]
pub(crate) struct Session<E: Write> {
    /// The messages, and what the texts and the outputs say of the symbols.
    pub report: Report<E>,
    /// The names that are listed.
    pub names: Names,
}

/// Does what the arguments ask for with each file in turn, and reports its fault. Returns the
/// counts of the files.
///
/// If changes are to be shown, no file is processed once the output has failed: nothing would show
/// its change, or how to undo it.
pub(crate) fn process_files<T: Tree, W: Write, E: Write>(
    job: &Job<'_>,
    tree: &mut T,
    files: &[Found],
    out: &mut Watched<W>,
    session: &mut Session<E>,
) -> Counts
    requires { session.old.names.lists_hidden ≡ job.now.arguments.now.list_hidden }
    ensures { DoesFiles job.now files.now
        (stage T.history W.contents tree.old out.old session.old.report)
        (stage T.history W.contents tree.new out.new session.new.report) result
        session.old.names session.new.names }
{
    let mut counts = Counts::new();
    for (done, found) in files.iter().enumerate() {
        if is_unrecorded(job.arguments, out) {
            return counts;
        }
        session.report.progress(done, files.len());
        let name = found.path.as_bytes();
        let file = FileAt { name, id: found.id };
        let result = process_file(job, tree, file, out, session);
        session.report.tell_result(job, tree, name, result.update);
        counts.add(fate_of(result.update), result.edits);
    }
    counts
}

/// Returns whether changes should be shown but no longer can be.
fn is_unrecorded<W: Write>(arguments: &Arguments, out: &Watched<W>) -> bool
    ensures yes { result ≡ true →
        (shows_changes arguments.now ≡ true) × (out.now.failed ≡ true) }
    ensures no { result ≡ false → arguments.now.task ≡ Task.Replace →
        arguments.now.show_changes ≡ true → out.now.failed ≡ false }
{
    match arguments.task {
        Task::Replace => arguments.show_changes && out.failed(),
        Task::Diff => out.failed(),
        Task::Names => false,
    }
}

/// Does what the arguments ask for with a file.
fn process_file<T: Tree, W: Write, E: Write>(
    job: &Job<'_>,
    tree: &mut T,
    file: FileAt<'_>,
    out: &mut Watched<W>,
    session: &mut Session<E>,
) -> Done
    requires recorded { job.now.arguments.now.task ≡ Task.Replace →
        job.now.arguments.now.show_changes ≡ true → out.old.failed ≡ false }
    requires lists { session.old.names.lists_hidden ≡ job.now.arguments.now.list_hidden }
    ensures writes { DoesFile job.now file.entry.name.now
        (stage T.history W.contents tree.old out.old session.old.report)
        (stage T.history W.contents tree.new out.new session.new.report) result
        session.old.names session.new.names }
    ensures screen { KeepsScreen session.old.report session.new.report }
{
    match job.arguments.task {
        Task::Replace => replace_file(job, tree, file, out, &mut session.report),
        Task::Diff => show_file(job, tree, file, out, &mut session.report),
        Task::Names => Done::unedited(list_file(job, tree, file, &mut session.names)),
    }
}
