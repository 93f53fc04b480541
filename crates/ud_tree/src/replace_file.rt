//! Replacing one file.

ghost use Rattle.std.specs.Prelude.{◌≡◌, true, false, Ok, is_ok};
ghost use Rattle.ud_replace.specs.MadeOutcomes.{IsFresh, output_of};
ghost use Rattle.ud_tree.specs.Changes.{KeepsAs, ShowsChange};
ghost use Rattle.ud_tree.specs.Fates.{fate_of, is_changed, removed_by};
ghost use Rattle.ud_tree.specs.Runs.{ReplacesOne};
ghost use Rattle.ud_tree.specs.Reports.{KeepsScreen};
ghost use Rattle.ud_tree.specs.TreeRuns.{WritesBy};
ghost use Rattle.ud_tree.specs.Writing.{stage};

use crate::arguments::Task;
use crate::counts::Edits;
use crate::file_diff::diff_of;
use crate::file_result::Done;
use crate::job::Job;
use crate::paths::fresh_name;
use crate::report::Report;
use crate::tree::Tree;
use crate::walk::FileAt;
use std::io::Write;
use ud_io::{Watched, send};
use ud_replace::{Kept, ReplaceError, Target, Update, replace_keeping};
use ud_text::count_lines;

/// Replaces a file, and adds the conditions of its output that still name a symbol to the report.
/// Looks for names in the text, even after an error.
/// Writes the diff of a changed file, if the arguments ask for it; the output hasn't failed before.
///
/// # Errors
/// The result is an error as of `replace_keeping`. It is `OutOfMemory` also if memory for the new
/// file's name can't be allocated. If memory for the diff can't be, the file is changed, and the
/// report records that.
pub(crate) fn replace_file<T: Tree, W: Write, E: Write>(
    job: &Job<'_>,
    tree: &mut T,
    file: FileAt<'_>,
    out: &mut Watched<W>,
    report: &mut Report<E>,
) -> Done
    requires recorded { job.now.arguments.now.show_changes ≡ true → out.old.failed ≡ false }
    ensures writes { WritesBy Task.Replace job.now.arguments.now file.entry.name.now
        (stage T.history W.contents tree.old out.old report.old)
        (stage T.history W.contents tree.new out.new report.new) result }
    ensures screen { KeepsScreen report.old report.new }
{
    let mut kept = Kept::new(job.alloc);
    let update = match replace_named(job, tree, file, &mut kept) {
        Ok(update) => update,
        Err(error) => {
            report.find_names(job, kept.text.as_slice());
            return Done::unedited(Err(error));
        }
    };
    report.find(job, file.name, &kept);
    let diff = change_of(job, file.name, update, &kept, report);
    send(out, diff.as_slice());
    Done {
        update: Ok(update),
        edits: edits_of(update, &kept),
    }
}

/// Returns the diff of a changed file, if the arguments ask for it; else nothing. If memory runs
/// out, the report records that.
#[tactic(auto, using(crate::proofs::NamedLemmas::changes))]
fn change_of<E: Write>(
    job: &Job<'_>,
    name: &[u8],
    update: Update,
    kept: &Kept,
    report: &mut Report<E>,
) -> Vec<u8>
    ensures change { ShowsChange job.now.arguments.now.show_changes name.now update
        kept.now.text.items (output_of kept.now) report.new.lacks_memory result.items }
    ensures remaining { report.new.remaining ≡ report.old.remaining }
    ensures lost { report.old.lacks_memory ≡ true → report.new.lacks_memory ≡ true }
    ensures unnamed { report.new.unnamed ≡ report.old.unnamed }
    ensures screen { KeepsScreen report.old report.new }
{
    let nothing = Vec::new(job.alloc);
    if !job.arguments.show_changes {
        return nothing;
    }
    if !is_change(update) {
        return nothing;
    }
    match diff_of(job.alloc, name, kept) {
        Ok(diff) => diff,
        Err(_) => {
            report.note_lack();
            nothing
        }
    }
}

/// Returns the edits of a file's text. No line counts as removed unless the file was changed.
pub(crate) fn edits_of(update: Update, kept: &Kept) -> Edits
    ensures conditions { result.conditions ≡ kept.now.outcome.edited }
    ensures lines { result.lines ≡ removed_by update kept.now.text.items (output_of kept.now) }
{
    let conditions = kept.outcome.edited;
    if is_change(update) {
        let lines = count_lines(kept.text.as_slice()).saturating_sub(count_lines(kept.output()));
        return Edits { conditions, lines };
    }
    Edits {
        conditions,
        lines: 0,
    }
}

/// Returns whether a file was changed.
fn is_change(update: Update) -> bool
    ensures { result ≡ is_changed (fate_of (Ok update)) }
{
    match update {
        Update::Unchanged => false,
        Update::Replaced | Update::WrittenInto => true,
    }
}

/// Replaces a file by a new one, and keeps its text and the output for it.
///
/// # Errors
/// As `replace_keeping`. `OutOfMemory` also if memory for the new file's name can't be allocated;
/// then nothing was read.
#[tactic(auto, using(crate::specs::Runs::no_name))]
fn replace_named<T: Tree>(
    job: &Job<'_>,
    tree: &mut T,
    file: FileAt<'_>,
    kept: &mut Kept,
) -> Result<Update, ReplaceError>
    requires { IsFresh kept.old }
    ensures replaces { ReplacesOne job.now.arguments.now.plan job.now.arguments.now.write_into
        file.entry.name.now kept.new.text.items (T.history tree.old) (T.history tree.new) result }
    ensures keeps { is_ok result ≡ true → KeepsAs job.now.arguments.now.plan
        job.now.arguments.now.write_into file.entry.name.now (T.history tree.old)
        (T.history tree.new) result kept.new.text.items (output_of kept.new) kept.new.outcome.edited }
{
    let name = file.name;
    match fresh_name(job.alloc, name) {
        Err(_) => Err(ReplaceError::OutOfMemory),
        Ok(fresh) => {
            let target = Target {
                name,
                id: file.id,
                fresh: fresh.as_slice(),
                write_into: job.arguments.write_into,
            };
            replace_keeping(job.alloc, &job.arguments.plan, tree, &target, kept)
        }
    }
}
