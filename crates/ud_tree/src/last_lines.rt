//! The last lines of a run: how many files there were of each kind, how many lines were removed,
//! how many conditions were edited, how many still name a symbol, how many lines define one, which
//! symbols no condition names, how many files of other names name one, and how many of those
//! couldn't be searched.

ghost use Rattle.std.specs.Prelude.{◌≡◌, ◌++◌, false, decimal};
ghost use Rattle.ud_tree.specs.Reports.{Says};
ghost use Rattle.ud_tree.specs.Summaries.{changes_line, summary};
ghost use Rattle.ud_tree.specs.Summaries.{edited_line, hint, plural, remaining_line};
ghost use Rattle.ud_tree.specs.Runs.{names_of};
ghost use Rattle.ud_tree.specs.Summaries.{removed_line, defined_line, line_of, others_line};
ghost use Rattle.ud_tree.specs.Summaries.{still_unnamed, unnamed_lines, unsearched_line};
ghost use Rattle.ud_tree.specs.Writing.{TellsEnd};

use crate::arguments::{Arguments, Task};
use crate::counts::Counts;
use crate::job::Job;
use crate::other_files::Others;
use crate::report::Report;
use crate::walk::Found;
use itoa::Buffer;
use std::io::Write;

/// The totals over the files of a run.
#[derive(Drop)]
pub(crate) struct Processed {
    /// The numbers of files by their fates, and of their edits.
    pub counts: Counts,
    /// The number of faults, also of the walk and of the output.
    pub faults: usize,
    /// The number of conditions whose names can't all be listed.
    pub hidden: usize,
    /// The files of other names.
    pub others: Others,
}

/// Writes the last lines, unless the run is quiet: the counts, how many lines were removed, how
/// many conditions were edited, how many still name a symbol, how many lines define one, which
/// symbols no condition names, and how many files of other names name one or couldn't be searched.
pub(crate) fn report_end<E: Write>(job: &Job<'_>, report: &mut Report<E>, processed: &Processed)
    ensures tells { TellsEnd job.now.arguments.now processed.now report.old report.new }
    ensures unshown { job.now.arguments.now.quiet ≡ false → report.new.is_shown ≡ false }
{
    if job.arguments.quiet {
        return;
    }
    report_counts(job.arguments, report, processed);
    report_removed(report, processed.counts.edits.lines);
    report_edited(
        job.arguments.plan.prunes,
        report,
        processed.counts.edits.conditions,
    );
    report_remaining(job.arguments, report);
    report_defined(job.arguments, report);
    report_unnamed(job, report, processed.faults);
    report_others(report, processed.others.named.as_slice());
    report_unsearched(report, processed.others.unsearched);
}

/// Writes the counts.
fn report_counts<E: Write>(arguments: &Arguments, report: &mut Report<E>, processed: &Processed)
    ensures { Says report.old report.new (summary arguments.now.task arguments.now.list_hidden
        processed.now.counts.changed processed.now.counts.unchanged processed.now.faults
        processed.now.hidden) }
{
    match arguments.task {
        Task::Replace => report_changes(report, b" changed, ", processed),
        Task::Diff => report_changes(report, b" would change, ", processed),
        Task::Names => report_listed(arguments.list_hidden, report, processed),
    }
}

/// Writes how many files changed, or would change; `word` says which.
fn report_changes<E: Write>(report: &mut Report<E>, word: &[u8], processed: &Processed)
    ensures { Says report.old report.new (changes_line word.now processed.now.counts.changed
        processed.now.counts.unchanged processed.now.faults) }
{
    let (mut first, mut second, mut third) = (Buffer::new(), Buffer::new(), Buffer::new());
    let changed = first.format(processed.counts.changed).as_bytes();
    let unchanged = second.format(processed.counts.unchanged).as_bytes();
    let faulty = third.format(processed.faults).as_bytes();
    report.line(&[
        changed,
        word,
        unchanged,
        b" unchanged, ",
        faulty,
        b" faulty",
    ]);
}

/// Writes how many files were listed, and how many conditions couldn't be.
fn report_listed<E: Write>(lists_hidden: bool, report: &mut Report<E>, processed: &Processed)
    ensures { Says report.old report.new (summary Task.Names lists_hidden
        processed.now.counts.changed processed.now.counts.unchanged processed.now.faults
        processed.now.hidden) }
{
    let (mut first, mut second, mut third) = (Buffer::new(), Buffer::new(), Buffer::new());
    let count = processed.counts.unchanged;
    let listed = first.format(count).as_bytes();
    let faulty = second.format(processed.faults).as_bytes();
    let unlisted = third.format(processed.hidden).as_bytes();
    let text = plural(
        processed.hidden,
        b" condition could not be listed in full",
        b" conditions could not be listed in full",
    );
    report.line(&[
        listed,
        plural(count, b" file listed, ", b" files listed, "),
        faulty,
        b" faulty; ",
        unlisted,
        text,
        hint(lists_hidden, processed.hidden),
    ]);
}

/// Returns what follows a number: `one` if it is 1, else `many`.
fn plural<'a>(count: usize, one: &'a [u8], many: &'a [u8]) -> &'a [u8]
    ensures { result.now ≡ plural count one.now many.now }
{
    if count == 1 { one } else { many }
}

/// Returns the option that lists what was counted, unless there is none or it is `listed`.
fn hint(listed: bool, count: usize) -> &'static [u8]
    ensures { result.now ≡ hint listed count }
{
    if count == 0 || listed {
        b""
    } else {
        plural(count, b"; -r lists it", b"; -r lists them")
    }
}

/// Writes a number, what follows it, and a hint.
fn report_number<E: Write>(report: &mut Report<E>, count: usize, text: &[u8], hint: &[u8])
    ensures { Says report.old report.new (line_of (decimal count ++ text.now ++ hint.now)) }
{
    let mut digits = Buffer::new();
    report.line(&[digits.format(count).as_bytes(), text, hint]);
}

/// Writes how many lines were removed, if any.
fn report_removed<E: Write>(report: &mut Report<E>, count: usize)
    ensures { report.old.is_shown ≡ false → Says report.old report.new (removed_line count) }
{
    if count == 0 {
        return;
    }
    let text = plural(count, b" line removed", b" lines removed");
    report_number(report, count, text, b"");
}

/// Writes how many conditions were edited, if conditions are pruned.
fn report_edited<E: Write>(prunes: bool, report: &mut Report<E>, count: usize)
    ensures { report.old.is_shown ≡ false → Says report.old report.new (edited_line prunes count) }
{
    if !prunes {
        return;
    }
    let text = plural(count, b" condition edited", b" conditions edited");
    report_number(report, count, text, b"");
}

/// Writes how many conditions still name a symbol, if they were listed or if there are any.
fn report_remaining<E: Write>(arguments: &Arguments, report: &mut Report<E>)
    ensures { report.old.is_shown ≡ false → Says report.old report.new
        (remaining_line arguments.now.list_remaining report.old.remaining.count) }
{
    let count = report.remaining();
    let text = plural(
        count,
        b" condition still names a symbol",
        b" conditions still name a symbol",
    );
    if arguments.list_remaining {
        report_number(report, count, text, b"");
        return;
    }
    if count == 0 {
        return;
    }
    report_number(report, count, text, hint(false, count));
}

/// Writes how many lines define a symbol, if any.
#[tactic(auto, using(crate::proofs::LineLemmas::defined_steps))]
fn report_defined<E: Write>(arguments: &Arguments, report: &mut Report<E>)
    ensures { report.old.is_shown ≡ false → Says report.old report.new
        (defined_line arguments.now.list_remaining report.old.remaining.defined) }
{
    let count = report.defined();
    if count == 0 {
        return;
    }
    let text = plural(
        count,
        b" line of the source defines a symbol",
        b" lines of the source define a symbol",
    );
    report_number(report, count, text, hint(arguments.list_remaining, count));
}

/// Writes the lines of the symbols that no condition names, unless there are faults: a file that
/// wasn't read may name them.
fn report_unnamed<E: Write>(job: &Job<'_>, report: &mut Report<E>, faults: usize)
    ensures { report.old.is_shown ≡ false →
        Says report.old report.new (unnamed_lines job.now.arguments.now faults
        (still_unnamed job.now.arguments.now report.old.unnamed)) }
{
    if faults > 0 {
        return;
    }
    report.report_unnamed(job);
}

/// Writes how many files of other names name a symbol, if any, and the path of the first.
#[tactic(auto, using(crate::proofs::LineLemmas::no_others))]
fn report_others<E: Write>(report: &mut Report<E>, others: &[Found])
    ensures { report.old.is_shown ≡ false → Says report.old report.new
        (others_line (names_of others.now)) }
{
    let Some(first) = others.first() else {
        return;
    };
    let count = others.len();
    let text = plural(
        count,
        b" file of other names names a symbol, as ",
        b" files of other names name a symbol, as ",
    );
    report_number(report, count, text, first.path.as_bytes());
}

/// Writes how many files of other names couldn't be searched, if any.
#[tactic(auto, using(crate::proofs::LineLemmas::unsearched_steps))]
fn report_unsearched<E: Write>(report: &mut Report<E>, count: usize)
    ensures { report.old.is_shown ≡ false →
        Says report.old report.new (unsearched_line count) }
{
    if count == 0 {
        return;
    }
    let text = plural(
        count,
        b" file of other names could not be searched",
        b" files of other names could not be searched",
    );
    report_number(report, count, text, b"");
}
