//! The run over all files of a tree.

ghost use Rattle.std.specs.Prelude.{◌≡◌, ◌++◌, [], true, false, OnOk};
ghost use Rattle.std.specs.List.{All, AllPairs};
ghost use Rattle.ud_passes.specs.names.NameTables.{names_in, Tabulates};
ghost use Rattle.ud_tree.specs.Messages.{TellsIf, list_message, write_message};
ghost use Rattle.ud_tree.specs.Statuses.{tree_status};
ghost use Rattle.ud_tree.specs.Streams.{source_of};
ghost use Rattle.ud_io.specs.Streams.{Sends, stream_of};
ghost use Rattle.ud_tree.specs.TreeRuns.{EndsWriting, RunsTree};
ghost use Rattle.ud_tree.specs.Walks.{IsBefore};
ghost use Rattle.ud_tree.specs.Writing.{WritesList, moment};

use crate::arguments::{Arguments, Task};
use crate::find_files::{Walked, find_files};
use crate::job::Job;
use crate::last_lines::{Processed, report_end};
use crate::other_files::{find_others, write_others};
use crate::process_files::{Session, process_files};
use crate::report::Report;
use crate::send::flush;
use crate::tree::Tree;
use std::alloc::AllocError;
use std::io::{Read, Write};
use ud_engine::Watched;
use ud_io::send;
use ud_passes::Names;
use unifdef::{EXIT_TROUBLE, status_by};

/// Runs over the files that the arguments name. Returns the error stream and the exit status.
///
/// Paths are read from `input` if the arguments ask for that. Diffs and names are written to `out`,
/// and messages to `err`. The walk's messages come first: one for each failed call, and one for
/// each path that can't be taken. The files' messages follow.
///
/// # Errors
/// The status is 2, and there is a message for each fault, in each of these cases:
///
/// - Memory runs out before the first file, or the input can't be read. No file was changed.
/// - A path doesn't exist, or is a link to a file, a pipe or a device. No file was changed.
/// - The paths name no file. If paths come from the input, that isn't a fault.
/// - A directory can't be read, or a file can't be replaced. The other files are.
/// - The output can't be written.
/// - A message can't be written. That has no message of its own.
#[tactic(auto, using(crate::proofs::EarlyLemmas::stops_early))]
pub fn run_tree<T: Tree, R: Read, W: Write, E: Write>(
    job: &Job<'_>,
    tree: &mut T,
    input: &mut Watched<R>,
    out: &mut Watched<W>,
    err: Watched<E>,
) -> (Watched<E>, u8)
    ensures runs { RunsTree job.now
        (source_of R.remaining input.old) (source_of R.remaining input.new)
        (moment T.history W.contents E.contents tree.old out.old err)
        (moment T.history W.contents E.contents tree.new out.new result.0) result.1 }
    ensures evident { ∥ All T.is_evident (T.history tree.new) ∥₁ }
{
    let mut report = Report::new(job, err);
    match find_files(job, tree, input, &mut report) {
        Err(_) => {
            report.line(&[b"Out of memory"]);
            (report.into_stream(), EXIT_TROUBLE)
        }
        Ok(None) => (report.into_stream(), EXIT_TROUBLE),
        Ok(Some(walked)) => process_all(job, tree, &walked, out, report.into_stream()),
    }
}

/// Processes the files in order, and writes the counts. Returns the error stream after that, and
/// the exit status.
fn process_all<T: Tree, W: Write, E: Write>(
    job: &Job<'_>,
    tree: &mut T,
    walked: &Walked,
    out: &mut Watched<W>,
    err: Watched<E>,
) -> (Watched<E>, u8)
    requires { AllPairs IsBefore walked.now.files.items }
    ensures { EndsWriting job.now walked.now
        (moment T.history W.contents E.contents tree.old out.old err)
        (moment T.history W.contents E.contents tree.new out.new result.0) result.1 }
{
    let mut report = Report::new(job, err);
    report.seek_names(job);
    let files = walked.files.as_slice();
    let names = Names::new(job.alloc, job.arguments.list_hidden);
    let mut session = Session { report, names };
    let counts = process_files(job, tree, files, out, &mut session);
    let Session { mut report, names } = session;
    let others = find_others(job, tree, files, out, &mut report);
    let list_fault = write_lists(job, out, &mut report, &names);
    write_others(out, others.named.as_slice());
    let out_fault = finish_output(out, &mut report);
    let faults = walked
        .faults
        .saturating_add(usize::from(list_fault))
        .saturating_add(usize::from(out_fault))
        .saturating_add(counts.faulty);
    let hidden = names.hidden();
    let processed = Processed {
        counts,
        faults,
        hidden,
        others,
    };
    report_end(job, &mut report, &processed);
    report.report_rules(job, walked.rules.as_slice());
    let err = report.into_stream();
    let status = status(job.arguments, err.failed(), faults, counts.changed);
    (err, status)
}

/// Writes the counted names, after the conditions that couldn't be listed in full, and the
/// conditions that still name a symbol. Returns true after a fault, which was reported.
fn write_lists<W: Write, E: Write>(
    job: &Job<'_>,
    out: &mut Watched<W>,
    report: &mut Report<E>,
    names: &Names,
) -> bool
    ensures writes { WritesList job.now.arguments.now names.now
        report.old.remaining.list result
        (stream_of W.contents out.old) (stream_of W.contents out.new) }
    ensures told { TellsIf list_message result report.old report.new }
    ensures whole { result ≡ false → report.old.lacks_memory ≡ false }
{
    let mut list = Vec::new(job.alloc);
    let listed = append_names(job, names, &mut list);
    send(out, list.as_slice());
    report.write_remaining(job, out);
    if listed && !report.lacks_memory() {
        return false;
    }
    report.fault(b"stdout", b"Out of memory");
    true
}

/// Appends the counted names, if they are to be listed, after the conditions that couldn't be.
/// Returns false if memory ran out.
fn append_names(job: &Job<'_>, names: &Names, list: &mut Vec<u8>) -> bool
    ensures other { ¬ (job.now.arguments.now.task ≡ Task.Names) →
        list.new.items ≡ list.old.items }
    ensures names { result ≡ true → job.now.arguments.now.task ≡ Task.Names →
        Tabulates (names_in names.now.list.items)
        (list.old.items ++ names.now.hidden_list.items) list.new.items }
{
    match job.arguments.task {
        Task::Names => append_lists(names, list).is_ok(),
        Task::Replace | Task::Diff => true,
    }
}

/// Appends the conditions that couldn't be listed in full, if they are wanted, and the names.
///
/// # Errors
/// Fails if memory runs out.
fn append_lists(names: &Names, list: &mut Vec<u8>) -> Result<(), AllocError>
    ensures { OnOk result (Tabulates (names_in names.now.list.items)
        (list.old.items ++ names.now.hidden_list.items) list.new.items) }
{
    list.extend_from_slice(names.hidden_list())?;
    names.append_to(list)
}

/// Flushes the output. Returns true after a fault, which was reported.
fn finish_output<W: Write, E: Write>(out: &mut Watched<W>, report: &mut Report<E>) -> bool
    ensures sent { Sends (stream_of W.contents out.old) (stream_of W.contents out.new) [] }
    ensures failed { result ≡ out.new.failed }
    ensures flushed { out.new.failed ≡ false → out.new.unflushed ≡ false }
    ensures told { TellsIf write_message result report.old report.new }
{
    if flush(out) {
        return false;
    }
    report.fault(b"stdout", b"Cannot be written");
    true
}

/// Returns the exit status. `unheard`: a message couldn't be written.
fn status(arguments: &Arguments, unheard: bool, faults: usize, changed: usize) -> u8
    ensures { result ≡ tree_status arguments.now.task arguments.now.plan.run.settings.exit_mode
        unheard faults changed }
{
    if unheard || faults > 0 {
        return EXIT_TROUBLE;
    }
    match arguments.task {
        Task::Replace | Task::Diff => {
            status_by(arguments.plan.run.settings().exit_mode, changed > 0)
        }
        Task::Names => 0,
    }
}
