//! The files of other names than those of a run: a symbol may stand in them, too.
//!
//! Once its own files are processed, a run that lists what remains walks over its paths again. It
//! takes the files of all names, and searches those that aren't its own. It changes none, and lists
//! those that name a symbol. A file that isn't text names none. A text that can't be searched or
//! read is counted, since it may name one.

ghost use Rattle.std.specs.Prelude.{◌≡◌, List, map, string_bytes, IfOk, OnOk};
ghost use Rattle.ud_model.specs.conditions.Table.{Argument};
ghost use Rattle.ud_cond.specs.symbols.SymbolTable.{TableRepresents};
ghost use Rattle.ud_replace.specs.Moments.{EachCall};
ghost use Rattle.ud_tree.specs.declared.walk.Found.{Found};
ghost use Rattle.ud_tree.specs.Others.{AddsOther, AreNone, AreOthers, FindsOthers, LooksAt};
ghost use Rattle.ud_tree.specs.Others.{any_name, is_among, names_symbol, ReadsOthers};
ghost use Rattle.ud_tree.specs.Others.{others_list, seeks_others, without_mark};
ghost use Rattle.ud_io.specs.Streams.{Sends, stream_of};
ghost use Rattle.ud_tree.specs.TreeMoments.{TouchesNothing};
ghost use Rattle.ud_tree.specs.Walks.{IsBefore};
ghost use Rattle.std.specs.List.{AllPairs};

use crate::arguments::Arguments;
use crate::find_files::walk_paths;
use crate::job::Job;
use crate::report::Report;
use crate::tree::Tree;
use crate::walk::{Found, Walk};
use std::alloc::{AllocError, Global};
use std::io::Write;
use ud_io::{Watched, send_parts};
use ud_model::Mode;
use ud_passes::{Listing, Remaining};
use ud_replace::Sample;

/// The text after the path of a file of another name that names a symbol.
const OTHER: &[u8] = b": is not processed, and names a symbol\n";

/// The byte order mark of UTF-8.
const MARK: &[u8] = b"\xef\xbb\xbf";

/// The result of reading a file of another name.
#[derive(Clone, Copy)]
enum OtherKind {
    /// A text of which a condition names a symbol.
    Named,
    /// A text of which none does, or a file that isn't text.
    Silent,
    /// A text that isn't searched, or a file that can't be read.
    Unsearched,
}

/// The files of other names that name a symbol, and the number of those that weren't searched.
#[derive(Drop)]
pub(crate) struct Others {
    /// The files of which a condition names a symbol, in the order of their paths.
    pub named: Vec<Found>,
    /// The number of files that weren't searched, at most `usize::MAX`.
    pub unsearched: usize,
}

impl Others {
    /// Returns that there are none.
    fn none(alloc: Global) -> Others
        ensures { AreNone result }
    {
        Others {
            named: Vec::new(alloc),
            unsearched: 0,
        }
    }
}

/// Returns a text without the byte order mark of UTF-8 that it may begin with.
fn without_mark(text: &[u8]) -> &[u8]
    ensures { result.now ≡ without_mark text.now }
{
    match text.strip_prefix(MARK) {
        Some(rest) => rest,
        None => text,
    }
}

/// Returns whether a condition of a text names a symbol.
///
/// # Errors
/// Fails if memory runs out.
fn names_symbol(job: &Job<'_>, text: &[u8]) -> Result<bool, AllocError>
    ensures { IfOk result (λ named. (table : List Argument) →
        TableRepresents job.now.arguments.now.plan.run.symbols table →
        named ≡ names_symbol table text.now) }
{
    let mut remaining = Remaining::new(job.alloc, Listing::Counted);
    let symbols = job.arguments.plan.run.symbols();
    let mut none = Vec::new(job.alloc);
    remaining.add(b"", without_mark(text), Mode::Plain, symbols, &mut none)?;
    Ok(remaining.count() > 0)
}

/// Reads a file to search it. Returns what it is.
///
/// # Errors
/// Fails if memory runs out.
fn look_at<T: Tree>(job: &Job<'_>, tree: &mut T, path: &[u8]) -> Result<OtherKind, AllocError>
    ensures { LooksAt job.now.arguments.now path.now (T.history tree.old) (T.history tree.new)
        result }
{
    let mut text = Vec::new(job.alloc);
    match tree.sample(path, &mut text) {
        Sample::Whole => {
            if names_symbol(job, text.as_slice())? {
                return Ok(OtherKind::Named);
            }
            Ok(OtherKind::Silent)
        }
        Sample::Binary => Ok(OtherKind::Silent),
        Sample::Utf16 | Sample::TooLarge | Sample::Unread => Ok(OtherKind::Unsearched),
    }
}

/// Returns whether one of some files, whose paths ascend, has a path.
fn is_among(files: &[Found], found: &Found) -> bool
    requires { AllPairs IsBefore files.now }
    ensures { result ≡ is_among files.now found.now }
{
    let path = found.path.as_bytes();
    files
        .binary_search_by(|file| file.path.as_bytes().cmp(path))
        .is_ok()
}

/// Reads a file, unless it is among `files`. Adds it to `others` if it names a symbol, and counts
/// it there if it can't be searched.
///
/// # Errors
/// Fails if memory runs out.
fn add_other<T: Tree>(
    job: &Job<'_>,
    tree: &mut T,
    files: &[Found],
    found: Found,
    others: &mut Others,
) -> Result<(), AllocError>
    requires { AllPairs IsBefore files.now }
    ensures touches { EachCall TouchesNothing (T.history tree.old) (T.history tree.new) }
    ensures adds { OnOk result (AddsOther job.now.arguments.now files.now found
        (T.history tree.old) (T.history tree.new) others.old others.new) }
{
    if is_among(files, &found) {
        return Ok(());
    }
    match look_at(job, tree, found.path.as_bytes())? {
        OtherKind::Named => {
            others.named.push(found)?;
            Ok(())
        }
        OtherKind::Silent => Ok(()),
        OtherKind::Unsearched => {
            others.unsearched = others.unsearched.saturating_add(1);
            Ok(())
        }
    }
}

/// Returns what is found among the files of `all` that aren't among `files`.
///
/// # Errors
/// Fails if memory runs out.
fn read_others<T: Tree>(
    job: &Job<'_>,
    tree: &mut T,
    files: &[Found],
    all: Vec<Found>,
) -> Result<Others, AllocError>
    requires { AllPairs IsBefore files.now }
    ensures touches { EachCall TouchesNothing (T.history tree.old) (T.history tree.new) }
    ensures read { IfOk result (λ others. ReadsOthers job.now.arguments.now files.now all.items
        (T.history tree.old) (T.history tree.new) others) }
{
    let mut others = Others::none(job.alloc);
    for found in all {
        add_other(job, tree, files, found, &mut others)?;
    }
    Ok(others)
}

/// Returns the rules that choose files of all names but those that some rules leave out.
///
/// # Errors
/// Fails if memory runs out.
fn any_name(alloc: Global, patterns: &[String]) -> Result<Vec<String>, AllocError>
    ensures { IfOk result (λ all. map string_bytes all.items ≡
        any_name (map string_bytes patterns.now)) }
{
    let mut all = Vec::new(alloc);
    all.push(String::from_str(alloc, "*")?)?;
    for pattern in patterns {
        all.push(String::from_str(alloc, pattern.as_str())?)?;
    }
    Ok(all)
}

/// Returns what is found among the files below the paths of the command line that aren't among
/// `files`. A directory that can't be read is left out: the run's own walk has a message for it.
///
/// # Errors
/// Fails if memory runs out.
fn others_of<T: Tree>(job: &Job<'_>, tree: &mut T, files: &[Found]) -> Result<Others, AllocError>
    requires { AllPairs IsBefore files.now }
    ensures touches { EachCall TouchesNothing (T.history tree.old) (T.history tree.new) }
    ensures others { IfOk result (AreOthers job.now.arguments.now files.now
        (T.history tree.old) (T.history tree.new)) }
{
    let patterns = any_name(job.alloc, job.arguments.patterns.as_slice())?;
    let paths = job.arguments.paths.as_slice();
    let mut walk = Walk::new(job.alloc, paths, patterns.as_slice())?;
    let mut silent = Report::new(job, Watched::new(Vec::<u8>::new(job.alloc)));
    let all = walk_paths(&mut walk, tree, &mut silent)?;
    if !all {
        return Ok(Others::none(job.alloc));
    }
    let found = walk.finish()?;
    let others = read_others(job, tree, files, found)?;
    Ok(others)
}

/// Writes a line for each of these files of other names, which name a symbol.
pub(crate) fn write_others<W: Write>(out: &mut Watched<W>, others: &[Found])
    ensures { Sends (stream_of W.contents out.old) (stream_of W.contents out.new)
        (others_list others.now) }
{
    for found in others {
        let line = [found.path.as_bytes(), OTHER];
        send_parts(out, &line);
    }
}

/// Returns whether the run looks for files of other names: not once its output has failed.
fn seeks_others<W: Write>(arguments: &Arguments, out: &Watched<W>) -> bool
    ensures { result ≡ seeks_others arguments.now out.now.failed }
{
    arguments.wants_others() && !out.failed()
}

/// Returns what is found among the files of other names, if the run looks for them. If memory runs
/// out, records that.
pub(crate) fn find_others<T: Tree, W: Write, E: Write>(
    job: &Job<'_>,
    tree: &mut T,
    files: &[Found],
    out: &Watched<W>,
    report: &mut Report<E>,
) -> Others
    requires { AllPairs IsBefore files.now }
    ensures { FindsOthers job.now.arguments.now out.now.failed files.now (T.history tree.old)
        (T.history tree.new) report.old report.new result }
{
    if !seeks_others(job.arguments, out) {
        return Others::none(job.alloc);
    }
    match others_of(job, tree, files) {
        Ok(others) => others,
        Err(_) => {
            report.note_lack();
            Others::none(job.alloc)
        }
    }
}
