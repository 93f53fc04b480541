//! Finds the files of a run: below the paths of the command line, or listed on the input.

ghost use Rattle.std.specs.Prelude.{◌≡◌, ◌<◌, ◌++◌, [], map, true, false, IfOk, OnErr, OnOk};
ghost use Rattle.ud_tree.specs.Covering.{CoversPaths, IsIn, own_path, paths_of};
ghost use Rattle.ud_tree.specs.Scopes.{scope_in};
ghost use Rattle.ud_tree.specs.Unmatched.{MarksWalk, quoted, unmarked_in};
ghost use Rattle.ud_tree.specs.Streams.{source_of, ReadsWhole};
ghost use Rattle.ud_tree.specs.WalkMessages.{EndsWalk, ReportsWalk, StopsWalk, TakesEach, WalksAll};
ghost use Rattle.ud_tree.specs.WalkSteps.{scope_of};
ghost use Rattle.ud_tree.specs.Walks.{Finds};

use crate::job::Job;
use crate::patterns::marks::unmarked;
use crate::report::Report;
use crate::tree::Tree;
use crate::walk::{Found, Walk};
use std::alloc::{AllocError, Global};
use std::io::{Read, Write};
use ud_engine::Watched;

/// The most bytes of one read of the input.
const INPUT_BYTES: usize = 8_192;

/// The result of a walk.
#[derive(Drop)]
pub(crate) struct Walked {
    /// The files, each once.
    pub files: Vec<Found>,
    /// The arguments of `-g` that matched nothing, each between quotes. There are none after a
    /// fault, or if the paths come from the input.
    pub rules: Vec<Vec<u8>>,
    /// The number of faults that the walk has reported.
    pub faults: usize,
}

/// Returns the files of the run; `None` if the input can't be read, if a path of the command line
/// has a fault, or if no file matches. That has a message, unless the walk has one.
pub(crate) fn find_files<T: Tree, R: Read, E: Write>(
    job: &Job<'_>,
    tree: &mut T,
    input: &mut Watched<R>,
    report: &mut Report<E>,
) -> Result<Option<Walked>, AllocError>
    ensures ends { report.old.faulty ≡ 0 → IfOk result (EndsWalk job.now.arguments.now
        (source_of R.remaining input.old) (source_of R.remaining input.new)
        (T.history tree.old) (T.history tree.new) report.old report.new) }
    ensures no_memory { OnErr result
        (ReportsWalk (T.history tree.old) (T.history tree.new) report.old report.new) }
{
    let paths = job.arguments.paths.as_slice();
    let mut walk = Walk::new(job.alloc, paths, job.arguments.patterns.as_slice())?;
    let all = walk_all(job, &mut walk, tree, input, report)?;
    if !all {
        return Ok(None);
    }
    let faults = report.faulty();
    let rules = unmatched_rules(job, &walk, faults)?;
    let files = walk.finish()?;
    if files.is_empty() && !job.arguments.from_input {
        if 0 < faults {
            return Ok(None);
        }
        report.line(&[b"No file matches"]);
        return Ok(None);
    }
    Ok(Some(Walked {
        files,
        rules,
        faults,
    }))
}

/// Returns the arguments of `-g` that matched nothing, each between quotes; none after a fault, or
/// if the paths come from the input.
///
/// # Errors
/// Fails if memory runs out.
fn unmatched_rules(
    job: &Job<'_>,
    walk: &Walk<'_>,
    faults: usize,
) -> Result<Vec<Vec<u8>>, AllocError>
    ensures faulty { IfOk result (λ rules. 0 < faults → rules.items ≡ []) }
    ensures input { IfOk result (λ rules.
        job.now.arguments.now.from_input ≡ true → rules.items ≡ []) }
    ensures each { IfOk result (λ rules. faults ≡ 0 → job.now.arguments.now.from_input ≡ false →
        map (λ r. r.items) rules.items ≡ map quoted
        (unmarked_in (scope_in job.now.arguments.now).patterns walk.now.marks.items)) }
{
    if job.arguments.from_input || faults > 0 {
        return Ok(Vec::new(job.alloc));
    }
    unmarked(job.alloc, job.arguments.patterns.as_slice(), walk.marks())
}

/// Walks over all paths that the arguments name. Returns false if the input can't be read, or if a
/// path of the command line has a fault. Then nothing below the paths was looked at.
fn walk_all<T: Tree, R: Read, E: Write>(
    job: &Job<'_>,
    walk: &mut Walk<'_>,
    tree: &mut T,
    input: &mut Watched<R>,
    report: &mut Report<E>,
) -> Result<bool, AllocError>
    requires scope { scope_of walk.old ≡ scope_in job.now.arguments.now }
    requires found { walk.old.found.items ≡ [] }
    requires directories { walk.old.directories.items ≡ [] }
    ensures told { ReportsWalk (T.history tree.old) (T.history tree.new) report.old report.new }
    ensures finds { OnOk result (Finds (T.history tree.old) (T.history tree.new)
        walk.old.found.items walk.new.found.items) }
    ensures walks { IfOk result (WalksAll job.now.arguments.now
        (source_of R.remaining input.old) (source_of R.remaining input.new)
        (T.history tree.old) (T.history tree.new) walk.new.found.items report.old report.new) }
    ensures marks { IfOk result (λ all. all ≡ true → job.now.arguments.now.from_input ≡ false →
        MarksWalk (scope_of walk.old) (T.history tree.old) (T.history tree.new)
        walk.old.marks.items walk.new.marks.items) }
{
    if job.arguments.from_input {
        return add_input(job.alloc, walk, tree, input, report);
    }
    walk_paths(walk, tree, report)
}

/// Walks over the paths of the command line. Returns false if one of them has a fault. Then nothing
/// below the paths was looked at.
///
/// # Errors
/// Fails if memory runs out.
pub(crate) fn walk_paths<T: Tree, E: Write>(
    walk: &mut Walk<'_>,
    tree: &mut T,
    report: &mut Report<E>,
) -> Result<bool, AllocError>
    requires found { walk.old.found.items ≡ [] }
    requires directories { walk.old.directories.items ≡ [] }
    ensures told { ReportsWalk (T.history tree.old) (T.history tree.new) report.old report.new }
    ensures finds { OnOk result (Finds (T.history tree.old) (T.history tree.new)
        walk.old.found.items walk.new.found.items) }
    ensures covers { IfOk result (λ all. all ≡ true → CoversPaths (scope_of walk.old)
        (T.history tree.old) (T.history tree.new) IsIn walk.new.found.items
        (0 < report.new.faulty)) }
    ensures refused { IfOk result (λ all. all ≡ false → 0 < report.new.faulty) }
    ensures marks { IfOk result (λ all. all ≡ true → MarksWalk (scope_of walk.old)
        (T.history tree.old) (T.history tree.new) walk.old.marks.items walk.new.marks.items) }
{
    for path in walk.paths() {
        walk.start(tree, report, path.as_str())?;
    }
    if report.faulty() > 0 {
        return Ok(false);
    }
    walk.go(tree, report)?;
    Ok(true)
}

/// Adds the files whose paths are on the input, each ended by a NUL. Returns false after a failed
/// read, which was reported. Then no path was looked at, since the last one may be cut.
fn add_input<T: Tree, R: Read, E: Write>(
    alloc: Global,
    walk: &mut Walk<'_>,
    tree: &mut T,
    input: &mut Watched<R>,
    report: &mut Report<E>,
) -> Result<bool, AllocError>
    requires { walk.old.found.items ≡ [] }
    ensures told { ReportsWalk (T.history tree.old) (T.history tree.new) report.old report.new }
    ensures finds { OnOk result (Finds (T.history tree.old) (T.history tree.new)
        walk.old.found.items walk.new.found.items) }
    ensures takes { IfOk result (λ all. all ≡ true → TakesEach
        (source_of R.remaining input.old) (source_of R.remaining input.new)
        (T.history tree.old) (T.history tree.new) walk.new.found.items
        (0 < report.new.faulty)) }
    ensures stops { IfOk result (λ all. all ≡ false →
        StopsWalk true (source_of R.remaining input.new) (T.history tree.old)
        (T.history tree.new) report.old report.new) }
{
    let mut text = Vec::new(alloc);
    let all = read_input(input, &mut text)?;
    if !all {
        report.fault(b"stdin", b"Cannot be read");
        return Ok(false);
    }
    let paths = split_paths(alloc, text.as_slice())?;
    for name in paths.as_slice() {
        walk.add(tree, report, name.as_slice())?;
    }
    Ok(true)
}

/// Appends the bytes of the input up to its end. Returns false if a read fails.
///
/// # Errors
/// Fails if memory runs out.
fn read_input<R: Read>(input: &mut Watched<R>, text: &mut Vec<u8>) -> Result<bool, AllocError>
    requires empty { text.old.items ≡ [] }
    ensures all { IfOk result (λ all. all ≡ true →
        ReadsWhole (source_of R.remaining input.old) (source_of R.remaining input.new)
        text.new.items) }
    ensures cut { IfOk result (λ all. all ≡ false → input.new.failed ≡ true) }
{
    if input.failed() {
        return Ok(false);
    }
    let mut buffer = [0u8; INPUT_BYTES];
    for _read in 0..u64::MAX {
        let Some(count) = input.read(&mut buffer) else {
            return Ok(false);
        };
        if count == 0 {
            return Ok(true);
        }
        text.extend_from_slice(&buffer[..count])?;
    }
    unreachable!()
}

/// Returns the paths in a text, each ended by a NUL, or the last one by the end of the text.
pub(crate) fn split_paths(alloc: Global, text: &[u8]) -> Result<Vec<Vec<u8>>, AllocError>
    ensures { IfOk result (λ paths. map (λ p. p.items) paths.items ≡ paths_of text.now) }
{
    let mut paths = Vec::new(alloc);
    let mut path = Vec::new(alloc);
    for byte in text {
        if *byte == 0 {
            add_path(&mut paths, path)?;
            path = Vec::new(alloc);
        } else {
            path.push(*byte)?;
        }
    }
    add_path(&mut paths, path)?;
    Ok(paths)
}

/// Adds a path, unless it is empty.
fn add_path(paths: &mut Vec<Vec<u8>>, path: Vec<u8>) -> Result<(), AllocError>
    ensures { OnOk result (map (λ p. p.items) paths.new.items ≡
        map (λ p. p.items) paths.old.items ++ own_path path.items) }
{
    if path.is_empty() {
        return Ok(());
    }
    paths.push(path)?;
    Ok(())
}
