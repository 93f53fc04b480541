//! The case files of a directory.

use crate::checking::check;
use crate::options::differing_check;
use crate::parsing::{BadCase, parse};
use std::alloc::Global;
use std::fs::{self, read_dir};
use std::io;

/// The numbers of cases that were run, and of those that were answered wrongly.
#[derive(Clone, Copy)]
pub(crate) struct Tally {
    pub cases: usize,
    pub wrong: usize,
}

/// Runs the cases of a directory and of the directories in it, or of a file, and prints those that
/// are answered wrongly.
///
/// # Errors
/// Fails if a directory or a file can't be read, or if memory runs out.
pub(crate) fn run_cases(rt: &HostRuntime, path: &str, tally: &mut Tally) -> io::Result<()> {
    if path.ends_with(".case") {
        return run_file(rt, path, tally);
    }
    for entry in read_dir(rt, path)? {
        let entry = entry?;
        if entry.file_type()?.is_dir() {
            run_directory(rt, entry.path().as_str(), tally)?;
        } else if entry.file_name().ends_with(".case") {
            run_file(rt, entry.path().as_str(), tally)?;
        }
    }
    Ok(())
}

/// Runs the cases right in a directory.
fn run_directory(rt: &HostRuntime, path: &str, tally: &mut Tally) -> io::Result<()> {
    for entry in read_dir(rt, path)? {
        let entry = entry?;
        if entry.file_name().ends_with(".case") {
            run_file(rt, entry.path().as_str(), tally)?;
        }
    }
    Ok(())
}

/// Runs the case of a file.
fn run_file(rt: &HostRuntime, path: &str, tally: &mut Tally) -> io::Result<()> {
    let text = fs::read_to_string(rt, path)?;
    tally.cases = tally.cases.saturating_add(1);
    if !is_right(rt, rt.alloc(), path, text.as_str())? {
        tally.wrong = tally.wrong.saturating_add(1);
    }
    Ok(())
}

/// Returns whether the case is answered as its file says. If it isn't, prints how.
fn is_right(rt: &impl Print, alloc: Global, path: &str, text: &str) -> io::Result<bool> {
    let case = match parse(alloc, text) {
        Ok(case) => case,
        Err(bad) => {
            report_bad(rt, path, &bad)?;
            return Ok(false);
        }
    };
    if let Some(wrong) = check(alloc, &case)? {
        println!(rt; "{path}: {wrong}")?;
        return Ok(false);
    }
    if case.behavior.is_none() {
        if let Some(name) = differing_check(alloc, &case)? {
            println!(rt; "{path}: {name} differs")?;
            return Ok(false);
        }
    }
    Ok(true)
}

/// Prints why a file has no case.
fn report_bad(rt: &impl Print, path: &str, bad: &BadCase) -> io::Result<()> {
    match bad {
        BadCase::OutOfMemory => println!(rt; "{path}: out of memory"),
        BadCase::Line(number) => println!(rt; "{path}:{number}: not a line of a case"),
        BadCase::Arguments => println!(rt; "{path}: not exactly one line with unifdef"),
    }
}
