//! unifdef-tree(1): runs unifdef over the files of a tree, in place.
//!
//! The tool itself is the library `ud_tree`. This program passes it the arguments, the system's
//! files and the standard streams.
#![tactic(auto)]

mod painter;
mod synced;

ghost use Rattle.std.specs.Prelude.{◌≡◌};
ghost use Rattle.unifdef_tree_cli.specs.Screens.{allows_colours, allows_counter, is_dumb};
ghost use Rattle.unifdef_tree_cli.specs.Screens.{is_unwanted};

use crate::painter::Painter;
use crate::synced::Synced;
use std::alloc::AllocError;
use std::env::{Env, FillError, VarError};
use std::fs::{self, File};
use std::io::{IsTerminal, Write};
use std::os::fd::{AsFd, AsRawFd};
use std::process::ExitCode;
use std::{env, io};
use ud_io::Watched;
use ud_tree::{
    Arguments, Disk, EXIT_TROUBLE, Job, Request, Task, parse_arguments, print_help,
    report_argument_fault, report_bad_argument, report_line, run_tree,
};

/// The version that `-V` prints.
const VERSION: &str = "unifdef-tree 1.0";

/// The number of the last standard stream.
const STDERR: i32 = 2;

/// The most bytes of an argument that a message shows.
const ARGUMENT_BYTES: usize = 4096;

/// The path of standard output.
const STDOUT: &str = "/proc/self/fd/1";

/// The last line of a run that couldn't keep directories open.
const WITHOUT_PROC: &[u8] = b"Without /proc, directories were found by their paths";

fn main(rt: HostRuntime) -> ExitCode {
    let Ok(args) = args(&rt) else {
        let mut err = Watched::new(rt.stderr());
        match bad_argument(&rt) {
            Ok(word) => report_bad_argument(rt.alloc(), &mut err, word.as_slice()),
            Err(_) => report_line(rt.alloc(), &mut err, &[b"Cannot take arguments"]),
        }
        return ExitCode::from(EXIT_TROUBLE);
    };
    match parse_arguments(rt.alloc(), args.as_slice()) {
        Err(fault) => {
            let mut err = Watched::new(rt.stderr());
            report_argument_fault(rt.alloc(), &mut err, &fault);
            ExitCode::from(EXIT_TROUBLE)
        }
        Ok(Request::Help) => {
            let mut out = Watched::new(rt.stdout());
            ExitCode::from(if print_help(&mut out) {
                0
            } else {
                EXIT_TROUBLE
            })
        }
        Ok(Request::Version) => match rt.println(VERSION) {
            Ok(()) => ExitCode::from(0),
            Err(_) => ExitCode::from(EXIT_TROUBLE),
        },
        Ok(Request::Run(arguments)) => {
            let _closed = [
                fill_closed_stream(&rt),
                fill_closed_stream(&rt),
                fill_closed_stream(&rt),
            ];
            run(&rt, &arguments)
        }
    }
}

/// Opens a directory for reading in the place of the first standard stream that is closed. Else a
/// file of the tree would get its number, and messages would be written into that file. Such a
/// stream can't be read or written, as one that is closed. `None` if all are open.
fn fill_closed_stream(rt: &HostRuntime) -> Option<File> {
    match fs::open(rt, "/") {
        Ok(open) if open.as_fd().as_raw_fd() <= STDERR => Some(open),
        _ => None,
    }
}

/// Runs over the system's files. On a terminal, shows what would change in colours.
fn run(rt: &HostRuntime, arguments: &Arguments) -> ExitCode {
    let stdout = rt.stdout();
    let dumb = is_dumb(env::var(rt, "TERM"));
    let paints = allows_colours(arguments.task, dumb, env::var(rt, "NO_COLOR"));
    if stdout.is_terminal() && paints {
        return run_to(rt, arguments, Painter::new(stdout));
    }
    match reopened_stdout(rt, arguments) {
        Some(file) => run_to(rt, arguments, Synced::new(stdout, file)),
        None => run_to(rt, arguments, stdout),
    }
}

/// Opens standard output anew if the diffs that undo the run go there, and if it is a regular file.
/// `None` also without `/proc`, or if the user may not read that file.
fn reopened_stdout(rt: &HostRuntime, arguments: &Arguments) -> Option<File> {
    let undoes = match arguments.task {
        Task::Replace => arguments.show_changes,
        Task::Diff | Task::Names => false,
    };
    if undoes && fs::metadata(rt, STDOUT).ok()?.is_file() {
        fs::open(rt, STDOUT).ok()
    } else {
        None
    }
}

/// Runs over the system's files, with this writer as the output.
fn run_to<W: Write + Drop>(rt: &HostRuntime, arguments: &Arguments, stdout: W) -> ExitCode {
    let stderr = rt.stderr();
    let job = Job {
        alloc: rt.alloc(),
        arguments,
        is_terminal: stderr.is_terminal()
            && allows_counter(arguments)
            && !is_dumb(env::var(rt, "TERM")),
    };
    let mut disk = Disk::new(rt, rt.alloc());
    let mut input = Watched::new(rt.stdin());
    let mut out = Watched::new(stdout);
    let err = Watched::new(stderr);
    let (mut err, status) = run_tree(&job, &mut disk, &mut input, &mut out, err);
    if disk.lacks_proc() && !arguments.quiet {
        report_line(rt.alloc(), &mut err, &[WITHOUT_PROC]);
    }
    ExitCode::from(status)
}

/// Returns whether a terminal may show how many files are done. The last lines remove that, so
/// there must be some. Nothing else may be written: the output may go to the same terminal.
fn allows_counter(arguments: &Arguments) -> bool
    ensures { result ≡ allows_counter arguments.now }
{
    let replaces = match arguments.task {
        Task::Replace => true,
        Task::Diff | Task::Names => false,
    };
    replaces && !arguments.quiet && !arguments.list_remaining && !arguments.show_changes
}

/// Returns whether a terminal may show colours, by whether it is a dumb one and by the value of
/// `NO_COLOR`: changes are shown, and the value is unset or empty.
fn allows_colours(task: Task, dumb: bool, value: Result<String, VarError>) -> bool
    ensures { result ≡ allows_colours task dumb value }
{
    match task {
        Task::Diff => !dumb && !is_unwanted(value),
        Task::Replace | Task::Names => false,
    }
}

/// Returns whether colours are unwanted, by the value of `NO_COLOR`.
fn is_unwanted(value: Result<String, VarError>) -> bool
    ensures { result ≡ is_unwanted value }
{
    match value {
        Ok(value) => !value.is_empty(),
        Err(VarError::NotPresent) => false,
        Err(VarError::NotUnicode | VarError::OutOfMemory) => true,
    }
}

/// Returns whether the terminal can neither colour a line nor remove it, by the value of `TERM`.
fn is_dumb(value: Result<String, VarError>) -> bool
    ensures { result ≡ is_dumb value }
{
    match value {
        Ok(kind) => kind.as_str() == "dumb",
        Err(_) => false,
    }
}

/// Returns the arguments after the program's name.
fn args(rt: &HostRuntime) -> io::Result<Vec<String>> {
    let mut args = Vec::new(rt.alloc());
    for word in env::args(rt)?.skip(1) {
        args.push(word).map_err(AllocError::from)?;
    }
    Ok(args)
}

/// Returns the first argument that isn't UTF-8.
///
/// # Errors
/// Fails if there is none, if it has more bytes than are looked at, or if memory runs out.
fn bad_argument(rt: &HostRuntime) -> Result<Vec<u8>, AllocError> {
    let mut word = [0u8; ARGUMENT_BYTES];
    for number in 1..usize::MAX {
        match rt.arg(number, &mut word) {
            Ok(len) if str::from_utf8(&word[..len]).is_err() => {
                let mut owned = Vec::new(rt.alloc());
                owned.extend_from_slice(&word[..len])?;
                return Ok(owned);
            }
            Err(FillError::NotPresent) => return Err(AllocError),
            Ok(_) | Err(FillError::TooLong) => {}
        }
    }
    Err(AllocError)
}
