//! unifdef(1): removes preprocessor conditionals from C source.
//!
//! The tool itself is the library `unifdef`. This program passes it the arguments, the file they
//! name (or standard input), and the standard streams.
#![tactic(auto)]

ghost use Rattle.std.specs.Prelude.{◌≡◌, map, option_and_then, slice_get, string_bytes};
ghost use Rattle.std.specs.Option.{option_copied};
ghost use Rattle.ud_model.specs.answer.CommandLine.{input_of};

use std::alloc::AllocError;
use std::fs::File;
use std::io::Read;
use std::process::ExitCode;
use std::{env, io};
use unifdef::{EXIT_TROUBLE, Watched, input_of, tool};

fn main(rt: HostRuntime) -> ExitCode {
    let Ok(args) = args(&rt) else {
        let _ = rt.eprintln("unifdef: Cannot take arguments");
        return ExitCode::from(EXIT_TROUBLE);
    };
    match file_name(args.as_slice()) {
        None => run(&rt, args.as_slice(), rt.stdin()),
        Some(name) => match File::open(&rt, name) {
            Ok(file) => run(&rt, args.as_slice(), file),
            Err(_) => {
                let _ = eprintln!(rt; "unifdef: {name}: Cannot open");
                ExitCode::from(EXIT_TROUBLE)
            }
        },
    }
}

/// Returns the name of the input file, if the arguments name one.
fn file_name(args: &[String]) -> Option<&str>
    ensures { let words = map string_bytes args.now in
        option_copied result ≡ option_and_then (slice_get words) (input_of words) }
{
    let index = input_of(args)?;
    Some(args.get(index)?.as_str())
}

/// Runs the tool over a reader and the standard streams.
fn run<R: Read + Drop>(rt: &HostRuntime, args: &[String], reader: R) -> ExitCode {
    let mut reader = Watched::new(reader);
    let mut out = Watched::new(rt.stdout());
    let mut err = Watched::new(rt.stderr());
    ExitCode::from(tool(rt.alloc(), args, &mut reader, &mut out, &mut err))
}

/// Returns the arguments after the program's name.
fn args(rt: &HostRuntime) -> io::Result<Vec<String>> {
    let mut args = Vec::new(rt.alloc());
    for word in env::args(rt)?.skip(1) {
        args.push(word).map_err(AllocError::from)?;
    }
    Ok(args)
}
