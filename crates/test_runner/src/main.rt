//! Runs cases against the tool, in several ways each. `data/README.md` has the form of a case.
//!
//! The arguments name files of cases, and directories with such files and directories. At cases
//! that are answered wrongly both answers are printed, and the exit status is 1.
//!
//! The first argument may also be a word:
//!
//! - `all`: texts are tried too that no file has;
//! - `hostile`: texts from seeds are tried (`hostile::run`);
//! - `reference`: the program answers to the other arguments and standard input as the reference.
#![tactic(auto)]

mod borders;
mod case;
mod checking;
mod directories;
mod engines;
mod expected;
mod failing;
mod hostile;
mod limits;
mod literals;
mod mismatch;
mod options;
mod outcome;
mod parsing;
mod reference;
mod running;

use crate::borders::check_borders;
use crate::directories::{Tally, run_cases};
use crate::hostile::{agree_from, keep_options};
use crate::limits::check_limits;
use std::alloc::{AllocError, Global};
use std::process::ExitCode;
use std::{env, io};

/// The number of seeds whose texts are tried beside the reference.
const SEEDS: u64 = 20_000;

/// The number of seeds whose texts are tried under options.
const OPTION_SEEDS: u64 = 300;

fn main(rt: HostRuntime) -> io::Result<ExitCode> {
    let mut args = Vec::new(rt.alloc());
    for word in env::args(&rt)?.skip(1) {
        args.push(word).map_err(AllocError::from)?;
    }
    match args.as_slice().split_first() {
        Some((mode, rest)) if mode.as_str() == "hostile" => hostile::run(&rt, rest),
        Some((mode, rest)) if mode.as_str() == "reference" => reference::answer(&rt, rest),
        Some((mode, rest)) if mode.as_str() == "all" => run_all(&rt, rest),
        _ => finish(&rt, tally_of(&rt, args.as_slice())?),
    }
}

/// Runs the cases of these directories and files, and returns their numbers.
fn tally_of(rt: &HostRuntime, paths: &[String]) -> io::Result<Tally> {
    let mut tally = Tally { cases: 0, wrong: 0 };
    for path in paths {
        run_cases(rt, path.as_str(), &mut tally)?;
    }
    Ok(tally)
}

/// Runs these cases, and the texts that no file has.
fn run_all(rt: &HostRuntime, paths: &[String]) -> io::Result<ExitCode> {
    let mut tally = tally_of(rt, paths)?;
    if !texts_are_right(rt, rt.alloc())? {
        tally.wrong = tally.wrong.saturating_add(1);
    }
    finish(rt, tally)
}

/// Returns whether the texts at limits, at the borders of lanes and from seeds are answered
/// rightly. If they aren't, prints how.
fn texts_are_right(rt: &impl Print, alloc: Global) -> io::Result<bool> {
    if let Some(wrong) = check_limits(alloc)? {
        println!(rt; "a text at a limit: {wrong}")?;
        return Ok(false);
    }
    if let Some(wrong) = check_borders(alloc)? {
        println!(rt; "a text of stops: {wrong}")?;
        return Ok(false);
    }
    Ok(agree_from(rt, alloc, 0, SEEDS)? && keep_options(rt, alloc, 0, OPTION_SEEDS)?)
}

/// Prints the result. The number of cases isn't part of the output, so that a new case changes no
/// expected output.
fn finish(rt: &HostRuntime, tally: Tally) -> io::Result<ExitCode> {
    let _ = eprintln!(rt; "{} cases, {} wrong", tally.cases, tally.wrong);
    if tally.cases == 0 || tally.wrong > 0 {
        println!(rt; "not each case has its answer")?;
        return Ok(ExitCode::FAILURE);
    }
    println!(rt; "each case has its answer")?;
    Ok(ExitCode::SUCCESS)
}
