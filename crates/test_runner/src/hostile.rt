//! Hostile arguments and texts from seeds: the tool beside the reference, and what users of options
//! rely on.

use crate::options::differing_seed;
use std::alloc::Global;
use std::io;
use std::process::ExitCode;
use test_texts::{Case, agree, case_of, smallest};

/// Runs `count` cases from the seed `first` on, as the arguments say: the first seed, the number of
/// seeds, and `options` for the checks of options in place of the reference.
///
/// # Errors
/// Fails if a write to the standard output does, or if memory runs out.
pub(crate) fn run(rt: &HostRuntime, args: &[String]) -> io::Result<ExitCode> {
    let first = number_at(args, 0).unwrap_or(0);
    let count = number_at(args, 1).unwrap_or(1000);
    let is_right = if args.get(2).is_some_and(|word| word.as_str() == "options") {
        keep_options(rt, rt.alloc(), first, count)?
    } else {
        agree_from(rt, rt.alloc(), first, count)?
    };
    if !is_right {
        return Ok(ExitCode::FAILURE);
    }
    println!(rt; "{count} cases from seed {first} on: no mismatch")?;
    Ok(ExitCode::SUCCESS)
}

/// Returns the argument at an index as a number, if it is one.
fn number_at(args: &[String], at: usize) -> Option<u64> {
    args.get(at)?.as_str().parse::<u64>().ok()
}

/// Returns whether the tool and the reference agree on these seeds. At the first case on which they
/// differ, prints the seed and the smallest arguments and text to which it could be cut down.
///
/// # Errors
/// Fails if a write to the standard output does, or if memory runs out.
pub(crate) fn agree_from(
    rt: &impl Print,
    alloc: Global,
    first: u64,
    count: u64,
) -> io::Result<bool> {
    for at in 0..count {
        let case = case_of(alloc, first.wrapping_add(at))?;
        if !agree(alloc, &case)? {
            println!(rt; "mismatch at seed {}", case.seed)?;
            print_case(rt, &smallest(alloc, case)?)?;
            return Ok(false);
        }
    }
    Ok(true)
}

/// Returns whether what users of options rely on holds on these seeds. If it doesn't, prints the
/// first check that differs, and the case.
///
/// # Errors
/// Fails if a write to the standard output does, or if memory runs out.
pub(crate) fn keep_options(
    rt: &impl Print,
    alloc: Global,
    first: u64,
    count: u64,
) -> io::Result<bool> {
    let Some((seed, name)) = differing_seed(alloc, first, count)? else {
        return Ok(true);
    };
    println!(rt; "{name} differs at seed {seed}")?;
    print_case(rt, &case_of(alloc, seed)?)?;
    Ok(false)
}

/// Prints the arguments and the text of a case.
fn print_case(rt: &impl Print, case: &Case) -> io::Result<()> {
    for word in &case.args {
        println!(rt; "word {word}")?;
    }
    println!(rt; "text {}", case.text.as_slice().escape_ascii())
}
