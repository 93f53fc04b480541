//! Shrinking a case that the tool and the reference answer differently.

ghost use Rattle.std.specs.Prelude.{◌<◌};

use crate::case::Case;
use crate::comparing::agree;
use std::alloc::{AllocError, Global};

/// The numbers of bytes that are left out at once, in turn.
const RUNS: [usize; 10] = [4096, 512, 64, 16, 8, 4, 2, 1, 2, 1];

/// Shrinks a case, by leaving out arguments and bytes, while the tool and the reference answer it
/// differently. Returns the case itself if they answer it alike.
///
/// # Errors
/// Fails if memory runs out.
pub fn smallest(alloc: Global, case: Case) -> Result<Case, AllocError> {
    let mut best = without_args(alloc, case)?;
    for size in RUNS {
        best = without_runs(alloc, best, size)?;
    }
    Ok(best)
}

/// Leaves out each argument that can be left out, the last one first.
fn without_args(alloc: Global, case: Case) -> Result<Case, AllocError> {
    let mut best = case;
    for at in (0..best.args.len()).rev() {
        let shorter = Case {
            args: other_args(alloc, best.args.as_slice(), at)?,
            text: Vec::from_slice(alloc, best.text.as_slice())?,
            seed: best.seed,
        };
        if !agree(alloc, &shorter)? {
            best = shorter;
        }
    }
    Ok(best)
}

/// Returns all arguments but the one at `left_out`.
fn other_args(alloc: Global, args: &[String], left_out: usize) -> Result<Vec<String>, AllocError> {
    let mut others = Vec::new(alloc);
    for (at, word) in args.iter().enumerate() {
        if at != left_out {
            others.push(String::from_str(alloc, word.as_str())?)?;
        }
    }
    Ok(others)
}

/// Leaves out each run of `size` bytes that can be left out, the last one first.
fn without_runs(alloc: Global, case: Case, size: usize) -> Result<Case, AllocError> {
    let mut best = case;
    for run in (0..=best.text.len() / size.max(1)).rev() {
        let shorter = Case {
            args: other_args(alloc, best.args.as_slice(), usize::MAX)?,
            text: without_run(alloc, best.text.as_slice(), run.saturating_mul(size), size)?,
            seed: best.seed,
        };
        if !agree(alloc, &shorter)? {
            best = shorter;
        }
    }
    Ok(best)
}

/// Returns the bytes of a text without a run of `size` bytes.
fn without_run(alloc: Global, text: &[u8], at: usize, size: usize) -> Result<Vec<u8>, AllocError> {
    let (front, rest) = text.split_at(at.min(text.len()));
    let mut left = Vec::from_slice(alloc, front)?;
    left.extend_from_slice(&rest[size.min(rest.len())..])?;
    Ok(left)
}
