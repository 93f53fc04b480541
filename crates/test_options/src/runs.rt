//! Runs of the tool over memory.

use crate::arguments::with_more;
use std::alloc::{AllocError, Global};
use test_texts::{Case, Chunks};
use unifdef::{Watched, tool};

/// The output, the message and the status of a run.
#[derive(Drop)]
pub(crate) struct Run {
    pub output: Vec<u8>,
    pub message: Vec<u8>,
    pub status: u8,
}

impl Run {
    /// Returns whether the run ended with a fault.
    pub(crate) fn has_fault(&self) -> bool {
        self.status == 2
    }

    /// Returns whether the output, the message and the status of `other` are the same.
    pub(crate) fn is_same(&self, other: &Run) -> bool {
        self.status == other.status
            && self.message.as_slice() == other.message.as_slice()
            && self.output.as_slice() == other.output.as_slice()
    }
}

/// Runs the tool on a text, which is read in chunks that come from the seed.
fn run_tool(
    alloc: Global,
    arguments: &[String],
    text: &[u8],
    seed: u64,
) -> Result<Run, AllocError> {
    let mut reader = Watched::new(Chunks::new(text, seed));
    let mut out = Watched::new(Vec::<u8>::new(alloc));
    let mut err = Watched::new(Vec::<u8>::new(alloc));
    let status = tool(alloc, arguments, &mut reader, &mut out, &mut err);
    Ok(Run {
        output: Vec::from_slice(alloc, out.inner().as_slice())?,
        message: Vec::from_slice(alloc, err.inner().as_slice())?,
        status,
    })
}

/// Runs the tool on the text of a case, with `first` before its arguments and `last` after them.
pub(crate) fn run_with(
    alloc: Global,
    case: &Case,
    first: &[&str],
    last: &[&str],
) -> Result<Run, AllocError> {
    let arguments = with_more(alloc, first, case.args.as_slice(), last)?;
    run_tool(alloc, arguments.as_slice(), case.text.as_slice(), case.seed)
}

/// Returns whether the arguments of a case are in order: with no text there is no other fault.
pub(crate) fn has_usage(alloc: Global, case: &Case) -> Result<bool, AllocError> {
    let empty = run_tool(alloc, case.args.as_slice(), b"", case.seed)?;
    Ok(!empty.has_fault())
}
