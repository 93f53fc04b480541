//! Comparing the tool with the reference.

use crate::case::Case;
use crate::chunks::Chunks;
use std::alloc::{AllocError, Global};
use test_reference::{Answer, answer_to};
use unifdef::{Watched, tool};

/// Returns whether the tool, which reads the case's text in chunks, gives the reference's answer.
///
/// # Errors
/// Fails if memory runs out.
pub fn agree(alloc: Global, case: &Case) -> Result<bool, AllocError> {
    let expected = answer_to(alloc, case.args.as_slice(), case.text.as_slice())?;
    let given = run(alloc, case)?;
    Ok(
        given.status == expected.status
            && given.message.as_slice() == expected.message.as_slice()
            && given.output.as_slice() == expected.output.as_slice(),
    )
}

/// Returns the answer of the tool.
fn run(alloc: Global, case: &Case) -> Result<Answer, AllocError> {
    let mut reader = Watched::new(Chunks::new(case.text.as_slice(), case.seed));
    let mut out = Watched::new(Vec::<u8>::new(alloc));
    let mut err = Watched::new(Vec::<u8>::new(alloc));
    let status = tool(alloc, case.args.as_slice(), &mut reader, &mut out, &mut err);
    Ok(Answer {
        output: Vec::from_slice(alloc, out.inner().as_slice())?,
        message: Vec::from_slice(alloc, err.inner().as_slice())?,
        status,
    })
}
