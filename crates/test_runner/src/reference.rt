//! The reference as a program, which scripts run beside ./unifdef.

use std::io::{self, Read, Write};
use std::process::ExitCode;
use test_reference::answer_to;

/// Reads all of standard input, and answers as `test_reference` does.
///
/// An operand is the input's name in messages, and isn't opened.
///
/// # Errors
/// Fails if a call of the standard streams does, or if memory runs out.
pub(crate) fn answer(rt: &HostRuntime, args: &[String]) -> io::Result<ExitCode> {
    let mut text = Vec::new(rt.alloc());
    rt.stdin().read_to_end(&mut text)?;
    let answer = answer_to(rt.alloc(), args, text.as_slice())?;
    rt.stdout().write_all(answer.output.as_slice())?;
    rt.stderr().write_all(answer.message.as_slice())?;
    Ok(ExitCode::from(answer.status))
}
