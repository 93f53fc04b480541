//! The tool: from arguments and an input to an output, a message and an exit status.

ghost use Rattle.std.specs.Prelude.{◌≡◌, map, string_bytes, false};
ghost use Rattle.unifdef.specs.ToolCall.{call_of};
ghost use Rattle.unifdef.specs.ToolAnswer.{RefusesFaultyArgs, AnswersAsDefined, LeavesFlushed};
ghost use Rattle.unifdef.specs.ToolEnded.{EndsAsRun, LagsAsRun};

use crate::diagnostics::{EXIT_TROUBLE, final_result, report_result, report_usage};
use std::alloc::Global;
use std::io::{Read, Write};
use ud_args::{display_name, plan};
use ud_engine::{Watched, run};

/// Runs unifdef(1): parses `args`, reads the text from `reader`, writes the output to `out` and
/// errors to `err`, and returns the exit status.
///
/// `args` excludes the program's name. The caller opens the operand's file (`input_of`). Messages
/// name the input by the operand, or `stdin`. Lines and arguments count from 1.
///
/// Only the symbols of the arguments need memory. Of the text, the tool buffers one line of at most
/// `MAX_LINE_BYTES`, and the state of at most `MAX_DEPTH` open sections. The output is written
/// chunk by chunk, as `run` of ud_engine does.
///
/// The definitions give exactly one answer to the arguments and an input (ud_model,
/// `Answer.IsAnswer`). If memory suffices and neither `reader` nor `out` fails, the bytes appended
/// to `out` and `err` and the exit status are those of that answer. `out` is flushed once, at the
/// end of a run.
///
/// # Errors
/// The status is 2, and `err` gets one message, in each of these cases:
///
/// - The arguments have a fault, or memory for a symbol can't be allocated. Nothing was read, and
///   nothing was written to `out`.
/// - The text has a fault. The output for the lines before it was written.
/// - A read fails. The output for the whole lines before was written.
/// - A write fails.
/// - The flush fails after a run without a fault.
///
/// If `err` fails, the message may be truncated, and the status is unchanged.
///
/// # Examples
/// ```rust
/// let text: &[u8] = b"#ifdef DEBUG\nlog();\n#endif\nrun();\n#endif\n";
/// let args = [String::from_str(alloc, "-UDEBUG")?];
///
/// let mut reader = Watched::new(text);
/// let mut out = Watched::new(Vec::<u8>::new(alloc));
/// let mut err = Watched::new(Vec::<u8>::new(alloc));
/// let status = tool(alloc, &args, &mut reader, &mut out, &mut err);
///
/// println!(rt; "status {status}")?;
/// println!(rt; "output {}", out.inner().as_slice().escape_ascii())?;
/// println!(rt; "message {}", err.inner().as_slice().escape_ascii())?;
/// ```
/// ```text
/// status 2
/// output run();\n
/// message unifdef: stdin: 5: Inappropriate #endif\n
/// ```
pub fn tool<R: Read, W: Write, E: Write>(
    alloc: Global,
    args: &[String],
    reader: &mut Watched<R>,
    out: &mut Watched<W>,
    err: &mut Watched<E>,
) -> u8
    requires reader { reader.old.failed ≡ false }
    requires out { out.old.failed ≡ false }
    requires err { err.old.failed ≡ false }
    // Arguments with a fault are refused, before anything is read or written.
    ensures usage { RefusesFaultyArgs (call_of R.remaining W.contents E.contents
        (map string_bytes args.now) reader.old reader.new out.old out.new err.old err.new result) }
    // If no read and no write fails, the result is the definitions' answer.
    ensures answer { AnswersAsDefined (call_of R.remaining W.contents E.contents
        (map string_bytes args.now) reader.old reader.new out.old out.new err.old err.new result) }
    // However the run ends, the output for all that came before the last read is written.
    ensures lag { LagsAsRun (call_of R.remaining W.contents E.contents
        (map string_bytes args.now) reader.old reader.new out.old out.new err.old err.new result) }
    // However the run ends, output, message and status go with what was read and why it ended.
    ensures ended { EndsAsRun (call_of R.remaining W.contents E.contents
        (map string_bytes args.now) reader.old reader.new out.old out.new err.old err.new result) }
    // What was written is flushed, or the output has failed.
    ensures flushed { LeavesFlushed (call_of R.remaining W.contents E.contents
        (map string_bytes args.now) reader.old reader.new out.old out.new err.old err.new result) }
{
    match plan(alloc, args) {
        Err(fault) => {
            report_usage(err, fault);
            EXIT_TROUBLE
        }
        Ok(plan) => {
            let ran = run(&plan, reader, out);
            let flushed = out.flush();
            let ended = final_result(ran, flushed);
            report_result(err, display_name(&plan, args), plan.settings(), ended)
        }
    }
}
