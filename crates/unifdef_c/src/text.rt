//! The whole tool over a text in memory.

ghost use Rattle.std.specs.Prelude.{◌≡◌, ℕ, pos, map, string_bytes};
ghost use Rattle.ud_model.specs.answer.Answer.{memory_answer};
ghost use Rattle.unifdef_c.specs.TextCalls.{AnswersText, AnswersArgs, HandsOut, words_answer};

use crate::args::parse_words;
use crate::fault::CallFault;
use crate::hand_out::{Parts, Sizes, hand_out};
use std::alloc::Global;
use ud_io::Watched;
use unifdef::{EXIT_TROUBLE, tool};

/// Runs unifdef(1) over a text in memory.
///
/// `words` has the arguments, without the program's name. A zero byte ends each; the last one may
/// lack it. The output and the message are written to `output` and `message`, as far as they fit,
/// and their whole lengths to `sizes`. The rest of a buffer is unchanged.
///
/// Returns the exit status, or 3 if the output or the message is longer than its buffer.
///
/// # Errors
/// The status is 2, with the program's message, for a fault of the arguments or of the text. The
/// same goes for refused memory, and for words that aren't UTF-8.
#[unsafe(no_mangle)]
pub extern "C" fn unifdef_text(
    alloc: Global,
    words: &[u8],
    text: &[u8],
    output: &mut [u8],
    message: &mut [u8],
    sizes: &mut Sizes,
) -> i32
    ensures { (status : ℕ) × (result ≡ pos status) × AnswersText words.now text.now output.old
        output.new message.old message.new sizes.new status }
{
    answer_text(alloc, words, text, output, message, sizes) as i32
}

/// Runs unifdef(1) over a text in memory, as `unifdef_text` does.
fn answer_text(
    alloc: Global,
    words: &[u8],
    text: &[u8],
    output: &mut [u8],
    message: &mut [u8],
    sizes: &mut Sizes,
) -> u8
    ensures { AnswersText words.now text.now output.old output.new message.old message.new sizes.new
        result }
{
    match parse_words(alloc, words) {
        Ok(args) => run_tool(alloc, args.as_slice(), text, output, message, sizes),
        Err(CallFault::BadWords) => refuse_words(output, message, sizes),
        Err(CallFault::OutOfMemory) => refuse_memory(output, message, sizes),
    }
}

/// Runs the tool with these arguments, and hands out its answer.
fn run_tool(
    alloc: Global,
    args: &[String],
    text: &[u8],
    output: &mut [u8],
    message: &mut [u8],
    sizes: &mut Sizes,
) -> u8
    ensures { AnswersArgs (map string_bytes args.now) text.now output.old output.new message.old
        message.new sizes.new result }
{
    let mut reader = Watched::new(text);
    let mut out = Watched::new(Vec::<u8>::new(alloc));
    let mut err = Watched::new(Vec::<u8>::new(alloc));
    let status = tool(alloc, args, &mut reader, &mut out, &mut err);
    // A write to a `Vec` fails if memory is refused. A read of a slice never fails.
    if reader.failed() || out.failed() || err.failed() {
        return refuse_memory(output, message, sizes);
    }
    let answer = Parts {
        output: out.inner().as_slice(),
        message: err.inner().as_slice(),
        status,
    };
    hand_out(answer, output, message, sizes)
}

/// Reports that a word isn't UTF-8, as the program does.
fn refuse_words(output: &mut [u8], message: &mut [u8], sizes: &mut Sizes) -> u8
    ensures { HandsOut words_answer output.old output.new message.old message.new sizes.new result }
{
    let answer = Parts {
        output: &[],
        message: b"unifdef: Cannot take arguments\n",
        status: EXIT_TROUBLE,
    };
    hand_out(answer, output, message, sizes)
}

/// Reports that memory was refused.
fn refuse_memory(output: &mut [u8], message: &mut [u8], sizes: &mut Sizes) -> u8
    ensures { HandsOut memory_answer output.old output.new message.old message.new sizes.new
        result }
{
    let answer = Parts {
        output: &[],
        message: b"unifdef: Out of memory\n",
        status: EXIT_TROUBLE,
    };
    hand_out(answer, output, message, sizes)
}
