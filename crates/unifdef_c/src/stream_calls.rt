//! The whole tool over a text that comes in chunks.

ghost use Rattle.std.specs.Prelude.{◌≡◌, None, IfOk, IfErr};
ghost use Rattle.unifdef_c.specs.CallFaults.{IsCallFault};
ghost use Rattle.unifdef_c.specs.StreamCalls.{OpensHandle, FeedsHandle, TakesHandle, EndsHandle};
ghost use Rattle.unifdef_c.specs.StreamCalls.{TellsEnd, Tells, OpensStream};

use crate::args::parse_words;
use crate::fault::CallFault;
use crate::hand_out::{TOO_SMALL, overwrite};
use crate::handle::Handle;
use crate::stream::{Fed, Stream};
use std::alloc::Global;
use ud_engine::RunFault;
use ud_io::Watched;
use ud_model::Settings;
use unifdef::{EXIT_TROUBLE, report_result};

/// Opens a stream: unifdef(1) over a text that comes in chunks. If `handle` is open, closes it
/// first.
///
/// `words` has the arguments, as for `unifdef_text`. Returns 0.
///
/// # Errors
/// -1 if the words have a fault or one isn't UTF-8, and -2 if memory is refused. Then `handle` is
/// closed.
#[unsafe(no_mangle)]
pub extern "C" fn unifdef_open(alloc: Global, handle: &mut Handle, words: &[u8]) -> i32
    ensures { OpensHandle words.now handle.new.stream result }
{
    match open(alloc, words) {
        Ok(owner) => {
            *handle = Handle::of(owner);
            0
        }
        Err(fault) => {
            *handle = Handle::closed(alloc);
            fault.code()
        }
    }
}

/// Processes the next chunk of a text. The output for every line that ends in it can then be taken.
///
/// Returns 0.
///
/// # Errors
/// - 2 if the text has a fault. The output for the text before it can be taken.
/// - -2 if memory for the output is refused. Part of the output can be taken.
/// - -4 if the stream is closed, or the text has ended.
///
/// After 2 or -2, later calls return the same.
#[unsafe(no_mangle)]
pub extern "C" fn unifdef_feed(alloc: Global, handle: &mut Handle, text: &[u8]) -> i32
    ensures { FeedsHandle text.now handle.old.stream handle.new.stream result }
{
    let Some(mut owner) = handle.take(alloc) else {
        return -4;
    };
    let fed = owner.feed(text);
    *handle = Handle::of(owner);
    match fed {
        Fed::Accepted => 0,
        Fed::Faulty => 2,
        Fed::OutOfMemory => -2,
        Fed::Ended => -4,
    }
}

/// Writes as much of the output as fits to `output`, and the number of bytes left to `pending`.
///
/// Returns how many bytes were written: 0 if none were left, or if the stream is closed.
#[unsafe(no_mangle)]
pub extern "C" fn unifdef_take(
    alloc: Global,
    handle: &mut Handle,
    output: &mut [u8],
    pending: &mut usize,
) -> usize
    ensures { TakesHandle output.old output.new pending.new result handle.old.stream
        handle.new.stream }
{
    let Some(mut owner) = handle.take(alloc) else {
        *pending = 0;
        return 0;
    };
    let count = owner.take(alloc, output);
    *pending = owner.pending().len();
    *handle = Handle::of(owner);
    count
}

/// Ends the text. The rest of the output can then be taken.
///
/// The message is written to `message`, as far as it fits, and its whole length to `size`. Returns
/// the exit status, or 3 if the message doesn't fit. A later call returns the same status and
/// message, unless memory for the message is refused at one of the calls.
///
/// # Errors
/// The status is 2, with the program's message, if the text has a fault or memory was refused. It
/// is -4 if the stream is closed; then nothing is written.
#[unsafe(no_mangle)]
pub extern "C" fn unifdef_finish(
    alloc: Global,
    handle: &mut Handle,
    message: &mut [u8],
    size: &mut usize,
) -> i32
    ensures { EndsHandle message.old message.new size.old size.new handle.old.stream
        handle.new.stream result }
{
    let Some(mut owner) = handle.take(alloc) else {
        return -4;
    };
    let ended = owner.end();
    let status = tell_end(
        alloc,
        owner.name.as_slice(),
        owner.settings,
        ended,
        message,
        size,
    );
    *handle = Handle::of(owner);
    status as i32
}

/// Closes a stream, and frees its memory. Does nothing if it is closed.
#[unsafe(no_mangle)]
pub extern "C" fn unifdef_close(alloc: Global, handle: &mut Handle)
    ensures { handle.new.stream ≡ None }
{
    drop(handle.take(alloc));
}

/// Returns a stream before the first byte, by the words of a block.
///
/// # Errors
/// `BadWords` if the words have a fault or one of them isn't UTF-8, `OutOfMemory` if memory is
/// refused.
fn open(alloc: Global, words: &[u8]) -> Result<Box<Stream>, CallFault>
    ensures ok { IfOk result (λ owner. OpensStream words.now owner.value) }
    ensures err { IfErr result (IsCallFault words.now) }
{
    let args = parse_words(alloc, words)?;
    let stream = Stream::begin(alloc, args.as_slice())?;
    Ok(Box::new(alloc, stream)?)
}

/// Hands out the message for the end of a text. Returns the exit status, or 3 if the message
/// doesn't fit.
fn tell_end(
    alloc: Global,
    name: &[u8],
    settings: Settings,
    ended: Result<bool, RunFault>,
    message: &mut [u8],
    size: &mut usize,
) -> u8
    ensures { TellsEnd name.now settings ended message.old message.new size.new result }
{
    let mut err = Watched::new(Vec::<u8>::new(alloc));
    let status = report_result(&mut err, name, settings, ended);
    // A write to a `Vec` fails if memory is refused.
    if err.failed() || matches!(ended, Err(RunFault::Write)) {
        return tell(b"unifdef: Out of memory\n", EXIT_TROUBLE, message, size);
    }
    tell(err.inner().as_slice(), status, message, size)
}

/// Writes `bytes` to `message`, as far as they fit, and their length to `size`. Returns `status`,
/// or 3 if they don't fit.
fn tell(bytes: &[u8], status: u8, message: &mut [u8], size: &mut usize) -> u8
    ensures { Tells bytes.now status message.old message.new size.new result }
{
    *size = bytes.len();
    overwrite(message, bytes);
    if bytes.len() <= message.len() {
        status
    } else {
        TOO_SMALL
    }
}
