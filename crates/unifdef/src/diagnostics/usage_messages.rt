//! The message of a fault of the arguments.

ghost use Rattle.std.specs.Prelude.{◌≡◌, ◌++◌, false, codes, decimal, encode_utf8};
ghost use Rattle.ud_io.specs.Watched.{AppendsAllOrPrefix};
ghost use Rattle.unifdef.specs.UsageMessages.{usage_text};

use itoa::Buffer;
use std::io::Write;
use ud_args::Usage;
use ud_io::{Watched, send_parts, write_all};

/// Reports a fault of the arguments, or that memory couldn't be allocated. If a write fails, only a
/// prefix of the message was written.
pub fn report_usage<E: Write>(err: &mut Watched<E>, usage: Usage)
    requires not_failed { err.old.failed ≡ false }
    ensures { AppendsAllOrPrefix err.new.failed (E.contents err.old.inner)
        (E.contents err.new.inner)
        (usage_text usage) }
{
    match usage {
        Usage::UnknownOption { letter } => {
            report_letter(err, b"unifdef: Unknown option -", letter, b"\n");
        }
        Usage::MissingArgument { letter } => {
            report_letter(err, b"unifdef: Option -", letter, b" needs an argument\n");
        }
        Usage::BadSymbol { word } => report_number(err, b"unifdef: Bad symbol in word ", word),
        Usage::BadMode { word } => report_number(err, b"unifdef: Bad exit mode in word ", word),
        Usage::TooManyFiles => {
            write_all(err, b"unifdef: Too many files\n");
        }
        Usage::OutOfMemory => {
            write_all(err, b"unifdef: Out of memory\n");
        }
    }
}

/// Writes a message with a letter between two texts.
fn report_letter<E: Write>(err: &mut Watched<E>, before: &[u8], letter: char, after: &[u8])
    requires not_failed { err.old.failed ≡ false }
    ensures { AppendsAllOrPrefix err.new.failed (E.contents err.old.inner)
        (E.contents err.new.inner)
        (before.now ++ encode_utf8 letter ++ after.now) }
{
    let mut buffer = [0; 4];
    let bytes = letter.encode_utf8(&mut buffer).as_bytes();
    send_parts(err, &[before, bytes, after]);
}

/// Writes `text` and the number of an argument as a message.
fn report_number<E: Write>(err: &mut Watched<E>, text: &[u8], word: usize)
    requires not_failed { err.old.failed ≡ false }
    ensures { AppendsAllOrPrefix err.new.failed (E.contents err.old.inner)
        (E.contents err.new.inner)
        (text.now ++ decimal word ++ codes "\n") }
{
    let mut digits = Buffer::new();
    let number = digits.format(word).as_bytes();
    send_parts(err, &[text, number, b"\n"]);
}
