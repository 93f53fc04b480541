//! The message of each fault. It ends in a newline, and is written only to the error stream.

ghost use Rattle.std.specs.Prelude.{◌≡◌, false};
ghost use Rattle.ud_model.specs.answer.Messages.{about, about_line, message_of};
ghost use Rattle.ud_model.specs.sections.Faults.{premature_eof};
ghost use Rattle.ud_text.specs.lines.LimitFaults.{limit_of};
ghost use Rattle.ud_sections.specs.sections.SectionFaults.{fault_of};
ghost use Rattle.ud_io.specs.Watched.{AppendsAllOrPrefix};
ghost use Rattle.unifdef.specs.RunMessages.{fault_message};

use itoa::Buffer;
use std::io::Write;
use ud_engine::RunFault;
use ud_io::{Watched, send_parts};
use ud_sections::SectionFault;
use ud_text::TextFault;

/// Reports why a run ended. If a write fails, only a prefix of the message was written.
pub(crate) fn report_fault<E: Write>(err: &mut Watched<E>, name: &[u8], fault: RunFault)
    requires not_failed { err.old.failed ≡ false }
    ensures { AppendsAllOrPrefix err.new.failed (E.contents err.old.inner)
        (E.contents err.new.inner) (fault_message name.now fault) }
{
    match fault {
        RunFault::Text(fault) => report_limit(err, name, fault),
        RunFault::Section(fault) => report_section(err, name, fault),
        RunFault::Read => report_on(err, name, b"Read error"),
        RunFault::Write => report_on(err, name, b"Write error"),
    }
}

/// Reports which limit the text exceeds, and on which line.
fn report_limit<E: Write>(err: &mut Watched<E>, name: &[u8], fault: TextFault)
    requires not_failed { err.old.failed ≡ false }
    ensures { AppendsAllOrPrefix err.new.failed (E.contents err.old.inner)
        (E.contents err.new.inner) (message_of name.now (limit_of fault)) }
{
    match fault {
        TextFault::TooManyLines { line } => report_at(err, name, line, b"Too many lines"),
        TextFault::LineTooLong { line } => report_at(err, name, line, b"Line too long"),
    }
}

/// Reports which line is faulty among the sections, and why, or what the text ends in.
fn report_section<E: Write>(err: &mut Watched<E>, name: &[u8], fault: SectionFault)
    requires not_failed { err.old.failed ≡ false }
    ensures { AppendsAllOrPrefix err.new.failed (E.contents err.old.inner)
        (E.contents err.new.inner) (message_of name.now (fault_of fault)) }
{
    match fault {
        SectionFault::InappropriateElif { line } => {
            report_at(err, name, line, b"Inappropriate #elif");
        }
        SectionFault::InappropriateElse { line } => {
            report_at(err, name, line, b"Inappropriate #else");
        }
        SectionFault::InappropriateEndif { line } => {
            report_at(err, name, line, b"Inappropriate #endif");
        }
        SectionFault::TooManyLevels { line } => {
            report_at(err, name, line, b"Too many levels of nesting");
        }
        SectionFault::Obfuscated { line } => {
            report_at(err, name, line, b"Obfuscated preprocessor control line");
        }
        SectionFault::PrematureEof { line, if_line } => {
            report_premature_eof(err, name, line, if_line);
        }
        SectionFault::EofInComment { line } => report_at(err, name, line, b"EOF in comment"),
    }
}

/// Writes a message about a line of the text.
fn report_at<E: Write>(err: &mut Watched<E>, name: &[u8], line: u32, text: &[u8])
    requires not_failed { err.old.failed ≡ false }
    ensures { AppendsAllOrPrefix err.new.failed (E.contents err.old.inner)
        (E.contents err.new.inner)
        (about_line name.now line text.now) }
{
    let mut digits = Buffer::new();
    let number = digits.format(line).as_bytes();
    send_parts(
        err,
        &[b"unifdef: ", name, b": ", number, b": ", text, b"\n"],
    );
}

/// Reports that the text ends in a section whose first directive is on line `if_line`.
fn report_premature_eof<E: Write>(err: &mut Watched<E>, name: &[u8], line: u32, if_line: u32)
    requires not_failed { err.old.failed ≡ false }
    ensures { AppendsAllOrPrefix err.new.failed (E.contents err.old.inner)
        (E.contents err.new.inner)
        (message_of name.now (premature_eof line if_line)) }
{
    let mut digits = Buffer::new();
    let number = digits.format(line).as_bytes();
    let mut if_digits = Buffer::new();
    let if_number = if_digits.format(if_line).as_bytes();
    send_parts(
        err,
        &[
            b"unifdef: ",
            name,
            b": ",
            number,
            b": Premature EOF (#if line ",
            if_number,
            b")\n",
        ],
    );
}

/// Writes a message about the input.
fn report_on<E: Write>(err: &mut Watched<E>, name: &[u8], text: &[u8])
    requires not_failed { err.old.failed ≡ false }
    ensures { AppendsAllOrPrefix err.new.failed (E.contents err.old.inner)
        (E.contents err.new.inner)
        (about name.now text.now) }
{
    send_parts(err, &[b"unifdef: ", name, b": ", text, b"\n"]);
}
