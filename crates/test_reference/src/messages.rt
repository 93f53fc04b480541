//! Faults and their messages, each of which ends in a newline.

use std::alloc::{AllocError, Global};
use ud_args::Usage;

/// The reason why a line is faulty.
#[derive(Clone, Copy)]
pub(crate) enum Fault {
    TooManyLines,
    LineTooLong,
    Obfuscated,
    InappropriateElif,
    InappropriateElse,
    InappropriateEndif,
    TooManyLevels,
    EofInComment,
    /// The text ends in a section, whose first directive is on line `if_line`.
    PrematureEof { if_line: u32 },
}

/// A faulty line, by its number.
#[derive(Clone, Copy)]
pub(crate) struct FaultyLine {
    pub line: u32,
    pub fault: Fault,
}

/// Returns the message of a fault in the input of this name.
pub(crate) fn message(
    alloc: Global,
    name: &[u8],
    faulty: FaultyLine,
) -> Result<Vec<u8>, AllocError> {
    let line = faulty.line;
    let text = text_of(alloc, faulty.fault)?;
    let after = format!(in alloc; ": {line}: {text}\n")?;
    let mut message = Vec::new(alloc);
    message.extend_from_slice(b"unifdef: ")?;
    message.extend_from_slice(name)?;
    message.extend_from_slice(after.as_bytes())?;
    Ok(message)
}

/// Returns the part of the message after the line's number.
fn text_of(alloc: Global, fault: Fault) -> Result<String, AllocError> {
    let text = match fault {
        Fault::TooManyLines => "Too many lines",
        Fault::LineTooLong => "Line too long",
        Fault::Obfuscated => "Obfuscated preprocessor control line",
        Fault::InappropriateElif => "Inappropriate #elif",
        Fault::InappropriateElse => "Inappropriate #else",
        Fault::InappropriateEndif => "Inappropriate #endif",
        Fault::TooManyLevels => "Too many levels of nesting",
        Fault::EofInComment => "EOF in comment",
        Fault::PrematureEof { if_line } => {
            return format!(in alloc; "Premature EOF (#if line {if_line})");
        }
    };
    String::from_str(alloc, text)
}

/// Returns the message of a fault in the arguments.
pub(crate) fn usage_message(alloc: Global, usage: Usage) -> Result<Vec<u8>, AllocError> {
    let text = match usage {
        Usage::UnknownOption { letter } => {
            format!(in alloc; "unifdef: Unknown option -{letter}\n")
        }
        Usage::MissingArgument { letter } => {
            format!(in alloc; "unifdef: Option -{letter} needs an argument\n")
        }
        Usage::BadSymbol { word } => format!(in alloc; "unifdef: Bad symbol in word {word}\n"),
        Usage::BadMode { word } => format!(in alloc; "unifdef: Bad exit mode in word {word}\n"),
        Usage::TooManyFiles => String::from_str(alloc, "unifdef: Too many files\n"),
        Usage::OutOfMemory => Err(AllocError),
    }?;
    Vec::from_slice(alloc, text.as_bytes())
}
