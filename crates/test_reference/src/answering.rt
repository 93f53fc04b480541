//! The answer to a command line and a text.

use crate::messages::{Fault, FaultyLine, message, usage_message};
use crate::obfuscated::first_obfuscated;
use crate::printing::print;
use crate::pruning::prune;
use crate::reading::Reader;
use std::alloc::{AllocError, Global};
use ud_args::{Plan, display_name, plan};
use ud_model::{ExitMode, Listing, Settings};
use ud_text::Scanner;

/// The exit status after a fault.
const EXIT_TROUBLE: u8 = 2;

/// The output, the message and the exit status of a run.
#[derive(Drop)]
pub struct Answer {
    /// The output for the text, or the names in it.
    pub output: Vec<u8>,
    /// The message of a fault, with its newline; empty if there is none.
    pub message: Vec<u8>,
    /// The exit status.
    pub status: u8,
}

/// Returns the answer of unifdef(1) to these arguments, without the program's name, and this text.
///
/// # Errors
/// Fails if memory runs out.
pub fn answer_to(alloc: Global, args: &[String], text: &[u8]) -> Result<Answer, AllocError> {
    match plan(alloc, args) {
        Ok(plan) => run(alloc, &plan, display_name(&plan, args), text),
        Err(usage) => Ok(Answer {
            output: Vec::new(alloc),
            message: usage_message(alloc, usage)?,
            status: EXIT_TROUBLE,
        }),
    }
}

/// Returns the answer of a planned run over a text of this name.
fn run(alloc: Global, plan: &Plan, name: &[u8], text: &[u8]) -> Result<Answer, AllocError> {
    let settings = plan.settings();
    let mut reader = Reader {
        alloc,
        settings,
        symbols: plan.symbols(),
        rest: text,
        scanner: Scanner::new(),
        lines_read: Vec::new(alloc),
        fault: None,
        last: 0,
        open: None,
    };
    let tree = reader.read()?;
    let mut marks = Vec::new(alloc);
    prune(tree.as_slice(), true, &mut marks)?;
    if let Some(line) = first_obfuscated(reader.lines_read.as_slice(), marks.as_slice()) {
        reader.lines_read.truncate(line.saturating_sub(1) as usize);
        reader.fault = Some(FaultyLine {
            line,
            fault: Fault::Obfuscated,
        });
    }
    let printed = print(
        alloc,
        reader.lines_read.as_slice(),
        marks.as_slice(),
        settings,
    )?;
    let (message, status) = match reader.fault {
        Some(faulty) => (message(alloc, name, faulty)?, EXIT_TROUBLE),
        None => (Vec::new(alloc), status_by(settings, printed.differs)),
    };
    Ok(Answer {
        output: printed.output,
        message,
        status,
    })
}

/// Returns the exit status for a text without a fault.
fn status_by(settings: Settings, differs: bool) -> u8 {
    match (settings.listing, settings.exit_mode) {
        (Listing::Off, ExitMode::Zero) => u8::from(differs),
        (Listing::Off, ExitMode::One) => u8::from(!differs),
        _ => 0,
    }
}
