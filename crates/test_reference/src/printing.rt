//! Printing the output for a text, or the names in it.

use crate::classify_line::ClassifiedLine;
use crate::pruning::Mark;
use std::alloc::{AllocError, Global};
use ud_model::{Listing, Settings};
use ud_sections::{Printer, Show, Step};
use ud_text::Line;

/// The output for lines, and whether the output for some line differs from it.
#[derive(Drop)]
pub(crate) struct Printed {
    pub output: Vec<u8>,
    pub differs: bool,
}

/// Prints lines by their marks, or lists the names on them. If names are listed, no line differs.
pub(crate) fn print(
    alloc: Global,
    lines_read: &[ClassifiedLine<'_>],
    marks: &[Mark],
    settings: Settings,
) -> Result<Printed, AllocError> {
    let mut printed = Printed {
        output: Vec::new(alloc),
        differs: false,
    };
    let mut printer = Printer::of(&settings);
    for (line_read, mark) in lines_read.iter().zip(marks) {
        if settings.listing == Listing::Off {
            let same = print_line(&mut printed.output, &mut printer, line_read, *mark)?;
            printed.differs |= !same;
        } else {
            printed
                .output
                .extend_from_slice(line_read.names.as_slice())?;
        }
    }
    Ok(printed)
}

/// Prints a line. Returns whether the output is the line itself.
fn print_line(
    output: &mut Vec<u8>,
    printer: &mut Printer,
    line_read: &ClassifiedLine<'_>,
    mark: Mark,
) -> Result<bool, AllocError> {
    let line = Line {
        body: line_read.line.body,
        ending: line_read.line.ending,
        number: line_read.line.number,
    };
    let step = Step {
        verdict: mark.verdict,
        keyword: line_read.keyword,
    };
    let pieces = printer.pieces(&line, step);
    for part in pieces.parts() {
        output.extend_from_slice(part)?;
    }
    Ok(pieces.same())
}
