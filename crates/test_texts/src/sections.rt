//! Whole texts: sections with text among them.

use crate::lines::{Turn, write_directive, write_long_line, write_text_line};
use crate::writer::Writer;
use std::alloc::AllocError;
use ud_model::MAX_DEPTH;

/// Writes a text.
pub(crate) fn write_text(writer: &mut Writer) -> Result<(), AllocError> {
    match writer.random.below(64) {
        0..=2 => write_deep(writer),
        3..=6 => {
            write_lines(writer)?;
            write_long_line(writer)?;
            write_lines(writer)
        }
        7 => {
            for _ in 0..writer.random.below(100) {
                write_lines(writer)?;
            }
            Ok(())
        }
        _ => write_lines(writer),
    }
}

/// Writes about as many openers as there may be open sections, then lines, and mostly closes the
/// sections.
fn write_deep(writer: &mut Writer) -> Result<(), AllocError> {
    for _ in 0..MAX_DEPTH - 4 + writer.random.below(6) {
        write_directive(writer, Turn::Opens)?;
    }
    write_lines(writer)
}

/// Writes lines, among them directives that are mostly well placed, and mostly closes the sections.
fn write_lines(writer: &mut Writer) -> Result<(), AllocError> {
    for _ in 0..writer.random.below(24) {
        write_some_line(writer)?;
    }
    if writer.is_odd() {
        return Ok(());
    }
    for _ in 0..writer.sections.len() {
        write_directive(writer, Turn::Closes)?;
    }
    Ok(())
}

/// Writes a line.
fn write_some_line(writer: &mut Writer) -> Result<(), AllocError> {
    let may_part = writer.sections.as_slice().last() == Some(&false) || writer.is_odd();
    let may_close = !writer.sections.is_empty() || writer.is_odd();
    match writer.random.below(12) {
        0..=2 => write_directive(writer, Turn::Opens),
        3 | 4 if may_part => write_directive(writer, Turn::Parts),
        5 if may_part => write_directive(writer, Turn::PartsLast),
        6 | 7 if may_close => write_directive(writer, Turn::Closes),
        8 if writer.is_odd() => write_directive(writer, Turn::Nothing),
        _ => write_text_line(writer),
    }
}
