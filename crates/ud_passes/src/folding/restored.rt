//! The way back from a folded text.

ghost use Rattle.std.specs.Prelude.{◌≡◌, ◌≤◌, ◌<◌, ◌++◌, ℕ, List, [], length, IfOk, OnOk};
ghost use Rattle.ud_model.specs.text.Lines.{NoNewline, text_of};
ghost use Rattle.ud_model.specs.aids.LineViews.{as_line};
ghost use Rattle.ud_simplified.specs.FoldedTexts.{restored_text, restored_line, restored_body};
ghost use Rattle.ud_simplified.specs.FoldedTexts.{restored_byte};
ghost use Rattle.ud_model.specs.declared.limits.TheConstants.{MAX_LINE_BYTES};
ghost use Rattle.ud_passes.specs.folding.Folding.{Restored};

use crate::folding::logical::append_line;
use crate::folding::shown::{VERTICAL_TAB, has_tab};
use crate::walk::{Stretch, Walk};
use std::alloc::{AllocError, Global};
use ud_model::{Line, Mode};
use ud_text::{LineStore, Scanner};

/// Appends the bytes that a byte with this masked form represents, in a line with this ending.
///
/// # Errors
/// Fails if memory runs out.
fn append_byte(ending: &[u8], byte: u8, masked: u8, out: &mut Vec<u8>) -> Result<(), AllocError>
    ensures { OnOk result
        (out.new.items ≡ out.old.items ++ restored_byte ending.now byte masked) }
{
    if byte != VERTICAL_TAB {
        out.push(byte)?;
        return Ok(());
    }
    if masked == VERTICAL_TAB {
        out.push(b'\\')?;
    }
    out.extend_from_slice(ending)
}

/// Appends the lines that a body represents if it is masked so, without the last ending.
///
/// # Errors
/// Fails if memory runs out.
fn append_body(
    ending: &[u8],
    body: &[u8],
    masked: &[u8],
    out: &mut Vec<u8>,
) -> Result<(), AllocError>
    requires masked { length masked.now ≤ length body.now }
    ensures { OnOk result
        (out.new.items ≡ out.old.items ++ restored_body ending.now body.now masked.now) }
{
    for i in 0..masked.len() {
        append_byte(ending, body[i], masked[i], out)?;
    }
    out.extend_from_slice(body.split_at(masked.len()).1)?;
    Ok(())
}

/// Appends the lines that a line represents, by its scan as the first line of a text.
///
/// # Errors
/// Fails if memory runs out.
pub(crate) fn append_restored_line(line: &Line<'_>, out: &mut Vec<u8>) -> Result<(), AllocError>
    requires fits { length (text_of (as_line line.now)) ≤ MAX_LINE_BYTES }
    requires one_line { NoNewline line.now.body.now }
    ensures { OnOk result
        (out.new.items ≡ out.old.items ++ restored_line (as_line line.now)) }
{
    if !has_tab(line.body) {
        append_line(line, out)?;
        return Ok(());
    }
    let mut masked = LineStore::new(*out.allocator())?;
    let mut scanner = Scanner::bare();
    let scan = scanner.read_into(Mode::C, line, &mut masked);
    append_body(line.ending, line.body, scan.masked, out)?;
    out.extend_from_slice(line.ending)?;
    Ok(())
}

/// Takes the next line, and appends the lines that it represents.
///
/// # Errors
/// Fails if memory runs out.
fn step(walk: &mut Walk<'_>, masked: &mut LineStore, out: &mut Vec<u8>) -> Result<(), AllocError>
    requires some { 0 < length walk.old.rest.now }
    ensures shorter { length walk.new.rest.now < length walk.old.rest.now }
    ensures restored { OnOk result ((text start : List ℕ) →
        Restored text start walk.old out.old.items →
        Restored text start walk.new out.new.items) }
{
    match walk.next_within(Mode::C, 0, masked) {
        Stretch::Texts(bytes) => out.extend_from_slice(bytes)?,
        Stretch::TooLong(line) => append_line(&line, out)?,
        Stretch::Fitting(line, _) => append_restored_line(&line, out)?,
    }
    Ok(())
}

/// Returns a folded text with newlines in place of its vertical tabs.
///
/// `text` may have any length and any bytes. A vertical tab outside comments becomes a splice: a
/// backslash and the line's ending. One in a comment becomes the ending. A line over
/// `MAX_LINE_BYTES` stays.
///
/// # Errors
/// Fails if memory runs out.
pub fn restore(alloc: Global, text: &[u8]) -> Result<Vec<u8>, AllocError>
    ensures { IfOk result (λ restored. restored.items ≡ restored_text text.now) }
{
    let mut out = Vec::new(alloc);
    let mut masked = LineStore::new(alloc)?;
    let mut walk = Walk::new(text);
    while !walk.is_at_end() {
        step(&mut walk, &mut masked, &mut out)?;
    }
    Ok(out)
}
