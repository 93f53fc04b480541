//! The marks of a text with directives over several lines folded.
//!
//! The run over the folded text gives each of its lines a mark. Here each mark becomes the marks of
//! the lines that the folded line represents.

ghost use Rattle.std.specs.Prelude.{◌≡◌, ◌-◌, ◌<◌, ◌++◌, [], ◌∷◌, ◌==◌};
ghost use Rattle.std.specs.Prelude.{length, IfOk, OnOk, if◌then◌else◌};
ghost use Rattle.ud_model.specs.text.Lines.{texts_of};
ghost use Rattle.ud_replace.specs.FoldedMarks.{first_stay, represented, unfolded};
ghost use Rattle.ud_passes.specs.squeezing.SqueezedTexts.{stays};
ghost use Rattle.ud_replace.specs.Marks.{first_text, later_texts};

use crate::marked::REMOVED;
use std::alloc::{AllocError, Global};
use ud_passes::{EDITED, SAME};
use ud_text::line_in;

/// The vertical tab, which represents a newline that continues a directive.
const VERTICAL_TAB: u8 = 11;

/// Returns the first line of a text, and the rest.
pub(crate) fn first_line(text: &[u8]) -> (&[u8], &[u8])
    ensures first { result.0.now ≡ first_text (texts_of text.now) }
    ensures rest { texts_of result.1.now ≡ later_texts (texts_of text.now) }
    ensures shorter { 0 < length text.now → length result.1.now < length text.now }
{
    let line = line_in(text, 1);
    let used = line.body.len() + line.ending.len();
    text.split_at(used)
}

/// Returns how many lines a folded line represents.
fn lines_of(folded: &[u8]) -> usize
    ensures { result ≡ represented folded.now }
{
    let tabs = folded.iter().filter(|byte| **byte == VERTICAL_TAB).count();
    tabs + 1
}

/// Appends the mark of a line, if `left` lines stay from here on. Returns how many stay after it.
fn push_mark(left: usize, marks: &mut Vec<u8>) -> Result<usize, AllocError>
    ensures left { IfOk result (λ after. after ≡ left - 1) }
    ensures mark { OnOk result (marks.new.items ≡
        marks.old.items ++ (if left == 0 then REMOVED else SAME) ∷ []) }
{
    if left == 0 {
        marks.push(REMOVED)?;
        return Ok(0);
    }
    marks.push(SAME)?;
    Ok(left - 1)
}

/// Appends the marks of the lines that a folded line represents, of which the first `stay` stay.
fn push_marks(folded: &[u8], stay: usize, marks: &mut Vec<u8>) -> Result<(), AllocError>
    ensures { OnOk result (marks.new.items ≡
        marks.old.items ++ first_stay (represented folded.now) stay) }
{
    let mut left = stay;
    for _line in 0..lines_of(folded) {
        left = push_mark(left, marks)?;
    }
    Ok(())
}

/// Returns the marks of a text, by the marks of the folded text and the folded output.
///
/// # Errors
/// Fails if memory runs out.
pub(crate) fn marks_by(
    alloc: Global,
    folded_marks: &[u8],
    folded: &[u8],
    output: &[u8],
) -> Result<Vec<u8>, AllocError>
    ensures { IfOk result (λ marks. marks.items ≡
        unfolded folded_marks.now (texts_of folded.now) (texts_of output.now)) }
{
    let mut marks = Vec::new(alloc);
    let mut rest = folded;
    let mut printed = output;
    for mark in folded_marks {
        let (line, later) = first_line(rest);
        rest = later;
        if stays(*mark) {
            let (shown, after) = first_line(printed);
            printed = after;
            push_marks(line, lines_of(shown), &mut marks)?;
        } else {
            push_marks(line, 0, &mut marks)?;
        }
    }
    Ok(marks)
}

/// Returns whether a line with this mark stays: it is the same, or another line replaces it.
fn stays(mark: u8) -> bool
    ensures { result ≡ stays mark }
{
    mark == SAME || mark == EDITED
}
