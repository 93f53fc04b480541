//! The marks of the lines of a text: what a run makes of each.

ghost use Rattle.std.specs.Prelude.{◌≡◌, ◌≤◌, ◌++◌, IfOk, OnOk, length, replicate, take, true};
ghost use Rattle.ud_model.specs.text.Lines.{texts_of};
ghost use Rattle.ud_model.specs.declared.settings.Listing.TheVariants.{Off};
ghost use Rattle.ud_args.specs.Plans.{ForOptionsOf};
ghost use Rattle.ud_text.specs.bulk.BulkLexemes.{IsLineStart};
ghost use Rattle.ud_passes.specs.declared.diff.script.TheConstants.{SAME};
ghost use Rattle.ud_replace.specs.Marks.{AreMarks, read_mark, read_marks};

use crate::folded_marks::first_line;
use crate::printing::print_marked;
use std::alloc::{AllocError, Global};
use ud_args::Plan;
use ud_passes::SAME;
use ud_text::{count_lines, last_line_start};

/// The most bytes of lines that are compared at once.
const BLOCK_BYTES: usize = 512;

/// Returns the marks of the lines of a text without a fault.
///
/// # Errors
/// Fails if memory runs out.
pub(crate) fn marks_of(alloc: Global, plan: &Plan, text: &[u8]) -> Result<Vec<u8>, AllocError>
    ensures { IfOk result (λ marks. ForOptionsOf plan.now (λ o.
        o.settings.listing ≡ Off → AreMarks o text.now marks.items)) }
{
    let marked = print_marked(alloc, plan, text)?;
    marks_in(alloc, text, marked.inner().as_slice())
}

/// Returns the mark of a line, by what `Marked` printed for it.
fn mark_in(line: &[u8], shown: &[u8]) -> u8
    ensures { result ≡ read_mark line.now shown.now }
{
    if shown == line {
        return SAME;
    }
    match shown.first() {
        Some(mark) => *mark,
        None => 0,
    }
}

/// Returns whether two texts are the same.
fn are_same(text: &[u8], other: &[u8]) -> bool
    ensures { result ≡ true → text.now ≡ other.now }
{
    text == other
}

/// Returns the length of some whole lines that two texts begin with; 0 if none is found at once.
fn same_lines_len(text: &[u8], marked: &[u8]) -> usize
    ensures within { (result ≤ length text.now) × (result ≤ length marked.now) }
    ensures same { take result text.now ≡ take result marked.now }
    ensures whole { IsLineStart (take result text.now) }
{
    let len = BLOCK_BYTES.min(text.len()).min(marked.len());
    if are_same(&text[..len], &marked[..len]) {
        last_line_start(&text[..len])
    } else {
        0
    }
}

/// Appends the marks of some lines that stay.
fn push_same(marks: &mut Vec<u8>, lines: usize) -> Result<(), AllocError>
    ensures { OnOk result (marks.new.items ≡ marks.old.items ++ replicate lines SAME) }
{
    for _line in 0..lines {
        marks.push(SAME)?;
    }
    Ok(())
}

/// Returns the marks of the lines of a text, by what `Marked` printed for it.
fn marks_in(alloc: Global, text: &[u8], marked: &[u8]) -> Result<Vec<u8>, AllocError>
    ensures { IfOk result (λ marks.
        marks.items ≡ read_marks (texts_of text.now) (texts_of marked.now)) }
{
    let mut marks = Vec::new(alloc);
    let (mut rest, mut printed) = (text, marked);
    while !printed.is_empty() {
        let same = same_lines_len(rest, printed);
        if same > 0 {
            let (lines, later) = rest.split_at(same);
            let (_shown, after) = printed.split_at(same);
            push_same(&mut marks, count_lines(lines))?;
            (rest, printed) = (later, after);
        } else {
            let (line, later) = first_line(rest);
            let (shown, after) = first_line(printed);
            marks.push(mark_in(line, shown))?;
            (rest, printed) = (later, after);
        }
    }
    Ok(marks)
}
