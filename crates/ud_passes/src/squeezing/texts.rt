//! Squeezes a text by the flags of its lines.

ghost use Rattle.std.specs.Prelude.{◌≡◌, ◌++◌, OnOk, IfOk, if◌then◌else◌, []};
ghost use Rattle.std.specs.List.{concat};
ghost use Rattle.ud_model.specs.text.Lines.{texts_of};
ghost use Rattle.ud_passes.specs.squeezing.SqueezedTexts.{kept_lines};
ghost use Rattle.ud_passes.specs.squeezing.SqueezedTexts.{squeezed_text, squeezed_marks};

use crate::squeezing::marks::{first_flag, later_flags, marks_with};
use crate::squeezing::places::places_in;
use crate::squeezing::stretches::stay_flags;
use std::alloc::{AllocError, Global};
use ud_text::line_in;

/// A squeezed text, and the marks of the lines of the input for it.
#[derive(Drop)]
pub struct Squeezed {
    /// The text.
    pub text: Vec<u8>,
    /// The marks.
    pub marks: Vec<u8>,
}

/// Appends a line if it stays.
///
/// # Errors
/// Fails if memory runs out.
fn append_if(stays: bool, line: &[u8], out: &mut Vec<u8>) -> Result<(), AllocError>
    ensures { OnOk result (out.new.items ≡ out.old.items ++ (if stays then line.now else [])) }
{
    if !stays {
        return Ok(());
    }
    out.extend_from_slice(line)
}

/// Returns the lines of an output that stay.
///
/// # Errors
/// Fails if memory runs out.
fn kept_lines(alloc: Global, output: &[u8], flags: &[bool]) -> Result<Vec<u8>, AllocError>
    ensures { IfOk result (λ lines.
        lines.items ≡ concat (kept_lines flags.now (texts_of output.now))) }
{
    let mut out = Vec::new(alloc);
    let mut rest = output;
    let mut left = flags;
    while !rest.is_empty() {
        let line = line_in(rest, 1);
        let (bytes, more) = rest.split_at(line.body.len() + line.ending.len());
        append_if(first_flag(left), bytes, &mut out)?;
        rest = more;
        left = later_flags(left);
    }
    Ok(out)
}

/// Returns an output without the blank lines that only stood there because of lines that went, and
/// the marks of the lines of the input for this text.
///
/// The output may have any length and any bytes. `marks` has a mark for each line of the input:
/// `SAME` if it stays, `EDITED` if another line replaces it, else any other byte. Whatever the
/// marks are, only blank lines outside comments go, which join no other line. In the marks that are
/// returned, a line that goes has a mark of its own. The output is read in C mode.
///
/// # Errors
/// Fails if memory runs out.
pub fn squeeze(alloc: Global, output: &[u8], marks: &[u8]) -> Result<Squeezed, AllocError>
    ensures text { IfOk result (λ s. s.text.items ≡ squeezed_text marks.now output.now) }
    ensures marks { IfOk result (λ s. s.marks.items ≡ squeezed_marks marks.now output.now) }
{
    let places = places_in(alloc, output, marks)?;
    let flags = stay_flags(alloc, places.as_slice())?;
    let text = kept_lines(alloc, output, flags.as_slice())?;
    let marks = marks_with(alloc, marks, flags.as_slice())?;
    Ok(Squeezed { text, marks })
}
