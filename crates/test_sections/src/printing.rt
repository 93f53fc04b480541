//! Printing any lines by any printer, of which only the trait's clauses are known.

ghost use Rattle.std.specs.Prelude.{◌≡◌, [], ◌∷◌, ◌++◌, List, map, not, bytes_eq, All, IfOk, OnOk};
ghost use Rattle.std.specs.List.{concat, flat_map};
ghost use Rattle.ud_model.specs.text.Lines.{text_of};
ghost use Rattle.ud_model.specs.answer.Printing.{Judged, pieces_by, some_other};
ghost use Rattle.ud_model.specs.aids.LineViews.{as_line};
ghost use Rattle.ud_sections.specs.sections.StepViews.{judged_step, HoldsKeyword};
ghost use Rattle.test_sections.specs.Ruling.{judged_of, HoldsItsKeyword};

use std::alloc::AllocError;
use ud_sections::{Show, Step};
use ud_text::Line;

/// A line with its step.
#[derive(Clone, Copy)]
pub(crate) struct Ruled<'a> {
    pub line: Line<'a>,
    pub step: Step,
}

/// Appends these parts.
fn append_parts(out: &mut Vec<u8>, parts: &[&[u8]]) -> Result<(), AllocError>
    ensures { OnOk result (out.new.items ≡ out.old.items ++ flat_map (λ p. p.now) parts.now) }
{
    for part in parts {
        out.extend_from_slice(part)?;
    }
    Ok(())
}

/// Appends the printer's output for the next line. Returns whether the output is the line itself.
///
/// # Errors
/// Fails if memory runs out. Some parts may have been appended.
fn print_next<S: Show>(
    show: &mut S,
    line: &Line<'_>,
    step: Step,
    out: &mut Vec<u8>,
) -> Result<bool, AllocError>
    requires { HoldsKeyword step line.now }
    ensures printed { (before : List Judged) → S.represents show.old before → OnOk result
        (out.new.items ≡ out.old.items ++ S.piece show.old before (judged_step line.now step)) }
    ensures same { (before : List Judged) → S.represents show.old before → IfOk result (λ same.
        same ≡ bytes_eq (S.piece show.old before (judged_step line.now step))
        (text_of (as_line line.now))) }
    ensures represents { (before : List Judged) → S.represents show.old before →
        S.represents show.new (before ++ judged_step line.now step ∷ []) }
    ensures piece { (before : List Judged) → (j : Judged) →
        S.piece show.new before j ≡ S.piece show.old before j }
{
    let line = Line {
        body: line.body,
        ending: line.ending,
        number: line.number,
    };
    let pieces = show.pieces(&line, step);
    let same = pieces.same();
    append_parts(out, pieces.parts())?;
    Ok(same)
}

/// Appends the printer's output for these lines, in order. Returns whether the output is the lines
/// themselves, line by line.
///
/// # Errors
/// Fails if memory runs out. A prefix of the pieces may have been appended.
pub(crate) fn print_all<S: Show>(
    show: &mut S,
    lines: &[Ruled<'_>],
    out: &mut Vec<u8>,
) -> Result<bool, AllocError>
    requires { All HoldsItsKeyword lines.now }
    ensures printed { (before : List Judged) → S.represents show.old before → OnOk result
        (out.new.items ≡ out.old.items ++
        concat (pieces_by (S.piece show.old) before (map judged_of lines.now))) }
    ensures same { (before : List Judged) → S.represents show.old before → IfOk result (λ same.
        not same ≡ some_other (pieces_by (S.piece show.old) before (map judged_of lines.now))
        (map judged_of lines.now)) }
{
    let mut same = true;
    for ruled in lines {
        let kept = print_next(show, &ruled.line, ruled.step, out)?;
        same &= kept;
    }
    Ok(same)
}
