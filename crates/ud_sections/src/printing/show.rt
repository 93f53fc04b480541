//! The trait of printers.
//!
//! A new printer implements `Show`: its definition as `piece`, what it represents as `represents`,
//! and `pieces`. Its own `line_output` lets callers print lines, one or many, without passing them.

ghost use Rattle.std.specs.Prelude.{◌≡◌, List, bytes_eq, ℕ};
ghost use Rattle.std.specs.Borrow.{sem};
ghost use Rattle.std.specs.Io.BufRead.{Rests};
ghost use Rattle.ud_model.specs.text.Lines.{text_of};
ghost use Rattle.ud_model.specs.answer.Printing.{Judged};
ghost use Rattle.ud_model.specs.aids.LineViews.{as_line};
ghost use Rattle.ud_sections.specs.printing.PieceParts.{concatenated, is_unchanged};
ghost use Rattle.ud_sections.specs.printing.PrinterOutputs.{GivesLineOutput, GotLine};
ghost use Rattle.ud_sections.specs.sections.StepViews.{judged_step, HoldsKeyword};

use crate::printing::line_output::LineOutput;
use crate::printing::pieces::Pieces;
use crate::sections::Step;
use ud_model::{Line, Verdict};

/// A printer: gets each line in order with its step, and returns what to print for it.
///
/// The law: for any list of lines and steps, each line's pieces are what the printer's definition
/// gives. A printer represents the lines it has been given, and `pieces` adds one.
pub trait Show: Drop {
    /// The printer was given these lines.
    ghost represents: { Self → List Judged → Type 0 };

    /// The printer's definition: the output for a line after others. It never changes.
    ghost piece: { Self → List Judged → Judged → List ℕ };

    /// Returns what to print for the next line. An edited directive has its keyword in the line's
    /// body.
    fn pieces<'a>(&'a mut self, line: &Line<'a>, step: Step) -> Pieces<'a>
        requires keyword { HoldsKeyword step line.now }
        ensures parts { (before : List Judged) → represents self.old before →
            concatenated result ≡ piece self.old before (judged_step line.now step) }
        ensures is_unchanged { is_unchanged result ≡
            bytes_eq (concatenated result) (text_of (as_line line.now)) }
        ensures* represents_after { sem 𝓛 (Rests Self.row self.entry (λ new.
            GotLine (represents self.entry.now) (piece self.entry.now) (represents new)
            (piece new) (judged_step line.now step))) };

    /// Returns what to print for the next line if it has this verdict. Unless the result is
    /// `Parts`, the line needn't be passed: the unchanged printer represents it too. So the result
    /// is also right for any number of further lines with this verdict.
    fn line_output(&self, verdict: Verdict) -> LineOutput
        ensures line_output { GivesLineOutput (represents self.now) (piece self.now) verdict
            result }
    {
        LineOutput::Parts
    }
}
