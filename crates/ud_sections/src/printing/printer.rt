//! The printer that the options ask for.

use crate::printing::blank::Blank;
use crate::printing::complement::Complement;
use crate::printing::delete::Delete;
use crate::printing::line_output::LineOutput;
use crate::printing::pieces::Pieces;
use crate::printing::renumber::Renumber;
use crate::printing::show::Show;
use crate::sections::Step;
use ud_model::{Line, Settings, Verdict};

/// One of the printers.
#[derive(Drop)]
pub enum Printer {
    /// Deletes removed lines.
    Deletes(Delete),
    /// Blanks removed lines.
    Blanks(Blank),
    /// Deletes removed lines, and inserts line numbers.
    Renumbers(Renumber),
    /// Prints only removed lines.
    ComplementDeletes(Complement<Delete>),
    /// Blanks lines that would be kept.
    ComplementBlanks(Complement<Blank>),
    /// Prints only removed lines, and inserts line numbers.
    ComplementRenumbers(Complement<Renumber>),
}

impl Printer {
    ghost use Rattle.std.specs.Prelude.{◌≡◌, [], List};
    ghost use Rattle.ud_model.specs.answer.Printing.{Judged, piece_after, style_of};
    ghost use Rattle.ud_sections.specs.printing.Printers.{printer_represents, printer_piece};

    /// Returns the printer for these settings, at the beginning of a text. If removed lines are
    /// blanked, no line is numbered.
    pub fn of(settings: &Settings) -> Printer
        ensures represents { printer_represents result [] }
        ensures piece { (before : List Judged) → (j : Judged) →
            printer_piece result before j ≡ piece_after (style_of settings.now) before j }
    {
        let unpadded = settings.unpadded;
        match (settings.complement, settings.blank, settings.renumber) {
            (false, true, _) => Printer::Blanks(Blank::of(unpadded)),
            (false, false, true) => Printer::Renumbers(Renumber::of(unpadded)),
            (false, false, false) => Printer::Deletes(Delete::of(unpadded)),
            (true, true, _) => Printer::ComplementBlanks(Complement::new(Blank::of(unpadded))),
            (true, false, true) => Printer::ComplementRenumbers(Complement::new(Renumber::of(
                unpadded,
            ))),
            (true, false, false) => Printer::ComplementDeletes(Complement::new(Delete::of(
                unpadded,
            ))),
        }
    }
}

impl Show for Printer {
    ghost use Rattle.ud_sections.specs.printing.Printers.{printer_represents, printer_piece};

    ghost represents = { printer_represents };

    ghost piece = { printer_piece };

    #[inline(never)]
    fn pieces<'a>(&'a mut self, line: &Line<'a>, step: Step) -> Pieces<'a> {
        match self {
            Printer::Deletes(printer) => printer.pieces(line, step),
            Printer::Blanks(printer) => printer.pieces(line, step),
            Printer::Renumbers(printer) => printer.pieces(line, step),
            Printer::ComplementDeletes(printer) => printer.pieces(line, step),
            Printer::ComplementBlanks(printer) => printer.pieces(line, step),
            Printer::ComplementRenumbers(printer) => printer.pieces(line, step),
        }
    }

    #[inline(always)]
    fn line_output(&self, verdict: Verdict) -> LineOutput {
        match self {
            Printer::Deletes(printer) => printer.line_output(verdict),
            Printer::Blanks(printer) => printer.line_output(verdict),
            Printer::Renumbers(printer) => printer.line_output(verdict),
            Printer::ComplementDeletes(printer) => printer.line_output(verdict),
            Printer::ComplementBlanks(printer) => printer.line_output(verdict),
            Printer::ComplementRenumbers(printer) => printer.line_output(verdict),
        }
    }
}
