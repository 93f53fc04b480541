//! Deciding lines, and printing the output for them.
//!
//! A `LineProcessor` gives each decided line to its printer, or lists the line's names. Lines that
//! the printer leaves unchanged aren't appended: the engine copies them from the chunk.
//!
//! Most lines are printed by their verdict alone, and the printer stays unchanged then. So the
//! result holds for all next text lines too. Rejected: a call of the printer for each of many
//! lines, which would have to split the bytes into lines again.

ghost use Rattle.std.specs.Prelude.{◌≡◌, ◌∷◌, [], ◌++◌, ◌≤◌, List, ℕ, length, take, true, false};
ghost use Rattle.std.specs.Prelude.{OnErr, IsTrue};
ghost use Rattle.ud_model.specs.text.Lines.{NoNewline, is_ending, text_of};
ghost use Rattle.ud_model.specs.answer.Printing.{Judged};
ghost use Rattle.ud_model.specs.declared.limits.TheConstants.{MAX_LINES};
ghost use Rattle.ud_text.specs.lines.LinesState.{LinesRepresent};
ghost use Rattle.ud_model.specs.aids.LineViews.{as_line};
ghost use Rattle.ud_text.specs.bulk.BulkScanning.{AreWholeLines};
ghost use Rattle.ud_text.specs.lines.Consuming.{CanConsume};
ghost use Rattle.ud_sections.specs.sections.Limits.{IsWithinLimits};
ghost use Rattle.ud_sections.specs.sections.MachineState.{end_fault_of};
ghost use Rattle.ud_sections.specs.sections.StepViews.{judged_step, HoldsKeyword};
ghost use Rattle.ud_engine.specs.ProcessedLines.{ShowsLine, ShowsNext, IsLeftOf, lister_of};
ghost use Rattle.ud_engine.specs.ProcessedLines.{printed_of};
ghost use Rattle.ud_engine.specs.DecidedLines.{consumed};
ghost use Rattle.ud_io.specs.Streams.{stream_of};

use crate::line_decider::LineDecider;
use crate::output::Output;
use std::io::Write;
use ud_cond::Symbols;
use ud_io::Watched;
use ud_model::{Listing, Settings};
use ud_sections::{LineOutput, Lister, SectionFault, Show, Step};
use ud_text::{Line, LineBuffer, Lines};

/// A processor that decides the lines of a text in order, and prints the output for each, or lists
/// its names.
#[derive(Drop)]
pub(crate) struct LineProcessor<S> {
    decider: LineDecider,
    /// The printer of the lines, unless names are listed.
    printer: S,
    /// The lister, if names are listed.
    lister: Option<Lister>,
    /// True once some line's output differs from the line.
    differs: bool,
}

/// Text lines that were skipped in bulk.
#[derive(Clone, Copy)]
pub(crate) struct SkippedText {
    /// The length of these lines in bytes; 0 if none was skipped.
    pub(crate) count: usize,
    /// True if each of these lines is copied; false if all of them are dropped.
    pub(crate) kept: bool,
}

/// Returns a lister, if names are to be listed.
fn lister_of(listing: Listing) -> Option<Lister>
    ensures { result ≡ lister_of listing }
{
    match listing {
        Listing::Off => None,
        Listing::Names => Some(Lister::new(false)),
        Listing::Depths => Some(Lister::new(true)),
    }
}

impl<S: Show> LineProcessor<S> {
    ghost use Rattle.ud_engine.specs.ProcessedLines.{BeginsLines, PrintsNext, PrintsText};
    ghost use Rattle.ud_engine.specs.ProcessedLines.{HasEndFault, HasDifference};

    /// Returns a processor before the first line, which prints by `printer`.
    pub(crate) fn new(settings: Settings, printer: S) -> LineProcessor<S>
        ensures { BeginsLines S.represents S.piece settings printer result }
    {
        LineProcessor {
            decider: LineDecider::new(settings),
            printer,
            lister: lister_of(settings.listing),
            differs: false,
        }
    }

    /// Decides the next line. Appends `pending` and the line's output, if that differs from the
    /// line.
    ///
    /// Returns whether they were appended. If the output is the line itself, nothing is appended.
    ///
    /// # Errors
    /// Fails if the line is faulty. Nothing is appended.
    #[inline(always)]
    pub(crate) fn print<W: Write, H: LineBuffer>(
        &mut self,
        line: &Line<'_>,
        symbols: &Symbols,
        masked: &mut H,
        pending: &[u8],
        output: &mut Output,
        out: &mut Watched<W>,
    ) -> Result<bool, SectionFault>
        requires within { IsWithinLimits (as_line line.now) }
        requires one_line { NoNewline line.now.body.now }
        requires fits { length line.now.body.now ≤ H.CAPACITY }
        ensures prints { PrintsNext S.represents S.piece W.contents symbols.now self.old self.new
            (as_line line.now) pending.now output.old output.new out.old out.new (λ put. put)
            result }
        ensures unchanged { OnErr result ((out.new ≡ out.old) × (output.new ≡ output.old)) }
    {
        match &mut self.lister {
            Some(lister) => {
                self.decider
                    .list_names(line, symbols, masked, lister, pending, output, out)?;
                Ok(true)
            }
            None => {
                let step = self.decider.decide(line, symbols, masked)?;
                let shown = append_line(&mut self.printer, line, &step, pending, output, out);
                self.differs |= shown;
                Ok(shown)
            }
        }
    }

    /// Decides the next line. Always appends `pending` and the line's output.
    ///
    /// # Errors
    /// As `print`.
    #[inline(never)]
    pub(crate) fn put_line<W: Write, H: LineBuffer>(
        &mut self,
        line: &Line<'_>,
        symbols: &Symbols,
        masked: &mut H,
        pending: &[u8],
        output: &mut Output,
        out: &mut Watched<W>,
    ) -> Result<(), SectionFault>
        requires within { IsWithinLimits (as_line line.now) }
        requires one_line { NoNewline line.now.body.now }
        requires fits { length line.now.body.now ≤ H.CAPACITY }
        ensures prints { PrintsNext S.represents S.piece W.contents symbols.now self.old self.new
            (as_line line.now) pending.now output.old output.new out.old out.new (λ done. true)
            result }
        ensures unchanged { OnErr result ((out.new ≡ out.old) × (output.new ≡ output.old)) }
    {
        let shown = self.print(line, symbols, masked, pending, output, out)?;
        if !shown {
            output.append_parts(&[pending, line.body, line.ending], out);
        }
        Ok(())
    }

    /// Consumes the longest prefix of `bytes` that is recognized as text lines, if names are listed
    /// or the printer copies or drops all text. Appends nothing.
    ///
    /// `bytes` are the next whole lines.
    pub(crate) fn skip_text<H: LineBuffer>(
        &mut self,
        bytes: &[u8],
        lines: &mut Lines<H>,
    ) -> SkippedText
        requires run { CanConsume lines.old bytes.now }
        requires goes_on { lines.old.closed ≡ false }
        requires limit { lines.old.last_line ≤ MAX_LINES }
        ensures bound { result.count ≤ length bytes.now }
        ensures ends { AreWholeLines (take result.count bytes.now) }
        ensures consumed { lines.new ≡ consumed lines.old (take result.count bytes.now) }
        ensures represents { (text : List ℕ) → LinesRepresent lines.old text →
            LinesRepresent lines.new (text ++ take result.count bytes.now) }
        ensures printed { PrintsText S.represents S.piece self.old self.new lines.old
            (take result.count bytes.now) (printed_of result bytes.now) }
    {
        let none = SkippedText {
            count: 0,
            kept: true,
        };
        let policy = self.decider.machine.text_policy();
        if self.lister.is_some() {
            // Text lines have no names.
            return SkippedText {
                count: self.decider.skip_text(policy, bytes, lines),
                kept: false,
            };
        }
        match self.printer.line_output(policy.verdict) {
            LineOutput::Ending | LineOutput::Parts => none,
            LineOutput::Whole => SkippedText {
                count: self.decider.skip_text(policy, bytes, lines),
                kept: true,
            },
            LineOutput::Nothing => {
                let count = self.decider.skip_text(policy, bytes, lines);
                if count == 0 {
                    return none;
                }
                self.differs = true;
                SkippedText { count, kept: false }
            }
        }
    }

    /// Checks the end of the text.
    ///
    /// # Errors
    /// Fails if the text ends in a block comment, or else in a section.
    pub(crate) fn finish(&self) -> Result<(), SectionFault>
        ensures { HasEndFault S.represents S.piece self.now (end_fault_of result) }
    {
        self.decider.finish()
    }

    /// Returns whether some line's output differs from the line; never if names are listed.
    pub(crate) fn differs(&self) -> bool
        ensures { HasDifference S.represents S.piece self.now result }
    {
        self.differs
    }
}

/// Appends `pending` and the printer's output for the next line, if that differs from the line.
/// Returns whether they were appended.
#[inline(always)]
fn append_line<S: Show, W: Write>(
    show: &mut S,
    line: &Line<'_>,
    step: &Step,
    pending: &[u8],
    output: &mut Output,
    out: &mut Watched<W>,
) -> bool
    requires keyword { HoldsKeyword step.now line.now }
    ensures represents { (before : List Judged) → S.represents show.old before →
        S.represents show.new (before ++ judged_step line.now step.now ∷ []) }
    ensures stays { (before : List Judged) → (j : Judged) →
        S.piece show.new before j ≡ S.piece show.old before j }
    ensures shows { ShowsNext S.represents S.piece W.contents show.old
        (judged_step line.now step.now) pending.now output.old output.new out.old out.new result }
{
    match show.line_output(step.verdict) {
        LineOutput::Whole => false,
        LineOutput::Nothing => append_line_output(line, &[], pending, output, out),
        LineOutput::Ending => append_line_output(line, line.ending, pending, output, out),
        LineOutput::Parts => append_parts_of(show, line, *step, pending, output, out),
    }
}

/// Appends `pending` and `left`, if `left` differs from the line. Returns whether they were
/// appended.
///
/// `left` is the output for the line: nothing or its ending.
#[inline(always)]
fn append_line_output<W: Write>(
    line: &Line<'_>,
    left: &[u8],
    pending: &[u8],
    output: &mut Output,
    out: &mut Watched<W>,
) -> bool
    requires left { IsLeftOf left.now line.now.ending.now }
    ensures { ShowsLine result (stream_of W.contents out.old) (stream_of W.contents out.new)
        output.old output.new pending.now left.now (text_of (as_line line.now)) }
{
    if left.len() == line.body.len() + line.ending.len() {
        return false;
    }
    output.append(pending, out);
    output.append(left, out);
    true
}

/// Appends `pending` and the parts that the printer makes of the next line, if they differ from the
/// line. Returns whether they were appended.
#[tactic(auto, using(ud_io::proofs::StreamLemmas::takes_both))]
#[inline(never)]
fn append_parts_of<S: Show, W: Write>(
    show: &mut S,
    line: &Line<'_>,
    step: Step,
    pending: &[u8],
    output: &mut Output,
    out: &mut Watched<W>,
) -> bool
    requires ended { IsTrue (is_ending line.now.ending.now) }
    requires keyword { HoldsKeyword step line.now }
    ensures represents { (before : List Judged) → S.represents show.old before →
        S.represents show.new (before ++ judged_step line.now step ∷ []) }
    ensures stays { (before : List Judged) → (j : Judged) →
        S.piece show.new before j ≡ S.piece show.old before j }
    ensures shows { ShowsNext S.represents S.piece W.contents show.old
        (judged_step line.now step) pending.now output.old output.new out.old out.new result }
{
    // A copy, whose bytes are borrowed no longer than the pieces.
    let line = Line {
        body: line.body,
        ending: line.ending,
        number: line.number,
    };
    let pieces = show.pieces(&line, step);
    if pieces.same() {
        return false;
    }
    output.append(pending, out);
    output.append_parts(pieces.parts(), out);
    true
}
