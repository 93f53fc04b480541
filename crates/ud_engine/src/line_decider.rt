//! Deciding lines, one after another, by a scanner and a machine.

ghost use Rattle.std.specs.Prelude.{◌≡◌, ◌≤◌, ◌++◌, [], ℕ, List, length, take, IfOk, false};
ghost use Rattle.ud_model.specs.text.Scans.{Reading};
ghost use Rattle.ud_model.specs.sections.Tree.{Item, Tree, closed, nothing};
ghost use Rattle.ud_model.specs.sections.Items.{Options};
ghost use Rattle.ud_model.specs.sections.Faults.{end_fault};
ghost use Rattle.ud_model.specs.declared.limits.TheConstants.{MAX_LINES};
ghost use Rattle.ud_text.specs.lines.LinesState.{LinesRepresent};
ghost use Rattle.ud_model.specs.aids.LineViews.{as_line};
ghost use Rattle.ud_text.specs.bulk.BulkScanning.{AreWholeLines};
ghost use Rattle.ud_text.specs.lines.Consuming.{CanConsume};
ghost use Rattle.ud_sections.specs.sections.StepViews.{HoldsKeyword};
ghost use Rattle.ud_sections.specs.sections.MachineState.{end_fault_of};
ghost use Rattle.ud_sections.specs.sections.Transitions.{text_policy_of};
ghost use Rattle.ud_engine.specs.DecidedLines.{DeciderRepresents, DecidesNext, DecidesText};
ghost use Rattle.ud_engine.specs.DecidedLines.{CanBeDecided, consumed};
ghost use Rattle.ud_engine.specs.NameListing.{ListsNames};

use crate::listing::append_names;
use crate::output::Output;
use std::io::Write;
use ud_cond::Symbols;
use ud_io::Watched;
use ud_model::Settings;
use ud_sections::{Lister, Machine, SectionFault, Step, TextPolicy, directive};
use ud_text::{Line, LineBuffer, Lines, Scanner};

/// A scanner and a machine, which decide the lines of a text in order.
#[derive(Drop)]
pub(crate) struct LineDecider {
    scanner: Scanner<()>,
    pub(crate) machine: Machine,
}

impl LineDecider {
    /// Returns a decider before the first line.
    pub(crate) fn new(settings: Settings) -> LineDecider
        ensures { (o : Options) → o.settings ≡ settings →
            DeciderRepresents o result [] (closed nothing) }
    {
        LineDecider {
            scanner: Scanner::bare(),
            machine: Machine::new(settings),
        }
    }

    /// Decides the next line. Returns its step. `masked` is a buffer for the masked line.
    ///
    /// # Errors
    /// Fails if the line is faulty.
    #[inline(always)]
    pub(crate) fn decide<H: LineBuffer>(
        &mut self,
        line: &Line<'_>,
        symbols: &Symbols,
        masked: &mut H,
    ) -> Result<Step, SectionFault>
        requires { CanBeDecided H.CAPACITY (as_line line.now) }
        ensures decides { DecidesNext symbols.now self.old self.new (as_line line.now) result }
        ensures keyword { IfOk result (λ s. HoldsKeyword s line.now) }
    {
        // The compiler knows this scan, so most lines have a step of their own.
        if let Some(unmarked) = self.scanner.read_unmarked(line) {
            return self.machine.step(&unmarked, line, symbols);
        }
        let mode = self.machine.mode();
        let scan = self.scanner.read_into(mode, line, masked);
        self.machine.step(&scan, line, symbols)
    }

    /// Decides the next line, and appends `pending` and the line's names.
    ///
    /// # Errors
    /// Fails if the line is faulty. Nothing is appended.
    #[inline(never)]
    pub(crate) fn list_names<W: Write, H: LineBuffer>(
        &mut self,
        line: &Line<'_>,
        symbols: &Symbols,
        masked: &mut H,
        lister: &mut Lister,
        pending: &[u8],
        output: &mut Output,
        out: &mut Watched<W>,
    ) -> Result<(), SectionFault>
        requires { CanBeDecided H.CAPACITY (as_line line.now) }
        ensures { ListsNames W.contents symbols.now self.old self.new (as_line line.now)
            lister.old lister.new pending.now output.old output.new out.old out.new result }
    {
        let scan = self.scanner.read_into(self.machine.mode(), line, masked);
        let content = directive(&scan);
        self.machine.step_by(&scan, content, line, symbols)?;
        output.append(pending, out);
        let outer = self.machine.depth().saturating_sub(1);
        append_names(output, lister.prefix(outer), Lister::names_in(content), out);
        Ok(())
    }

    /// Consumes the longest prefix of `bytes` that is recognized as text lines, and returns its
    /// length. `policy` comes from the machine's `text_policy`.
    ///
    /// `bytes` are the next whole lines. The result is 0 or the end of a line.
    pub(crate) fn skip_text<H: LineBuffer>(
        &mut self,
        policy: TextPolicy,
        bytes: &[u8],
        lines: &mut Lines<H>,
    ) -> usize
        requires policy { policy ≡ text_policy_of self.old.machine }
        requires run { CanConsume lines.old bytes.now }
        requires goes_on { lines.old.closed ≡ false }
        requires limit { lines.old.last_line ≤ MAX_LINES }
        ensures bound { result ≤ length bytes.now }
        ensures ends { AreWholeLines (take result bytes.now) }
        ensures consumed { lines.new ≡ consumed lines.old (take result bytes.now) }
        ensures represents { (text : List ℕ) → LinesRepresent lines.old text →
            LinesRepresent lines.new (text ++ take result bytes.now) }
        ensures read { DecidesText self.old self.new lines.old (take result bytes.now) }
    {
        let count = self.scanner.skip_text(policy.mode, bytes);
        if count == 0 {
            return 0;
        }
        let last = lines.consume(&bytes[..count]);
        let _ = self.machine.step_text(last);
        count
    }

    /// Checks the end of the text.
    ///
    /// # Errors
    /// Fails if the text ends in a block comment, or else in a section.
    pub(crate) fn finish(&self) -> Result<(), SectionFault>
        ensures { (o : Options) → (xs : List (Item Reading)) → (t : Tree Reading) →
            DeciderRepresents o self.now xs t → end_fault_of result ≡ end_fault xs t }
    {
        self.machine.finish(self.scanner.in_comment())
    }
}
