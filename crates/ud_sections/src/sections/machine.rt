//! A machine that decides the lines of a text in order.
//!
//! A machine buffers no line and allocates no memory. For each open section it keeps a
//! `SectionState` and a few facts; for the lines, only the last one's number and whether it was
//! removed. The open sections change only after the module `check` has found no fault and decided
//! the line. `specs/sections/MachineState.antt` defines what a machine represents: a list of lines
//! and their tree.

ghost use Rattle.std.specs.Prelude.{◌≡◌, ◌≤◌, ◌<◌, ◌+◌, [], List, length, IsTrue, IfOk};
ghost use Rattle.std.specs.Prelude.{None, Some, Ok};
ghost use Rattle.arrayvec.specs.ArrayVec.{array_vec_len};
ghost use Rattle.ud_model.specs.text.Scans.{Reading};
ghost use Rattle.ud_model.specs.sections.Tree.{Item, Tree, closed, nothing, depth};
ghost use Rattle.ud_model.specs.sections.Directives.{content_of};
ghost use Rattle.ud_model.specs.sections.Items.{Options, mode_after};
ghost use Rattle.ud_model.specs.declared.limits.TheConstants.{MAX_LINE_BYTES, MAX_DEPTH};
ghost use Rattle.ud_model.specs.aids.LineViews.{as_line, as_scan};
ghost use Rattle.ud_sections.specs.directives.ParsedDirectives.{content_found, IsWithinScan};
ghost use Rattle.ud_sections.specs.sections.ClassifiedLines.{classified};
ghost use Rattle.ud_sections.specs.sections.Limits.{IsWithinLimits};
ghost use Rattle.ud_sections.specs.sections.StackOps.{applied, innermost_of};
ghost use Rattle.ud_model.specs.sections.Pruning.{is_removed};
ghost use Rattle.ud_sections.specs.sections.Checking.{opens_section};

use crate::directives::parse_directive::directive;
use crate::directives::{Cut, Directive};
use crate::sections::SectionFault;
use crate::sections::check::{LineContext, check_line};
use crate::sections::classify_line::classify;
use crate::sections::open_section::{Enclosing, OpenSection, StackOp};
use crate::sections::step::{Span, Step};
use crate::sections::text_policy::TextPolicy;
use arrayvec::ArrayVec;
use ud_cond::Symbols;
use ud_model::{Line, MAX_DEPTH, Mode, Scan, Settings, Verdict};

/// The step of a line, and its change of the open sections.
#[derive(Clone, Copy)]
struct Transition {
    /// The step.
    step: Step,
    /// The change of the open sections.
    change: StackOp,
}

/// A machine that decides lines in order: each is kept, removed, or turned into another directive.
#[derive(Drop)]
pub struct Machine {
    /// The settings for reading lines.
    settings: Settings,
    /// The open sections, the outermost first.
    open_sections: ArrayVec<OpenSection, MAX_DEPTH>,
    /// The last line was removed.
    removed: bool,
    /// The number of the last line, 0 before the first one.
    last: u32,
    /// The error that a failed `step` returned; the machine is then fused.
    fault: Option<SectionFault>,
}

impl Machine {
    ghost use Rattle.ud_sections.specs.sections.MachineState.{MachineRepresents, IsMachineStep};
    ghost use Rattle.ud_sections.specs.sections.MachineState.{StepsOverText, HasEndFault};
    ghost use Rattle.ud_sections.specs.sections.MachineState.{end_fault_of, machine_fault};
    ghost use Rattle.ud_sections.specs.sections.Transitions.{IsTransition, text_verdict};
    ghost use Rattle.ud_sections.specs.sections.Transitions.{text_policy_of};
    ghost use Rattle.ud_sections.specs.sections.EndFaults.{end_in};

    /// Creates a machine that has read no line.
    pub fn new(settings: Settings) -> Machine
        ensures represents { (o : Options) → o.settings ≡ settings →
            MachineRepresents result o [] (closed nothing) }
        ensures no_fault { machine_fault result ≡ None }
    {
        Machine {
            settings,
            open_sections: ArrayVec::new(),
            removed: false,
            last: 0,
            fault: None,
        }
    }

    /// Returns the mode to scan the next line in.
    pub fn mode(&self) -> Mode
        ensures { (o : Options) → (xs : List (Item Reading)) → (t : Tree Reading) →
            MachineRepresents self.now o xs t → result ≡ mode_after o t }
    {
        self.text_policy().mode
    }

    /// Returns the number of open sections, at most `MAX_DEPTH`.
    pub fn depth(&self) -> usize
        ensures value { (o : Options) → (xs : List (Item Reading)) → (t : Tree Reading) →
            MachineRepresents self.now o xs t → result ≡ depth t }
        ensures bound { result ≤ MAX_DEPTH }
    {
        self.open_sections.len()
    }

    /// Returns how to scan the next line, and its verdict if it is text.
    pub fn text_policy(&self) -> TextPolicy
        ensures value { result ≡ text_policy_of self.now }
        ensures fits { array_vec_len self.now.open_sections ≤ MAX_DEPTH }
    {
        let enclosing = self.enclosing();
        TextPolicy {
            mode: if enclosing.is_plain() {
                Mode::Plain
            } else {
                Mode::C
            },
            verdict: enclosing.text_verdict(),
        }
    }

    /// Decides the next line. Later lines never change the decision.
    ///
    /// `scan` is the scan of the line after all lines before it, in the mode that `mode` returns.
    /// The line's number and length must be within the limits of a text. `symbols` must give every
    /// name the same entry at each call.
    ///
    /// # Errors
    /// If the line is faulty, by the first of these cases:
    ///
    /// - The keyword of its directive can't be known.
    /// - It is a misplaced directive.
    /// - It opens one section too many.
    /// - It is a directive that spans lines and would have to be edited or removed.
    ///
    /// The open sections are unchanged, and every later `step` and `finish` returns the same error.
    ///
    /// # Examples
    /// ```rust
    /// let mut machine = Machine::new(plan.settings());
    /// let line = Line {
    ///     body: b"#ifdef A",
    ///     ending: b"\n",
    ///     number: 1,
    /// };
    /// let scan = scanner.read(machine.mode(), &line);
    /// println!(rt; "{:?}", machine.step(&scan, &line, plan.symbols()))?;
    /// ```
    /// ```text
    /// Ok(Step { verdict: Remove, keyword: Span { at: 1, len: 5 } })
    /// ```
    #[inline(always)]
    pub fn step(
        &mut self,
        scan: &Scan<'_>,
        line: &Line<'_>,
        symbols: &Symbols,
    ) -> Result<Step, SectionFault>
        requires fits { length scan.now.masked.now ≤ length line.now.body.now }
        requires within { IsWithinLimits (as_line line.now) }
        ensures { IsMachineStep self.old self.new (as_scan scan.now) line.now symbols.now result }
    {
        self.step_by(scan, directive(scan), line, symbols)
    }

    /// Decides the next line, as `step` does. `content` is what `directive` returns for `scan`. So
    /// a caller that needs it needn't parse the line twice.
    ///
    /// # Errors
    /// As `step`.
    #[inline(always)]
    pub fn step_by(
        &mut self,
        scan: &Scan<'_>,
        content: Result<Option<Directive<'_>>, Cut>,
        line: &Line<'_>,
        symbols: &Symbols,
    ) -> Result<Step, SectionFault>
        requires fits { length scan.now.masked.now ≤ length line.now.body.now }
        requires within { IsWithinLimits (as_line line.now) }
        requires content { content_found content ≡ content_of (as_scan scan.now) }
        requires keyword { IsWithinScan content (length scan.now.masked.now) }
        ensures { IsMachineStep self.old self.new (as_scan scan.now) line.now symbols.now result }
    {
        if let Some(fault) = self.fault {
            return Err(fault);
        }
        match self.transition(scan, content, line.number, symbols) {
            Ok(next) => {
                apply(&mut self.open_sections, next.change);
                self.removed = next.step.verdict.is_removed();
                self.last = line.number;
                Ok(next.step)
            }
            Err(fault) => {
                self.fault = Some(fault);
                Err(fault)
            }
        }
    }

    /// Checks the end of the text. `in_comment`: the text ends in a block comment.
    ///
    /// # Errors
    /// The error of a failed `step` again; else if the text ends in a block comment, or else in a
    /// section.
    pub fn finish(&self, in_comment: bool) -> Result<(), SectionFault>
        ensures value { HasEndFault self.now in_comment (end_fault_of result) }
        ensures fused { (f : SectionFault) → machine_fault self.now ≡ Some f → result ≡ Err f }
    {
        if let Some(fault) = self.fault {
            return Err(fault);
        }
        self.end_fault(in_comment)
    }

    /// Reads all lines up to number `last`, at least one, all of them text. Returns their verdict.
    #[tactic(auto, using(crate::proofs::lemmas::sections::MachineLemmas::reads_text))]
    pub fn step_text(&mut self, last: u32) -> Verdict
        ensures value { StepsOverText self.old self.new last result }
        ensures verdict { result ≡ text_verdict self.old }
        ensures policy { text_policy_of self.new ≡ text_policy_of self.old }
        ensures fault_unchanged { machine_fault self.new ≡ machine_fault self.old }
        ensures rest { self.new ≡ record self.old { removed = is_removed result; last = last } }
    {
        let verdict = self.text_policy().verdict;
        self.removed = verdict.is_removed();
        self.last = last;
        verdict
    }

    /// Returns the position of the next line among the sections.
    fn enclosing(&self) -> Enclosing
        ensures position { result ≡ record {
          section = innermost_of self.now.open_sections.items;
          plain = self.now.settings.plain;
        } }
        ensures fits { array_vec_len self.now.open_sections ≤ MAX_DEPTH }
    {
        Enclosing {
            section: self.open_sections.as_slice().last().copied(),
            plain: self.settings.plain,
        }
    }

    /// Returns the step of the next line, which has this content, and its change of the open
    /// sections.
    #[inline(always)]
    fn transition(
        &self,
        scan: &Scan<'_>,
        content: Result<Option<Directive<'_>>, Cut>,
        number: u32,
        symbols: &Symbols,
    ) -> Result<Transition, SectionFault>
        requires fits { length scan.now.masked.now ≤ MAX_LINE_BYTES }
        requires content { content_found content ≡ content_of (as_scan scan.now) }
        requires keyword { IsWithinScan content (length scan.now.masked.now) }
        ensures value { IsTransition self.now (as_scan scan.now) symbols.now number result }
        ensures keyword_within { IfOk result
            (λ next. next.step.keyword.at + next.step.keyword.len ≤ length
            scan.now.masked.now) }
        ensures fits { array_vec_len self.now.open_sections ≤ MAX_DEPTH }
        ensures has_space { IfOk result (λ next. IsTrue (opens_section next.change) →
            array_vec_len self.now.open_sections < MAX_DEPTH) }
    {
        let before = LineContext {
            enclosing: self.enclosing(),
            depth: self.open_sections.len(),
            removed: self.removed,
        };
        let found = match content {
            Ok(Some(found)) => found,
            Ok(None) => {
                return Ok(Transition {
                    step: Step {
                        verdict: before.enclosing.text_verdict(),
                        keyword: Span { at: 0, len: 0 },
                    },
                    change: StackOp::Stay,
                });
            }
            Err(_) => return Err(SectionFault::Obfuscated { line: number }),
        };
        let classified = classify(scan, &found, symbols, self.settings);
        let action = check_line(before, classified, number)?;
        Ok(Transition {
            step: Step {
                verdict: action.verdict,
                keyword: classified.keyword,
            },
            change: action.change,
        })
    }

    /// Checks the end of the text, by the innermost open section.
    fn end_fault(&self, in_comment: bool) -> Result<(), SectionFault>
        ensures { result ≡ end_in in_comment self.now.last
            (innermost_of self.now.open_sections.items) }
    {
        let line = self.last;
        if in_comment {
            return Err(SectionFault::EofInComment { line });
        }
        match self.enclosing().section {
            Some(inner) => Err(SectionFault::PrematureEof {
                line,
                if_line: inner.if_line,
            }),
            None => Ok(()),
        }
    }
}

/// Applies a line's change to the open sections.
#[inline(always)]
fn apply(open_sections: &mut ArrayVec<OpenSection, MAX_DEPTH>, change: StackOp)
    requires fits { array_vec_len open_sections.old ≤ MAX_DEPTH }
    requires has_space { IsTrue (opens_section change) →
        array_vec_len open_sections.old < MAX_DEPTH }
    ensures { open_sections.new.items ≡ applied change open_sections.old.items }
{
    match change {
        StackOp::Stay => {}
        StackOp::Push(inner) => open_sections.push(inner),
        StackOp::Replace(inner) => {
            let _ = open_sections.pop();
            open_sections.push(inner);
        }
        StackOp::Pop => {
            let _ = open_sections.pop();
        }
    }
}
