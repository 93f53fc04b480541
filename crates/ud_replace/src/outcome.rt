//! The outcome of a text: the output for it, and what became of each of its lines.
//!
//! If conditions are pruned, the run goes over the text with each directive on one line (`fold`),
//! and its output is restored. Two checks show that only what the run decides is lost: restoring
//! the folded text gives the text, and folding the restored output gives the output. If a check
//! fails, or if the folded text has a fault, the run goes over the text itself. Blank lines are
//! squeezed last, by the marks of the lines that the run went over.

ghost use Rattle.std.specs.Prelude.{◌≡◌, ◌&&◌, ◌⊎◌, false, true, IfOk, MatchResult};
ghost use Rattle.ud_args.specs.Plans.{ForOptionsOf};
ghost use Rattle.ud_replace.specs.MadeOutcomes.{FoldsInto, IsFoldedBy, IsItself, IsMade};
ghost use Rattle.ud_replace.specs.MadeOutcomes.{IsPrunedBy, IsSameText, RestoresTo, asks_first};
ghost use Rattle.ud_replace.specs.MadeOutcomes.{has_marks, output_in};
ghost use Rattle.ud_replace.specs.TextOutcomes as spec;
ghost use Rattle.ud_replace.specs.TextOutcomes.{FailsBy, FailsOver, HasMarkedOutcome, HasPrinted};
ghost use Rattle.ud_replace.specs.TextOutcomes.{HasUnsqueezed, IsPlanned, TextOptions, error_of};
ghost use Rattle.ud_replace.specs.TextOutcomes.{is_off};
ghost use Rattle.ud_replace.specs.UnprunedRuns.{FailsUnpruned, IsSpared, IsUnnamed, RunsUnpruned};

use crate::error::ReplaceError;
use crate::folded_marks::marks_by;
use crate::line_marks::marks_of;
use crate::text_plan::TextPlan;
use std::alloc::{AllocError, Global};
use std::io::sink;
use ud_args::Plan;
use ud_cond::Rules;
use ud_engine::{RunFault, Watched, run};
use ud_model::{Listing, Settings};
use ud_passes::{fold, is_untouched, prune, restore, squeeze};

/// The outcome of a text without a fault.
#[derive(Drop)]
pub struct Outcome {
    /// The output, unless it is the text itself.
    pub output: Option<Vec<u8>>,
    /// A mark for each line of the text, if the output differs and marks are wanted.
    pub marks: Vec<u8>,
    /// True if the output differs.
    pub differs: bool,
    /// The number of conditions of the output that lost operands.
    pub edited: usize,
}

impl Outcome {
    /// Returns the outcome of a text that stays as it is.
    pub(crate) fn unchanged(alloc: Global) -> Outcome
        ensures { IsSameText result }
    {
        Outcome {
            output: None,
            marks: Vec::new(alloc),
            differs: false,
            edited: 0,
        }
    }

    /// Returns the output for the text, of which this is the outcome.
    pub fn output_for<'a>(&'a self, text: &'a [u8]) -> &'a [u8]
        ensures { result.now ≡ output_in self.now text.now }
    {
        match &self.output {
            Some(output) => output.as_slice(),
            None => text,
        }
    }

    /// Returns the same outcome, without the output if that is the text.
    fn sparing(self, text: &[u8]) -> Outcome
        ensures output { output_in result text.now ≡ output_in self text.now }
        ensures rest { (result.marks ≡ self.marks) × (result.differs ≡ self.differs) ×
            (result.edited ≡ self.edited) }
    {
        if self.output_for(text) == text {
            Outcome {
                output: None,
                ..self
            }
        } else {
            self
        }
    }
}

/// Returns the outcome of a text, as the plan asks.
///
/// # Errors
/// `Text` if the text has a fault. `OutOfMemory` if memory can't be allocated.
pub fn outcome_of(alloc: Global, plan: &TextPlan, text: &[u8]) -> Result<Outcome, ReplaceError>
    ensures { (o : TextOptions) → IsPlanned plan.now o → MatchResult result
        (IsMade o text.now (has_marks plan.now) (HasMarkedOutcome o text.now))
        (FailsOver o text.now) }
{
    if is_copied(plan, text) {
        return Ok(Outcome::unchanged(alloc));
    }
    let spared = is_spared(alloc, plan, text)?;
    if spared && stays(plan, text)? {
        return Ok(Outcome::unchanged(alloc));
    }
    let lines = unsqueezed(alloc, plan, text, spared)?;
    let outcome = squeezed(alloc, plan, text, lines)?;
    Ok(outcome.sparing(text))
}

/// Returns whether pruning is known to give the text itself, since no symbol's name stands in the
/// text and the run over it has no fault. Most files are such texts, and a search tells it sooner
/// than `is_spared`.
fn is_copied(plan: &TextPlan, text: &[u8]) -> bool
    ensures { result ≡ true → (o : TextOptions) → IsPlanned plan.now o →
        IsItself o text.now (has_marks plan.now) }
{
    if !plan.prunes || !is_unnamed(plan, text) {
        return false;
    }
    match stays(plan, text) {
        Ok(same) => same,
        Err(_) => false,
    }
}

/// Returns whether no condition of a text is known to be decided, since no symbol's name stands in
/// the text. The lines that stay are those that are printed.
fn is_unnamed(plan: &TextPlan, text: &[u8]) -> bool
    ensures { result ≡ true → (o : TextOptions) → IsPlanned plan.now o → IsUnnamed o text.now }
{
    let settings = plan.run.settings();
    !settings.constants && !settings.complement && !plan.run.symbols().may_stand_in(text)
}

/// Returns whether it is known that pruning, if the plan asks for it, leaves a text as it is.
///
/// # Errors
/// Fails if memory runs out.
fn is_spared(alloc: Global, plan: &TextPlan, text: &[u8]) -> Result<bool, AllocError>
    ensures { IfOk result (λ known. known ≡ true → (o : TextOptions) → IsPlanned plan.now o →
        IsSpared o text.now) }
{
    if !plan.prunes {
        return Ok(true);
    }
    let rules = Rules::of(plan.run.settings());
    is_untouched(alloc, text, plan.run.symbols(), rules)
}

/// Returns whether a run that writes nothing comes first, which tells if a text stays. It doesn't
/// tell that if names are listed or lines are numbered. For a diff alone the run with the output
/// isn't dearer.
fn asks_first(plan: &TextPlan) -> bool
    ensures { result ≡ asks_first plan.now }
{
    let settings = plan.run.settings();
    lists_none(settings) && !settings.renumber && (plan.prunes || !plan.marks)
}

/// Returns whether the output of the run over a text is known to be the text itself, by a run that
/// writes nothing.
///
/// # Errors
/// As `outcome_of`.
fn stays(plan: &TextPlan, text: &[u8]) -> Result<bool, ReplaceError>
    ensures { (o : TextOptions) → IsPlanned plan.now o → MatchResult result
        (λ same. same ≡ true → IsSpared o text.now ⊎ IsUnnamed o text.now →
        IsItself o text.now (has_marks plan.now))
        (λ e. IsSpared o text.now → FailsOver o text.now e) }
{
    if !asks_first(plan) {
        return Ok(false);
    }
    let mut reader = Watched::new(text);
    let mut nowhere = Watched::new(sink());
    match run(&plan.run, &mut reader, &mut nowhere) {
        Ok(differs) => Ok(!differs),
        Err(fault) => Err(error_of(fault)),
    }
}

/// Returns the outcome of a text with all blank lines. A text that is spared isn't folded.
///
/// # Errors
/// As `outcome_of`.
fn unsqueezed(
    alloc: Global,
    plan: &TextPlan,
    text: &[u8],
    spared: bool,
) -> Result<Outcome, ReplaceError>
    requires spared { spared ≡ true → (o : TextOptions) → IsPlanned plan.now o →
        IsSpared o text.now }
    ensures { (o : TextOptions) → IsPlanned plan.now o → MatchResult result
        (IsMade o text.now (has_marks plan.now) (HasUnsqueezed o text.now))
        (FailsBy (HasUnsqueezed o text.now)) }
{
    if !spared {
        match folded_outcome(alloc, plan, text)? {
            Some(outcome) => return Ok(outcome),
            None => {}
        }
    }
    let outcome = run_lines(alloc, plan, text)?;
    Ok(outcome)
}

/// Returns the outcome of a text by its folded text; `None` if the run has to take the text
/// unfolded.
///
/// # Errors
/// Fails if memory runs out.
fn folded_outcome(
    alloc: Global,
    plan: &TextPlan,
    text: &[u8],
) -> Result<Option<Outcome>, ReplaceError>
    ensures { (o : TextOptions) → IsPlanned plan.now o → MatchResult result
        (IsFoldedBy o text.now (has_marks plan.now)) (λ e. e ≡ ReplaceError.OutOfMemory) }
{
    if !plan.prunes || !may_fold(plan.run.settings()) {
        return Ok(None);
    }
    let Some(lines) = folded(alloc, text)? else {
        return Ok(None);
    };
    match run_lines(alloc, plan, lines.as_slice()) {
        Ok(outcome) => {
            let restored = restored_outcome(alloc, lines.as_slice(), outcome)?;
            Ok(restored)
        }
        Err(ReplaceError::Text(_)) => Ok(None),
        Err(_) => Err(ReplaceError::OutOfMemory),
    }
}

/// Returns whether a run with these settings reads C, and neither blanks nor numbers lines.
pub fn may_fold(settings: Settings) -> bool
    ensures { result ≡ spec.may_fold settings }
{
    !settings.plain && !settings.blank && !settings.renumber
}

/// Returns a text with each directive on one line, if that is another text and is restored to it.
///
/// # Errors
/// Fails if memory runs out.
pub fn folded(alloc: Global, text: &[u8]) -> Result<Option<Vec<u8>>, AllocError>
    ensures { IfOk result (FoldsInto text.now) }
{
    let lines = fold(alloc, text)?;
    if lines.as_slice() == text {
        return Ok(None);
    }
    let back = restore(alloc, lines.as_slice())?;
    if back.as_slice() != text {
        return Ok(None);
    }
    Ok(Some(lines))
}

/// Returns the outcome of the text that folded lines stand for, by the one of the run over them;
/// `None` if its output doesn't fold back.
///
/// # Errors
/// Fails if memory runs out.
fn restored_outcome(
    alloc: Global,
    lines: &[u8],
    ran: Outcome,
) -> Result<Option<Outcome>, AllocError>
    ensures { IfOk result (RestoresTo lines.now ran) }
{
    let output = ran.output_for(lines);
    let back = restore(alloc, output)?;
    let again = fold(alloc, back.as_slice())?;
    if again.as_slice() != output {
        return Ok(None);
    }
    let marks = marks_by(alloc, ran.marks.as_slice(), lines, output)?;
    Ok(Some(Outcome {
        output: Some(back),
        marks,
        differs: ran.differs,
        edited: ran.edited,
    }))
}

/// Returns the outcome of the run over a text as it is, with pruned conditions if the plan asks for
/// that.
///
/// # Errors
/// As `outcome_of`.
fn run_lines(alloc: Global, plan: &TextPlan, text: &[u8]) -> Result<Outcome, ReplaceError>
    ensures { (o : TextOptions) → IsPlanned plan.now o → MatchResult result
        (IsMade o text.now (has_marks plan.now) (HasPrinted o text.now))
        (FailsBy (HasPrinted o text.now)) }
{
    let mut ran = Watched::new(Vec::<u8>::new(alloc));
    let differs = run_over(&plan.run, text, &mut ran)?;
    let mut outcome = pruned(alloc, plan, ran.into_inner(), differs)?;
    if needs_marks(plan, outcome.differs) {
        outcome.marks = marks_of(alloc, &plan.run, text)?;
    }
    Ok(outcome)
}

/// Returns whether the marks of a text are needed, whose output differs or doesn't: for a diff, or
/// to squeeze blank lines.
fn needs_marks(plan: &TextPlan, differs: bool) -> bool
    ensures { result ≡ (differs && has_marks plan.now && is_off plan.now.run.settings.listing) }
{
    differs && (plan.marks || plan.squeezes) && lists_none(plan.run.settings())
}

/// Returns whether a run with these settings lists no names.
fn lists_none(settings: Settings) -> bool
    ensures { result ≡ is_off settings.listing }
{
    matches!(settings.listing, Listing::Off)
}

/// Appends the output of the run over a text. Returns whether some line differs.
///
/// # Errors
/// `Text` if the text has a fault; the output up to it was appended. `OutOfMemory` if memory can't
/// be allocated.
pub fn run_over(plan: &Plan, text: &[u8], out: &mut Watched<Vec<u8>>) -> Result<bool, ReplaceError>
    requires not_failed { out.old.failed ≡ false }
    ensures { ForOptionsOf plan.now (λ o. MatchResult result
        (RunsUnpruned o text.now out.old.inner.items out.new.inner.items)
        (FailsUnpruned o text.now)) }
{
    let mut reader = Watched::new(text);
    match run(plan, &mut reader, out) {
        Ok(differs) => Ok(differs),
        Err(fault) => Err(error_of(fault)),
    }
}

/// Returns the outcome with this output of a run, without the operands of its conditions that the
/// symbols decide, if the plan prunes. It has no marks.
///
/// # Errors
/// Fails if memory runs out.
fn pruned(
    alloc: Global,
    plan: &TextPlan,
    output: Vec<u8>,
    differs: bool,
) -> Result<Outcome, AllocError>
    ensures { (o : TextOptions) → IsPlanned plan.now o →
        IfOk result (IsPrunedBy o output.items differs) }
{
    let marks = Vec::new(alloc);
    if !plan.prunes {
        return Ok(Outcome {
            output: Some(output),
            marks,
            differs,
            edited: 0,
        });
    }
    let rules = Rules::of(plan.run.settings());
    let left = prune(alloc, output.as_slice(), plan.run.symbols(), rules)?;
    Ok(Outcome {
        output: Some(left.text),
        marks,
        differs: differs || left.edited > 0,
        edited: left.edited,
    })
}

/// Returns an outcome without the blank lines that only stood there because of lines that went, if
/// the plan asks for that and the output differs.
///
/// # Errors
/// Fails if memory runs out.
fn squeezed(
    alloc: Global,
    plan: &TextPlan,
    text: &[u8],
    lines: Outcome,
) -> Result<Outcome, AllocError>
    ensures { (o : TextOptions) → IsPlanned plan.now o →
        IsMade o text.now (has_marks plan.now) (HasUnsqueezed o text.now) lines →
        IfOk result (IsMade o text.now (has_marks plan.now) (HasMarkedOutcome o text.now)) }
{
    if !plan.squeezes || !lines.differs || !lists_none(plan.run.settings()) {
        return Ok(lines);
    }
    let squeezed = squeeze(alloc, lines.output_for(text), lines.marks.as_slice())?;
    Ok(Outcome {
        output: Some(squeezed.text),
        marks: squeezed.marks,
        differs: true,
        edited: lines.edited,
    })
}

/// Returns the error of a file after a run over its text in memory.
fn error_of(fault: RunFault) -> ReplaceError
    ensures { result ≡ error_of fault }
{
    match fault {
        RunFault::Text(_) | RunFault::Section(_) => ReplaceError::Text(fault),
        RunFault::Read | RunFault::Write => ReplaceError::OutOfMemory,
    }
}
