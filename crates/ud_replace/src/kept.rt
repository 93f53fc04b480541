//! The text of a file, and its outcome.

ghost use Rattle.std.specs.Prelude.{◌≡◌, MatchResult};
ghost use Rattle.ud_replace.specs.TextOutcomes.{FailsOver, IsPlanned, TextOptions};

use crate::error::ReplaceError;
use crate::outcome::{Outcome, outcome_of};
use crate::text_plan::TextPlan;
use std::alloc::Global;

/// The text of a file, and its outcome.
#[derive(Drop)]
pub struct Kept {
    /// The text that was read.
    pub text: Vec<u8>,
    /// Its outcome, after `run`.
    pub outcome: Outcome,
}

impl Kept {
    ghost use Rattle.ud_replace.specs.MadeOutcomes.{IsFresh, RunsKept, output_of};

    /// Returns no text, and its outcome.
    pub fn new(alloc: Global) -> Kept
        ensures { IsFresh result }
    {
        Kept {
            text: Vec::new(alloc),
            outcome: Outcome::unchanged(alloc),
        }
    }

    /// Returns the output for the text.
    pub fn output(&self) -> &[u8]
        ensures { result.now ≡ output_of self.now }
    {
        self.outcome.output_for(self.text.as_slice())
    }

    /// Makes the outcome of the text, as the plan asks. Returns whether the output differs.
    ///
    /// # Errors
    /// As `outcome_of`. The outcome is as it was.
    pub fn run(&mut self, alloc: Global, plan: &TextPlan) -> Result<bool, ReplaceError>
        ensures text { self.new.text ≡ self.old.text }
        ensures ran { (o : TextOptions) → IsPlanned plan.now o → MatchResult result
            (RunsKept o plan.now self.new) (FailsOver o self.new.text.items) }
    {
        self.outcome = outcome_of(alloc, plan, self.text.as_slice())?;
        Ok(self.outcome.differs)
    }
}
