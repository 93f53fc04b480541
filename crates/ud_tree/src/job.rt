//! The context that all files of a run share.

ghost use Rattle.std.specs.Prelude.{◌≡◌, ◌&&◌};
ghost use Rattle.ud_replace.specs.TextOutcomes as spec;
ghost use Rattle.ud_tree.specs.Remainders.{mode_of};

use crate::arguments::Arguments;
use std::alloc::Global;
use ud_model::Mode;
use ud_replace::may_fold;

/// The arguments of a run, and what it may use.
#[derive(Clone, Copy)]
pub struct Job<'a> {
    /// The allocator for all that the run keeps.
    pub alloc: Global,
    /// The arguments of the run.
    pub arguments: &'a Arguments,
    /// True if the error stream is a terminal, which shows how many files are done.
    pub is_terminal: bool,
}

impl Job<'_> {
    /// Returns the mode in which lines are read.
    pub(crate) fn mode(&self) -> Mode
        ensures { result ≡ mode_of self.now.arguments.now }
    {
        if self.arguments.plan.run.settings().plain {
            Mode::Plain
        } else {
            Mode::C
        }
    }

    /// Returns whether the run over a text goes over the folded text, if that goes back.
    pub(crate) fn folds(&self) -> bool
        ensures { result ≡ (self.now.arguments.now.plan.prunes &&
            spec.may_fold self.now.arguments.now.plan.run.settings) }
    {
        let plan = &self.arguments.plan;
        plan.prunes && may_fold(plan.run.settings())
    }
}
