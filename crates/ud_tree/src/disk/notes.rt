//! The calls of a tree, each with evidence for its answer.

ghost use Rattle.std.specs.Prelude.{◌≡◌, ◌∷◌, []};
ghost use Rattle.std.specs.List.{All};
ghost use Rattle.ud_replace.specs.CallRecords.{call_of};
ghost use Rattle.ud_tree.specs.EvidentCalls.{IsEvident};

use crate::disk::system::Changes;
use std::marker::PhantomData;
use ud_replace::{DirectoryCall, History};

/// The calls of a tree so far. A call is added only with the evidence for its answer.
#[derive(Drop)]
pub struct Notes<S: Changes> {
    pub history: History,
    system: PhantomData<S>,
    ghost evident: { ∥ All (IsEvident S.looking S.changing S.File.remaining S.Old.remaining
        S.Old.contents) history.calls ∥₁ },
}

impl<S: Changes> Notes<S> {
    /// Returns the notes before any call.
    pub(crate) fn new() -> Notes<S>
        ensures { result.history.calls ≡ [] }
    {
        Notes {
            history: History::new(),
            system: PhantomData,
        }
    }

    /// Adds a call.
    pub(crate) fn add(&mut self, call: &DirectoryCall<'_>)
        requires { IsEvident S.looking S.changing S.File.remaining S.Old.remaining
            S.Old.contents (call_of call.now) }
        ensures { self.new.history.calls ≡ call_of call.now ∷ self.old.history.calls }
    {
        self.history = self.history.with(call);
    }
}
