//! The calls of a directory, for types that implement `Directory`.

ghost use Rattle.std.specs.Prelude.{◌≡◌, List, [], ◌∷◌};
ghost use Rattle.std.specs.Borrow.{ftrue};
ghost use Rattle.ud_replace.specs.Calls.{Call};

use crate::call::DirectoryCall;
use std::marker::Model;

/// The calls of a directory with their answers. It takes no memory: only contracts read it.
///
/// Nothing ties it to the actual system calls. A type that implements `Directory` appends each call
/// that it makes.
#[derive(Drop)]
pub struct History {
    /// The calls, the newest first.
    pub ghost calls: { List Call },
}

impl Model for History {
    ghost also_owns = { λ _. ftrue };
}

impl History {
    ghost use Rattle.ud_replace.specs.CallRecords.{call_of};

    /// Returns the history without calls.
    pub fn new() -> History
        ensures { result.calls ≡ [] }
    {
        History {}
    }

    /// Returns this history with one more call.
    pub fn with(&self, _call: &DirectoryCall<'_>) -> History
        ensures { result.calls ≡ call_of _call.now ∷ self.now.calls }
    {
        History {}
    }
}
