//! A flag for each token of a text.

ghost use Rattle.std.specs.Prelude.{◌≡◌, ◌<◌, ◌+◌, List, Bool, ◌∷◌, ◌++◌, [], length, replicate};
ghost use Rattle.ud_model.specs.declared.limits.TheConstants.{MAX_LINE_BYTES};

use arrayvec::ArrayVec;
use std::marker::Model;
use ud_model::MAX_LINE_BYTES;

/// A flag for each token of a text of at most `MAX_LINE_BYTES`.
#[derive(Drop)]
pub struct TokenFlags {
    /// The flags, in the order of the tokens.
    flags: ArrayVec<bool, MAX_LINE_BYTES>,
}

impl Model for TokenFlags {
    ghost use Rattle.std.specs.Prelude.{List, Bool, length, ◌≤◌};
    ghost use Rattle.ud_model.specs.declared.limits.TheConstants.{MAX_LINE_BYTES};

    ghost Value = { List Bool };

    ghost view = { λ s. s.flags.items };

    ghost invariant = { λ s. length s.flags.items ≤ MAX_LINE_BYTES };
}

impl TokenFlags {
    /// Returns no flags.
    pub fn new() -> TokenFlags
        ensures { result ≡ [] }
    {
        TokenFlags {
            flags: ArrayVec::new(),
        }
    }

    /// Removes all flags.
    pub(crate) fn clear(&mut self)
        ensures { self.new ≡ [] }
    {
        self.flags.clear();
    }

    /// Returns the flags, in the order of the tokens.
    pub fn as_slice(&self) -> &[bool]
        ensures { result.now ≡ self.now }
    {
        self.flags.as_slice()
    }

    /// Returns the number of flags.
    pub(crate) fn len(&self) -> usize
        ensures { result ≡ length self.now }
    {
        self.flags.len()
    }

    /// Appends a flag.
    pub(crate) fn push(&mut self, flag: bool)
        requires { length self.old < MAX_LINE_BYTES }
        ensures { self.new ≡ self.old ++ flag ∷ [] }
    {
        self.flags.push(flag);
    }

    /// Sets the flags from `start` up to `end`, if there are as many.
    pub(crate) fn fill(&mut self, start: usize, end: usize, flag: bool)
        ensures filled { (front middle back : List Bool) → self.old ≡ front ++ middle ++ back →
            start ≡ length front → end ≡ length front + length middle →
            self.new ≡ front ++ replicate (length middle) flag ++ back }
        ensures long { length self.new ≡ length self.old }
    {
        if start <= end && end <= self.flags.len() {
            self.flags.as_mut_slice()[start..end].fill(flag);
        }
    }
}
