//! The verdict on a line.

/// The verdict on a line: whether it is printed, and how (unifdef(1)).
#[derive(Clone, Copy, Debug, PartialEq, Eq)]
pub enum Verdict {
    /// The line is printed as it is.
    Keep,
    /// The line is deleted.
    Remove,
    /// An `#elif`, `#elifdef` or `#elifndef` becomes an `#if`, `#ifdef` or `#ifndef`, since no
    /// group before it is left.
    ToIf,
    /// An `#elif`, `#elifdef` or `#elifndef` becomes an `#else`, since its condition is true.
    ToElse,
    /// The opener after such an `#else` becomes the `#endif`.
    ToEndif,
}

impl Verdict {
    ghost use Rattle.std.specs.Prelude.{◌≡◌};
    ghost use Rattle.ud_model.specs.sections.Pruning.{is_removed};

    /// Returns whether a line with this verdict is removed.
    pub fn is_removed(self) -> bool
        ensures { result ≡ is_removed self }
    {
        self == Verdict::Remove
    }
}
