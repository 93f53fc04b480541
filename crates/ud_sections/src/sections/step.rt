//! The decision on a line, and the span of its keyword.

use ud_model::Verdict;

/// A range of bytes in a line's body.
#[derive(Clone, Copy, Debug, PartialEq, Eq)]
pub struct Span {
    /// The number of bytes before it.
    pub at: usize,
    /// Its length in bytes.
    pub len: usize,
}

/// The decision on a line.
#[derive(Clone, Copy, Debug, PartialEq, Eq)]
pub struct Step {
    /// The verdict: the line is kept, removed, or turned into another directive.
    pub verdict: Verdict,
    /// The span of its directive's keyword in the body; 0 and 0 for a text line.
    pub keyword: Span,
}
