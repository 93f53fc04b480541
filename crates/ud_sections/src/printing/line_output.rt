//! The output for a line, by its verdict.

/// The output for a line, as far as its verdict decides that.
#[derive(Clone, Copy, Debug, PartialEq, Eq)]
pub enum LineOutput {
    /// The line as it is.
    Whole,
    /// Nothing.
    Nothing,
    /// The line's ending.
    Ending,
    /// The verdict doesn't decide: pass the line to `pieces`.
    Parts,
}
