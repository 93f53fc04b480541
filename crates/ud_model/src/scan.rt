//! The scan of a line.

use crate::kind::CommentAt;

/// The scan of a line: the line as it is read (C11 5.1.1.2, phases 2 and 3, and 6.4.9).
#[derive(Clone, Copy, Debug, PartialEq, Eq)]
pub struct Scan<'a> {
    /// The line's body without a splice's backslash, each byte of a comment shown as a space. Each
    /// byte keeps its index in the body.
    pub masked: &'a [u8],
    /// On earlier lines, this logical line has only white masked bytes.
    pub fresh: bool,
    /// The line before joins this one.
    pub joins_before: bool,
    /// This line joins the next one, by a splice or a comment.
    pub joins_after: bool,
    /// The line ends in a backslash that deletes its ending.
    pub spliced: bool,
    /// The comment left open at the line's end, if any.
    pub comment: CommentAt,
}
