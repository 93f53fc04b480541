//! What the open sections decide about the text in them.

use ud_model::{Mode, Verdict};

/// How to scan the next line, and its verdict if it is text. Only the open sections decide this, so
/// all lines up to the next directive have the same policy.
#[derive(Clone, Copy, Debug, PartialEq, Eq)]
pub struct TextPolicy {
    /// The mode to scan the next line in.
    pub mode: Mode,
    /// The verdict of the next line, if it is text.
    pub verdict: Verdict,
}
