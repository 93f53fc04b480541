//! The faults of a run.

use thiserror::Error;
use ud_sections::SectionFault;
use ud_text::TextFault;

/// The reason why a run ends before the end of its text, or the fault at its end.
///
/// The texts of `Display` may change.
#[derive(Clone, Copy, Debug, PartialEq, Eq, Error)]
pub enum RunFault {
    /// The text exceeds a limit.
    #[error("the text passes a limit")]
    Text(TextFault),
    /// A line is misplaced among the sections, or the text ends in a section or in a comment.
    #[error("the sections are faulty")]
    Section(SectionFault),
    /// A read failed.
    #[error("a read failed")]
    Read,
    /// A write failed.
    #[error("a write failed")]
    Write,
}
