//! The fault of a text that exceeds a limit.

/// A limit that a text exceeds.
#[derive(Clone, Copy, Debug, PartialEq, Eq)]
pub enum TextFault {
    /// A byte came after the last line that the text may have.
    TooManyLines {
        /// The number of that line.
        line: u32,
    },
    /// A line has more bytes than it may have, its ending included.
    LineTooLong {
        /// The number of that line.
        line: u32,
    },
}
