//! The faults of the sections of a text.

/// A fault of the sections of a text.
#[derive(Clone, Copy, Debug, PartialEq, Eq)]
pub enum SectionFault {
    /// An `#elif`, `#elifdef` or `#elifndef` outside a section, or after its `#else`.
    InappropriateElif {
        /// The number of its line.
        line: u32,
    },
    /// An `#else` outside a section, or after its `#else`.
    InappropriateElse {
        /// The number of its line.
        line: u32,
    },
    /// An `#endif` outside a section.
    InappropriateEndif {
        /// The number of its line.
        line: u32,
    },
    /// More sections are opened than may be open at once.
    TooManyLevels {
        /// The number of the line that opens it.
        line: u32,
    },
    /// A directive that continues on another line would have to be removed or edited, or its
    /// keyword is cut.
    Obfuscated {
        /// The number of the directive's line.
        line: u32,
    },
    /// The text ends in a section.
    PrematureEof {
        /// The number of the last line.
        line: u32,
        /// The number of the line with the first directive of the innermost open section.
        if_line: u32,
    },
    /// The text ends in a block comment.
    EofInComment {
        /// The number of the last line.
        line: u32,
    },
}
