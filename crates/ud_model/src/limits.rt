//! The limits of a text. Code and definitions take them from here alone.

/// The most bytes of a line, with its ending.
pub const MAX_LINE_BYTES: usize = 65_536;

/// The most lines of a text.
pub const MAX_LINES: u32 = 2_147_483_647;

/// The most sections that are open at once.
pub const MAX_DEPTH: usize = 256;
