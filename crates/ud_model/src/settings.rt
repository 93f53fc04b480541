//! The options other than those that name symbols.

/// The list that is printed in place of the text.
#[derive(Clone, Copy, Debug, PartialEq, Eq, Default)]
pub enum Listing {
    /// No list: the text is printed.
    #[default]
    Off,
    /// The names of the conditions (`-s`).
    Names,
    /// The names, each after the depth of its section (`-S`).
    Depths,
}

/// The exit status of a text without a fault (`-x`).
#[derive(Clone, Copy, Debug, PartialEq, Eq, Default)]
pub enum ExitMode {
    /// 0 if the output is a copy, 1 if some line differs (`-x0`).
    #[default]
    Zero,
    /// 1 if the output is a copy, 0 if some line differs (`-x1`).
    One,
    /// 0 in both cases (`-x2`).
    Two,
}

/// The options other than those that name symbols, as given (unifdef(1)). The default is none.
#[derive(Clone, Copy, Debug, PartialEq, Eq, Default)]
pub struct Settings {
    /// Strings, comments and continuations are ignored everywhere (`-t`).
    pub plain: bool,
    /// Expressions that name no listed symbol are evaluated too (`-k`).
    pub constants: bool,
    /// `&&` and `||` are unknown if either operand is (`-K`).
    pub strict: bool,
    /// Removed lines are blanked rather than deleted (`-b`, `-l`).
    pub blank: bool,
    /// Lines that would be removed are kept, and vice versa (`-c`).
    pub complement: bool,
    /// A `#line` directive follows deleted lines (`-n`).
    pub renumber: bool,
    /// No spaces replace the bytes that are lost if an `#elif` becomes an `#if` (`-p` of
    /// unifdef-tree).
    pub unpadded: bool,
    /// The list that is printed in place of the text (`-s`, `-S`).
    pub listing: Listing,
    /// The meaning of the exit status (`-x`).
    pub exit_mode: ExitMode,
}
