//! The modes in which lines are read, and the kinds of directives.

/// The mode in which a line is read.
#[derive(Clone, Copy, Debug, PartialEq, Eq)]
pub enum Mode {
    /// C mode: splices, comments and literals are recognized (C11 5.1.1.2).
    C,
    /// Plain mode: strings, comments and continuations are ignored (unifdef(1), `-t`).
    Plain,
}

/// The comment left open at a line's end (C11 6.4.9).
#[derive(Clone, Copy, Debug, PartialEq, Eq)]
pub enum CommentAt {
    /// No comment.
    Outside,
    /// A line comment that a splice continues.
    InLine,
    /// A block comment.
    InBlock,
}

/// A directive that unifdef acts on (C11 6.10.1, C23 6.10).
#[derive(Clone, Copy, Debug, PartialEq, Eq)]
pub enum Kind {
    /// `#if`
    If,
    /// `#ifdef`
    Ifdef,
    /// `#ifndef`
    Ifndef,
    /// `#elif`
    Elif,
    /// `#elifdef`
    Elifdef,
    /// `#elifndef`
    Elifndef,
    /// `#else`
    Else,
    /// `#endif`
    Endif,
}

/// The role of a directive in its section (C11 6.10).
#[derive(Clone, Copy, Debug, PartialEq, Eq)]
pub enum Role {
    /// Begins a section and opens its first group.
    IfGroup,
    /// Opens a further group, which has a condition.
    ElifGroup,
    /// Opens the last group, which has no condition.
    ElseGroup,
    /// Ends the section.
    EndifLine,
}

/// The test of the text after a keyword that makes the directive's condition true (C11 6.10.1).
#[derive(Clone, Copy, Debug, PartialEq, Eq)]
pub enum Test {
    /// The text is an expression whose value isn't 0.
    Nonzero,
    /// The text is a name that is defined.
    Defined,
    /// The text is a name that isn't defined.
    Undefined,
    /// There is no condition.
    Nothing,
}

impl Kind {
    ghost use Rattle.std.specs.Prelude.{◌≡◌};
    ghost use Rattle.ud_model.specs.sections.Directives.{role_of, test_of};

    /// Returns the role of a directive of this kind.
    pub fn role(self) -> Role
        ensures { result ≡ role_of self }
    {
        match self {
            Kind::If | Kind::Ifdef | Kind::Ifndef => Role::IfGroup,
            Kind::Elif | Kind::Elifdef | Kind::Elifndef => Role::ElifGroup,
            Kind::Else => Role::ElseGroup,
            Kind::Endif => Role::EndifLine,
        }
    }

    /// Returns the test of a directive of this kind.
    pub fn test(self) -> Test
        ensures { result ≡ test_of self }
    {
        match self {
            Kind::If | Kind::Elif => Test::Nonzero,
            Kind::Ifdef | Kind::Elifdef => Test::Defined,
            Kind::Ifndef | Kind::Elifndef => Test::Undefined,
            Kind::Else | Kind::Endif => Test::Nothing,
        }
    }
}
