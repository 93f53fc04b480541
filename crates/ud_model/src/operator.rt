//! The operators of an expression.

/// An operator of a condition's expression (C11 6.5.3 to 6.5.14, except operators that no constant
/// expression has).
///
/// `Minus` is binary or unary; `Not` and `Complement` are unary.
#[derive(Clone, Copy, Debug, PartialEq, Eq)]
pub enum Operator {
    /// `||`
    Or,
    /// `&&`
    And,
    /// `|`
    BitOr,
    /// `^`
    BitXor,
    /// `&`
    BitAnd,
    /// `==`
    Equal,
    /// `!=`
    NotEqual,
    /// `<`
    Less,
    /// `<=`
    LessEqual,
    /// `>`
    Greater,
    /// `>=`
    GreaterEqual,
    /// `+`
    Plus,
    /// `-`
    Minus,
    /// `*`
    Times,
    /// `/`
    Over,
    /// `%`
    Remainder,
    /// `!`
    Not,
    /// `~`
    Complement,
}
