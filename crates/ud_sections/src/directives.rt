//! The directive of a line, as parsed.

use crate::sections::Span;
use ud_model::Kind;

mod keywords;
pub(crate) mod parse_directive;

/// A directive on a line (C11 6.10).
#[derive(Clone, Copy, Debug, PartialEq, Eq)]
pub struct Directive<'a> {
    /// The kind of directive.
    pub kind: Kind,
    /// The span of its keyword in the line's body.
    pub keyword: Span,
    /// The masked bytes after the keyword.
    pub after: &'a [u8],
    /// A continuation cuts the directive: the line is spliced outside comments.
    pub broken: bool,
}

/// The error that the keyword of a directive can't be known, since a continuation may split it.
#[derive(Clone, Copy, Debug, PartialEq, Eq)]
pub struct Cut;
