//! The keyword that a text begins with (C11 6.10.1, C23 6.10).
//!
//! `ud_model::keywords` has the table of keywords. `common_keyword` is a fast test for most of
//! them, proved to agree with the table.

ghost use Rattle.std.specs.Prelude.{◌≡◌, [], IfSome, IfNone, None};
ghost use Rattle.ud_model.specs.text.Bytes.{leading_word, skip_word};
ghost use Rattle.ud_model.specs.sections.Directives.{kind_of};
ghost use Rattle.ud_sections.specs.directives.Keywords.{IsLeadingKeyword};

use ud_model::Kind;
use ud_model::bytes::{is_word_byte, word_len};
use ud_model::keywords::kind_of;

/// A keyword that a text begins with.
#[derive(Clone, Copy)]
pub(crate) struct Keyword {
    /// The kind of its directive.
    pub(crate) kind: Kind,
    /// Its length in bytes.
    pub(crate) len: usize,
}

/// Returns the keyword that `rest` begins with, if its first word is one.
#[inline(always)]
pub(crate) fn leading_keyword(rest: &[u8]) -> Option<Keyword>
    ensures some { IfSome result (λ k. IsLeadingKeyword k rest.now) }
    ensures none { IfNone result (kind_of (leading_word rest.now) ≡ None) }
{
    if let Some(keyword) = common_keyword(rest) {
        return Some(keyword);
    }
    let len = word_len(rest);
    let kind = kind_of(&rest[..len])?;
    Some(Keyword { kind, len })
}

/// Returns the keyword that `rest` begins with, if it is a common one. Compares byte by byte,
/// without a search for the end of the word.
#[inline(always)]
fn common_keyword(rest: &[u8]) -> Option<Keyword>
    ensures { IfSome result (λ k. IsLeadingKeyword k rest.now) }
{
    match rest {
        [b'e', b'n', b'd', b'i', b'f', after @ ..] => whole_keyword(Kind::Endif, 5, after),
        [b'i', b'f', b'd', b'e', b'f', after @ ..] => whole_keyword(Kind::Ifdef, 5, after),
        [b'i', b'f', b'n', b'd', b'e', b'f', after @ ..] => whole_keyword(Kind::Ifndef, 6, after),
        [b'i', b'f', after @ ..] => whole_keyword(Kind::If, 2, after),
        [b'e', b'l', b's', b'e', after @ ..] => whole_keyword(Kind::Else, 4, after),
        [b'e', b'l', b'i', b'f', after @ ..] => whole_keyword(Kind::Elif, 4, after),
        _ => None,
    }
}

/// Returns the keyword of this kind and length, unless the word continues in `after`.
#[inline(always)]
fn whole_keyword(kind: Kind, len: usize, after: &[u8]) -> Option<Keyword>
    ensures { IfSome result (λ k. (k ≡ record { kind = kind; len = len }) ×
        (leading_word after.now ≡ []) × (skip_word after.now ≡ after.now)) }
{
    match after.first() {
        Some(byte) if is_word_byte(*byte) => None,
        _ => Some(Keyword { kind, len }),
    }
}
