//! The keywords of the directives that unifdef acts on (C11 6.10.1, C23 6.10).
//!
//! All code that looks for a keyword uses this table, or is proved against its definition:
//! `keywords` in `specs/sections/Directives.antt`. A new directive needs a row in both.

ghost use Rattle.std.specs.Prelude.{◌≡◌, map};
ghost use Rattle.ud_model.specs.sections.Directives as spec;

use crate::bytes::is_word_byte;
use crate::kind::Kind;

/// The keywords, each with the kind of its directive.
const KEYWORDS: [(&[u8], Kind); 8] = [
    (b"if", Kind::If),
    (b"ifdef", Kind::Ifdef),
    (b"ifndef", Kind::Ifndef),
    (b"elif", Kind::Elif),
    (b"elifdef", Kind::Elifdef),
    (b"elifndef", Kind::Elifndef),
    (b"else", Kind::Else),
    (b"endif", Kind::Endif),
];

/// Returns the kind of directive of a keyword, or `None` if the word is no keyword.
pub fn kind_of(word: &[u8]) -> Option<Kind>
    ensures { result ≡ spec.kind_of word.now }
{
    kind_among(&KEYWORDS, word)
}

/// Returns the kind in the first of `rows` with this word, or `None`.
fn kind_among(mut rows: &[(&[u8], Kind)], word: &[u8]) -> Option<Kind>
    ensures { result ≡ spec.kind_among (map (λ row. (row.0.now, row.1)) rows.entry.now) word.now }
{
    'rows: while let [row, others @ ..] = rows {
        if word == row.0 {
            return Some(row.1);
        }
        rows = others;
    }
    None
}

/// Returns whether a word is a prefix of a keyword, or a whole one.
pub fn is_prefix_of_keyword(word: &[u8]) -> bool
    ensures { result ≡ spec.is_prefix_of_keyword word.now }
{
    KEYWORDS.iter().any(|row| row.0.starts_with(word))
}

/// Returns whether a word that begins with `first` is neither a keyword nor a prefix of one.
/// `second` follows `first`, and needn't belong to the word.
///
/// Each keyword begins with `if`, `el` or `en`, so at most four comparisons decide. The table would
/// take two for each row.
#[inline(always)]
pub fn is_no_keyword(first: u8, second: u8) -> bool
    ensures { result ≡ spec.is_no_keyword first second }
{
    match first {
        b'i' => second != b'f' && is_word_byte(second),
        b'e' => second != b'l' && second != b'n' && is_word_byte(second),
        _ => is_word_byte(first),
    }
}
