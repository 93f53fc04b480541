//! The lines of the source that define or undefine a symbol.
//!
//! Such a line is a text line, and text lines are skipped many at once. So the bytes of a text are
//! searched for a `#` with a definition after it. No line before it can have one.

ghost use Rattle.std.specs.Prelude.{◌≡◌, ◌≤◌, List, length};
ghost use Rattle.ud_model.specs.conditions.Table.{Argument};
ghost use Rattle.ud_cond.specs.symbols.SymbolTable.{TableRepresents};
ghost use Rattle.ud_passes.specs.remaining.Definitions as spec;
ghost use Rattle.ud_model.specs.text.Bytes.{skip_white, leading_word};
ghost use Rattle.ud_model.specs.conditions.Conditions.{is_listed};
ghost use Rattle.ud_passes.specs.remaining.Definitions.{IsClear};

use crate::remaining::names::is_listed;
use memchr::memchr;
use ud_cond::Symbols;
use ud_model::bytes::{skip_white, word_len};

/// Returns whether a text begins, after white space, with the name of a symbol.
#[inline(always)]
fn begins_with_name(symbols: &Symbols, text: &[u8]) -> bool
    ensures { (calls : List Argument) → TableRepresents symbols.now calls →
        result ≡ is_listed calls (leading_word (skip_white text.now)) }
{
    let name = skip_white(text);
    is_listed(symbols, name.split_at(word_len(name)).0)
}

/// Returns whether a text, which follows a `#`, has such a word and then the name of a symbol. Most
/// definitions have one space between them.
fn defines_after(symbols: &Symbols, text: &[u8]) -> bool
    ensures { (calls : List Argument) → TableRepresents symbols.now calls →
        result ≡ spec.defines_after calls text.now }
{
    if let Some(after) = text.strip_prefix(b"define ".as_slice()) {
        return begins_with_name(symbols, after);
    }
    let text = skip_white(text);
    let (word, after) = text.split_at(word_len(text));
    let defines = word == b"define".as_slice() || word == b"undef".as_slice();
    defines && begins_with_name(symbols, after)
}

/// Returns whether a line begins with a `#` and a definition of a symbol.
pub(crate) fn defines(symbols: &Symbols, line: &[u8]) -> bool
    ensures { (calls : List Argument) → TableRepresents symbols.now calls →
        result ≡ spec.defines calls line.now }
{
    match skip_white(line).split_first() {
        Some((b'#', after)) => defines_after(symbols, after),
        _ => false,
    }
}

/// Returns the number of bytes before the first `#` with a definition of a symbol after it, or of
/// all bytes.
pub(crate) fn clear_len(symbols: &Symbols, text: &[u8]) -> usize
    ensures bound { result ≤ length text.now }
    ensures clear { (calls : List Argument) → TableRepresents symbols.now calls →
        IsClear calls result text.now }
{
    let mut at = 0;
    while at < text.len() {
        let Some(count) = memchr(b'#', &text[at..]) else {
            return text.len();
        };
        let sign = at + count;
        if defines_after(symbols, &text[sign + 1..]) {
            return sign;
        }
        at = sign + 1;
    }
    at
}
