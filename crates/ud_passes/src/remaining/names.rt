//! The names in a text that symbols have.

ghost use Rattle.std.specs.Prelude.{◌≡◌, ◌&&◌, ◌≤◌, ◌⊎◌, List, ℕ, true, false, length, bytes_eq};
ghost use Rattle.std.specs.List.{list_any};
ghost use Rattle.ud_model.specs.conditions.Conditions.{is_listed};
ghost use Rattle.ud_model.specs.conditions.Names.{names_of};
ghost use Rattle.ud_model.specs.conditions.Table.{Argument};
ghost use Rattle.ud_model.specs.declared.limits.TheConstants.{MAX_LINE_BYTES};
ghost use Rattle.ud_cond.specs.symbols.Marks.{Unmarks, is_marked};
ghost use Rattle.ud_cond.specs.symbols.SymbolTable.{TableRepresents, LacksNames, MustSearch};
ghost use Rattle.ud_passes.specs.remaining.ListedNames.{has_listed, has_word, ends_in_word};
ghost use Rattle.ud_passes.specs.remaining.ListedNames.{begins_ending, splits_word};

use memchr::memchr;
use ud_cond::{Symbols, names};
use ud_model::Kind;
use ud_model::bytes::{is_word_byte, word_len};

/// Returns whether a symbol has this name.
pub(crate) fn is_listed(symbols: &Symbols, name: &[u8]) -> bool
    ensures { (calls : List Argument) → TableRepresents symbols.now calls →
        result ≡ is_listed calls name.now }
{
    symbols.find(name).is_some()
}

/// Returns whether a word of a text is a symbol's name.
pub(crate) fn has_listed(symbols: &Symbols, text: &[u8]) -> bool
    ensures { (calls : List Argument) → TableRepresents symbols.now calls →
        result ≡ has_listed calls false text.now }
{
    let mut rest = text;
    while let Some((first, others)) = rest.split_first() {
        if is_word_byte(*first) {
            let (word, after) = rest.split_at(word_len(rest));
            if is_listed(symbols, word) {
                return true;
            }
            rest = after;
        } else {
            rest = others;
        }
    }
    false
}

/// Returns whether a mark is set.
fn has_mark(marks: &[bool]) -> bool
    ensures { result ≡ list_any (λ m. m) marks.now }
{
    marks.iter().any(|mark| *mark)
}

/// Empties the marks if none is set, so that no later text is searched for a name.
pub(crate) fn drop_unset(marks: &mut Vec<bool>)
    ensures { (rows : List Argument) (name : List ℕ) →
        is_marked rows marks.new.items name ≡ is_marked rows marks.old.items name }
{
    if !has_mark(marks.as_slice()) {
        marks.clear();
    }
}

/// Takes away the marks of the rows whose names are words of a text.
pub(crate) fn unmark_words(symbols: &Symbols, text: &[u8], marks: &mut Vec<bool>)
    ensures { Unmarks symbols.now (λ n. has_word (bytes_eq n) false text.now) marks.old.items
        marks.new.items }
{
    let mut rest = text;
    while let Some((first, others)) = rest.split_first() {
        if is_word_byte(*first) {
            let (word, after) = rest.split_at(word_len(rest));
            symbols.unmark(word, marks);
            rest = after;
        } else {
            rest = others;
        }
    }
}

/// Returns whether a word may go on over a backslash between these bytes: it ends a line, and a
/// word byte precedes it.
fn is_split(before: &[u8], after: &[u8]) -> bool
    ensures { result ≡ (ends_in_word false before.now && begins_ending after.now) }
{
    match before {
        [.., last] if is_word_byte(*last) => after.starts_with(b"\n") || after.starts_with(b"\r"),
        _ => false,
    }
}

/// Returns whether a word may go on over a backslash at the end of a line.
fn splits_word(text: &[u8]) -> bool
    ensures { result ≡ splits_word false text.now }
{
    let mut at = 0;
    while at < text.len() {
        let Some(count) = memchr(b'\\', &text[at..]) else {
            return false;
        };
        let end = at + count;
        if is_split(&text[at..end], &text[end + 1..]) {
            return true;
        }
        at = end + 1;
    }
    false
}

/// Returns whether a text may have a mention that names a symbol; `false` only if it has none.
///
/// A name stands in the text, unless it goes on over the end of a line.
pub(crate) fn may_name(symbols: &Symbols, text: &[u8]) -> bool
    ensures lacks { (calls : List Argument) → TableRepresents symbols.now calls →
        result ≡ false → LacksNames calls text.now }
    ensures unsplit { result ≡ false → splits_word false text.now ≡ false }
    ensures must { result ≡ true →
        MustSearch symbols.now text.now ⊎ (splits_word false text.now ≡ true) }
{
    symbols.may_stand_in(text) || splits_word(text)
}

/// Returns whether an operand of an `#if` or `#elif` is a symbol's name.
pub(crate) fn has_listed_operand(symbols: &Symbols, kind: Kind, text: &[u8]) -> bool
    requires fits { length text.now ≤ MAX_LINE_BYTES }
    ensures { (calls : List Argument) → TableRepresents symbols.now calls →
        result ≡ list_any (is_listed calls) (names_of kind text.now) }
{
    for name in names(kind, text) {
        if is_listed(symbols, name) {
            return true;
        }
    }
    false
}
