//! Decides whether a `#` may belong to a directive, by the bytes around it.
//!
//! It doesn't if a word other than a keyword follows, or if its logical line isn't white before it
//! (C11 6.10).

ghost use Rattle.std.specs.Prelude.{◌≡◌, ◌≤◌, ◌<◌, ◌-◌, length, take, drop, slice_index, true};
ghost use Rattle.std.specs.Prelude.{false, IfSome};
ghost use Rattle.ud_model.specs.text.Bytes.{is_white, are_white};
ghost use Rattle.ud_text.specs.bulk.BulkStates.{is_other_word};
ghost use Rattle.ud_text.specs.bulk.BulkLexemes.{IsWhiteAfter, NoSignificant};

use crate::searching::is_significant;
use ud_model::bytes::{is_white, skip_white};
use ud_model::keywords::is_no_keyword;

/// Returns whether the first two bytes of the first word, after white space, rule out a keyword. A
/// `#` before it then belongs to no directive.
pub fn is_other_word(bytes: &[u8]) -> bool
    ensures { result ≡ is_other_word bytes.now }
{
    match skip_white(bytes) {
        [first, second, ..] => is_no_keyword(*first, *second),
        _ => false,
    }
}

/// Returns how many leading bytes rule out a keyword: the white space before the first word, and
/// two bytes of it. None of these bytes is significant.
#[tactic(auto, using(crate::proofs::lemmas::bulk::NameLemmas::word_begins))]
pub(crate) fn other_word_len(bytes: &[u8]) -> Option<usize>
    ensures bound { IfSome result (λ n. n ≤ length bytes.now) }
    ensures plain { IfSome result (λ n. NoSignificant (take n bytes.now)) }
    ensures other { IfSome result (λ n. is_other_word (take n bytes.now) ≡ true) }
{
    let word = skip_white(bytes);
    if word.len() < 2 {
        return None;
    }
    if is_no_keyword(word[0], word[1]) && !is_significant(word[1]) {
        return Some(bytes.len() - word.len() + 2);
    }
    None
}

/// Returns the position where the trailing white space begins.
fn trailing_white_start(bytes: &[u8]) -> usize
    ensures bound { result ≤ length bytes.now }
    ensures white { are_white (drop result bytes.now) ≡ true }
    ensures black { 0 < result → is_white (slice_index bytes.now (result - 1)) ≡ false }
{
    let mut at = bytes.len();
    while at > 0 {
        // The byte is mostly a space.
        let byte = bytes[at - 1];
        if byte != b' ' && !is_white(byte) {
            return at;
        }
        at -= 1;
    }
    at
}

/// Returns whether the logical line is white after `bytes`, which have no comment. `begins`: the
/// logical line is white before them.
pub(crate) fn is_line_white_after(bytes: &[u8], begins: bool) -> bool
    ensures { IsWhiteAfter bytes.now begins result }
{
    let at = trailing_white_start(bytes);
    if at == 0 {
        return begins;
    }
    bytes[at - 1] == b'\n'
}
