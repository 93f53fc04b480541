//! Lengths of what is read at once outside block comments, each begun by a significant byte.
//!
//! A lexeme ends on the line where it begins. The result is `None` if its end isn't among the
//! bytes, or if a backslash may belong to a splice: the line is then read by itself.

ghost use Rattle.std.specs.Prelude.{◌≡◌, ◌≤◌, ◌<◌, ◌-◌, Bool, [], ◌∷◌, length, take, true};
ghost use Rattle.std.specs.Prelude.{slice_index};
ghost use Rattle.std.specs.Prelude.{false, IfSome, OnSome, IfOk, IfErr};
ghost use Rattle.ud_model.specs.text.Bytes.{slash, backslash, newline, is_quote};
ghost use Rattle.ud_text.specs.bulk.BulkLexemes.{is_significant, CodeLexeme, LineLexeme, IsSplice};
ghost use Rattle.ud_text.specs.bulk.BulkLexemes.{may_splice};

use crate::searching::is_significant;
use crate::searching::simd::find_any_of;
use memchr::memchr;

/// Returns whether `byte` is a quote.
pub(crate) fn is_quote(byte: u8) -> bool
    ensures { result ≡ is_quote byte }
{
    byte == b'"' || byte == b'\''
}

/// Returns the second byte, if it is insignificant outside comments and literals.
fn insignificant_second(rest: &[u8]) -> Option<u8>
    ensures within { OnSome result (2 ≤ length rest.now) }
    ensures second { IfSome result (λ byte. byte ≡ slice_index rest.now 1) }
    ensures plain { IfSome result (λ byte. is_significant byte ≡ false) }
{
    if rest.len() < 2 {
        return None;
    }
    let byte = rest[1];
    if is_significant(byte) {
        return None;
    }
    Some(byte)
}

/// Returns 2 for a slash and an insignificant byte, which together begin no comment. `None` if the
/// byte after the slash is significant.
#[tactic(auto, using(crate::proofs::lemmas::bulk::LexemeLemmas::slash_read))]
fn slash_len(rest: &[u8]) -> Option<usize>
    requires first { slice_index rest.now 0 ≡ slash }
    ensures bound { IfSome result (λ n. (0 < n) × (n ≤ length rest.now)) }
    ensures read { IfSome result (λ n. (white : Bool) → CodeLexeme white (take n rest.now)) }
{
    let byte = insignificant_second(rest)?;
    if byte == b'*' {
        return None;
    }
    Some(2)
}

/// Returns 2 for a backslash and an insignificant byte, which together begin no splice. `None` if
/// the byte after the backslash is significant.
fn backslash_len(rest: &[u8]) -> Option<usize>
    requires first { slice_index rest.now 0 ≡ backslash }
    ensures bound { IfSome result (λ n. (0 < n) × (n ≤ length rest.now)) }
    ensures read { IfSome result (λ n. (white : Bool) → CodeLexeme white (take n rest.now)) }
{
    let byte = insignificant_second(rest)?;
    if byte == b'\n' {
        return None;
    }
    if byte == b'\r' {
        return None;
    }
    Some(2)
}

/// Returns the length of a leading splice: a backslash and the ending that it deletes (C11 5.1.1.2,
/// phase 2).
pub(crate) fn splice_len(rest: &[u8]) -> Option<usize>
    ensures bound { IfSome result (λ n. (0 < n) × (n ≤ length rest.now)) }
    ensures splice { IfSome result (λ n. IsSplice (take n rest.now)) }
{
    if rest.starts_with(b"\\\n") {
        Some(2)
    } else if rest.starts_with(b"\\\r\n") {
        Some(3)
    } else {
        None
    }
}

/// Returns the length of a literal with this quote, up to its closing quote, or else with the
/// newline of its line (C11 6.4.4.4 and 6.4.5). `None` if that newline may belong to a splice.
pub(crate) fn literal_len(rest: &[u8], quote: u8) -> Option<usize>
    requires some { 0 < length rest.now }
    requires first { slice_index rest.now 0 ≡ quote }
    requires quote { is_quote quote ≡ true }
    ensures bound { IfSome result (λ n. (0 < n) × (n ≤ length rest.now)) }
    ensures read { IfSome result (λ n. (white : Bool) → CodeLexeme white (take n rest.now)) }
{
    let mut at = 1;
    while at < rest.len() {
        let end = at + find_any_of(&rest[at..], [quote, b'\\', b'\n', b'\n', b'\n']);
        if end >= rest.len() {
            return None;
        }
        if rest[end] == b'\n' {
            if rest[end - 1] == b'\\' {
                return None;
            }
            if rest[end - 1] == b'\r' {
                return None;
            }
            return Some(end + 1);
        }
        if rest[end] == quote {
            return Some(end + 1);
        }
        if end + 1 >= rest.len() {
            return None;
        }
        if rest[end + 1] == b'\n' {
            return None;
        }
        at = end + 2;
    }
    None
}

/// Returns whether a newline directly after these two bytes may end a splice.
fn may_splice(first: u8, second: u8) -> bool
    ensures { result ≡ may_splice first second }
{
    second == b'\\' || second == b'\r' && (first == b'\\' || first == b'\r')
}

/// The most slashes that `quoted_line_len` skips, except those that begin a block comment. Each
/// costs a search of its own.
const MOST_SLASHES: usize = 2;

/// Returns the length of the rest of a line with its newline, which begins with a quote outside
/// comments and literals. The next line begins outside them, too.
///
/// `Err` if a block comment may be open at the newline, if the newline may belong to a splice, or
/// if too many slashes come before it. It has the position up to which the line was searched.
pub(crate) fn quoted_line_len(rest: &[u8]) -> Result<usize, usize>
    requires some { 0 < length rest.now }
    requires first { is_quote (slice_index rest.now 0) ≡ true }
    ensures bound { IfOk result (λ n. (0 < n) × (n ≤ length rest.now)) }
    ensures read { IfOk result (λ n. (white : Bool) → LineLexeme white (take n rest.now)) }
    ensures ends { IfOk result (λ n. slice_index rest.now (n - 1) ≡ newline) }
    ensures stop { IfErr result (λ n. n ≤ length rest.now) }
{
    let mut at = 1;
    // The end of the last `/*`, or 0 if no block comment can be open.
    let mut begun = 0;
    let mut slashes = 0;
    while at < rest.len() {
        let stop = at + find_any_of(&rest[at..], [b'\n', b'/', b'/', b'/', b'/']);
        if stop >= rest.len() {
            return Err(stop);
        }
        if rest[stop] == b'\n' {
            if begun > 0 || rest[stop - 1] == b'\\' {
                return Err(stop);
            }
            if rest[stop - 1] == b'\r' && may_splice(rest[stop - 2], b'\r') {
                return Err(stop);
            }
            return Ok(stop + 1);
        }
        if stop + 1 >= rest.len() {
            return Err(stop);
        }
        if rest[stop + 1] == b'*' {
            begun = stop + 2;
            at = stop + 2;
        } else {
            if slashes == MOST_SLASHES {
                return Err(stop);
            }
            slashes += 1;
            if begun < stop && rest[stop - 1] == b'*' {
                begun = 0;
            }
            at = stop + 1;
        }
    }
    Err(at)
}

/// Returns the length of what a slash, a backslash or a quote begins outside comments.
pub(crate) fn lexeme_len(rest: &[u8]) -> Option<usize>
    requires some { 0 < length rest.now }
    ensures bound { IfSome result (λ n. (0 < n) × (n ≤ length rest.now)) }
    ensures read { IfSome result (λ n. (white : Bool) → CodeLexeme white (take n rest.now)) }
{
    match rest[0] {
        b'/' => slash_len(rest),
        b'\\' => backslash_len(rest),
        b'"' => literal_len(rest, b'"'),
        b'\'' => literal_len(rest, b'\''),
        _ => None,
    }
}

/// Returns the length of a line comment with its newline. `None` if a backslash may join the next
/// line to it (C11 6.4.9).
pub(crate) fn line_comment_len(rest: &[u8]) -> Option<usize>
    requires some { 2 ≤ length rest.now }
    requires first { take 2 rest.now ≡ slash ∷ slash ∷ [] }
    ensures bound { IfSome result (λ n. (0 < n) × (n ≤ length rest.now)) }
    ensures read { IfSome result (λ n. (white : Bool) → LineLexeme white (take n rest.now)) }
    ensures ends { IfSome result (λ n. slice_index rest.now (n - 1) ≡ newline) }
{
    let count = memchr(b'\n', &rest[2..])?;
    let last = rest[count + 1];
    if last == b'\\' {
        return None;
    }
    if last == b'\r' && may_splice(rest[count], b'\r') {
        return None;
    }
    Some(2 + count + 1)
}
