//! Skips many whole text lines at once in plain mode.
//!
//! In plain mode a line is text if its first byte after white space is no `#`, or if a word other
//! than a keyword follows that `#`. So the bytes are read from one `#` to the next, and line
//! boundaries are looked for only at the end.

ghost use Rattle.std.specs.Prelude.{◌≤◌, ◌<◌, ◌+◌, length, take, drop, true};
ghost use Rattle.ud_text.specs.bulk.BulkScanning.{ArePlainText};
ghost use Rattle.ud_text.specs.bulk.BulkLexemes.{NoHash};
ghost use Rattle.ud_text.specs.bulk.PlainText.{NoneBeginsDirective, is_white_past_all};

use crate::bulk::hash_sign::{is_line_white_after, other_word_len};
use crate::searching::last_line_start;
use memchr::memchr;

/// Returns the number of bytes before the first `#`, or of all bytes.
fn before_hash_len(bytes: &[u8]) -> usize
    ensures bound { result ≤ length bytes.now }
    ensures plain { NoHash (take result bytes.now) }
{
    match memchr(b'#', bytes) {
        Some(at) => at,
        None => bytes.len(),
    }
}

/// Returns how many bytes from `at` on show that the `#` there begins no directive: a word other
/// than a keyword follows it, or its line isn't white before it. Returns 0 if none do.
fn other_hash_len(lines: &[u8], at: usize) -> usize
    requires within { at < length lines.now }
    ensures bound { at + result ≤ length lines.now }
    ensures other { NoneBeginsDirective (is_white_past_all true (take at lines.now))
        (take result (drop at lines.now)) }
{
    let after = at + 1;
    if let Some(count) = other_word_len(&lines[after..]) {
        return 1 + count;
    }
    if is_line_white_after(&lines[..at], true) {
        return 0;
    }
    1
}

/// Returns the number of bytes before the first one that may begin a directive, or of all bytes.
fn before_directive_len(lines: &[u8]) -> usize
    ensures bound { result ≤ length lines.now }
    ensures text { NoneBeginsDirective true (take result lines.now) }
{
    let mut at = 0;
    while at < lines.len() {
        let sign = at + before_hash_len(&lines[at..]);
        if sign >= lines.len() {
            return sign;
        }
        let count = other_hash_len(lines, sign);
        if count == 0 {
            return sign;
        }
        at = sign + count;
    }
    at
}

/// Returns the length of the leading whole lines that clearly have no directive.
pub(crate) fn plain_text_len(lines: &[u8]) -> usize
    ensures bound { result ≤ length lines.now }
    ensures text { ArePlainText (take result lines.now) }
{
    last_line_start(&lines[..before_directive_len(lines)])
}
