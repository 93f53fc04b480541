//! The faults of the arguments of `-g`: patterns that match nothing, or not what they seem to.
//!
//! A pattern is matched with a name, or with a path below a path of the command line, and `*`
//! matches slashes. Programs that read `.gitignore` give a slash before a pattern and `**` another
//! meaning, so neither is taken.

ghost use Rattle.std.specs.Prelude.{◌≡◌, IfNone, IfSome, map, string_bytes};
ghost use Rattle.ud_tree.specs.PatternFaults.{bare, first_bad, has_double_star, is_dotted};
ghost use Rattle.ud_tree.specs.PatternFaults.{pattern_fault, sign_of};

use crate::patterns::{Effect, after_sign, effect_of};

/// Why an argument of `-g` isn't taken.
#[derive(Clone, Copy, Debug, PartialEq, Eq)]
pub enum PatternFault {
    /// Nothing of its pattern is left without the slashes.
    Empty,
    /// Its pattern begins with `/` or `./`.
    Anchored,
    /// Its pattern has `**`.
    DoubleStar,
    /// It chooses files, and its pattern ends in a slash.
    SlashAtEnd,
}

/// Returns the sign of an argument of `-g`, if it has one.
pub(crate) fn sign_of(text: &[u8]) -> &[u8]
    ensures { result.now ≡ sign_of text.now }
{
    match text.first() {
        Some(b'!') => b"!",
        Some(b'+') => b"+",
        _ => b"",
    }
}

/// Returns whether a text begins with a slash, or with a period before one.
fn is_dotted(text: &[u8]) -> bool
    ensures { result ≡ is_dotted text.now }
{
    match text.split_first() {
        Some((b'/', _)) => true,
        Some((b'.', rest)) => rest.starts_with(b"/"),
        _ => false,
    }
}

/// Returns a pattern without each `/` and `./` that it begins with.
pub(crate) fn bare(pattern: &[u8]) -> &[u8]
    ensures { result.now ≡ bare pattern.now }
{
    let mut rest = pattern;
    'bytes: while let Some((_, after)) = rest.split_first() {
        if !is_dotted(rest) {
            return rest;
        }
        rest = after;
    }
    rest
}

/// Returns whether a pattern has `**`.
fn has_double_star(pattern: &[u8]) -> bool
    ensures { result ≡ has_double_star pattern.now }
{
    let mut rest = pattern;
    'bytes: while let Some((byte, after)) = rest.split_first() {
        if *byte == b'*' && after.starts_with(b"*") {
            return true;
        }
        rest = after;
    }
    false
}

/// Returns the fault of an argument of `-g`, if it has one.
fn pattern_fault(text: &[u8]) -> Option<PatternFault>
    ensures { result ≡ pattern_fault text.now }
{
    let pattern = after_sign(text);
    if bare(pattern).is_empty() {
        return Some(PatternFault::Empty);
    }
    if is_dotted(pattern) {
        return Some(PatternFault::Anchored);
    }
    if has_double_star(pattern) {
        return Some(PatternFault::DoubleStar);
    }
    if pattern.ends_with(b"/") && effect_of(text).chooses() {
        return Some(PatternFault::SlashAtEnd);
    }
    None
}

/// Returns the first argument of `-g` that has a fault, and its fault.
pub(crate) fn first_bad(patterns: &[String]) -> Option<(&String, PatternFault)>
    ensures fault { IfSome result (λ bad. first_bad (map string_bytes patterns.now) ≡
        Some (record { text = string_bytes bad.0.now; fault = bad.1 })) }
    ensures right { IfNone result (first_bad (map string_bytes patterns.now) ≡ None) }
{
    for text in patterns {
        if let Some(fault) = pattern_fault(text.as_bytes()) {
            return Some((text, fault));
        }
    }
    None
}
