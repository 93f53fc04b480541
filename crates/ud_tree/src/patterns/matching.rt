//! Matches a name against a pattern.

ghost use Rattle.std.specs.Prelude.{◌≡◌, ◌<◌, ◌∷◌, ◌↔◌, true};
ghost use Rattle.ud_tree.specs.Patterns.{Matches};
ghost use Rattle.ud_tree.specs.PatternPlaces.{Reaches, IsShorter, StopsAt};

use crate::patterns::parts::after_part;

/// The progress in matching the parts of a pattern with the bytes of a name.
#[derive(Clone, Copy)]
pub(crate) enum Progress<'a> {
    /// Up to the end of both, or not.
    Ended(bool),
    /// Up to a `*`. The pattern after it and the rest of the name follow.
    Star(&'a [u8], &'a [u8]),
}

/// Returns whether a name matches a pattern (POSIX XCU 2.13). The time is at most the product of
/// both lengths.
pub(crate) fn matches(pattern: &[u8], name: &[u8]) -> bool
    ensures { (result ≡ true) ↔ Matches pattern.now name.now }
{
    match match_parts(pattern, name) {
        Progress::Ended(whole) => whole,
        Progress::Star(after, rest) => matches_later(after, rest),
    }
}

/// Returns whether the pattern after a `*` matches some end of a name.
///
/// Once its parts up to the next `*` match somewhere, no later place can help: the next `*` can
/// skip to whatever would follow there.
fn matches_later(pattern: &[u8], name: &[u8]) -> bool
    ensures { (result ≡ true) ↔ Matches (42 ∷ pattern.now) name.now }
{
    let mut parts = pattern;
    let mut bytes = name;
    'later: loop {
        match match_parts(parts, bytes) {
            Progress::Ended(true) => return true,
            Progress::Ended(false) => match bytes.split_first() {
                None => return false,
                Some((_, rest)) => bytes = rest,
            },
            Progress::Star(after, rest) => {
                parts = after;
                bytes = rest;
            }
        }
    }
}

/// Matches the parts of a pattern up to its first `*`, one byte each.
fn match_parts<'a>(pattern: &'a [u8], name: &'a [u8]) -> Progress<'a>
    ensures reaches { Reaches pattern.now name.now result }
    ensures shorter { IsShorter pattern.now name.now result }
{
    let mut parts = pattern;
    let mut bytes = name;
    'parts: while let Some((byte, rest)) = bytes.split_first() {
        match after_part(parts, *byte) {
            None => return stop(parts, bytes),
            Some(after) => {
                parts = after;
                bytes = rest;
            }
        }
    }
    stop(parts, bytes)
}

/// Returns how far the parts match if no part matches the next byte of the name, or none is left.
fn stop<'a>(pattern: &'a [u8], name: &'a [u8]) -> Progress<'a>
    ensures { StopsAt pattern.now name.now result }
{
    match pattern.split_first() {
        Some((b'*', after)) => Progress::Star(after, name),
        Some(_) => Progress::Ended(false),
        None => Progress::Ended(name.is_empty()),
    }
}
