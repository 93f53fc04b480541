//! The patterns that choose files: shell patterns of names or paths, such as `*.[ch]` (POSIX XCU
//! 2.13).
//!
//! Each argument of `-g` is a rule: a pattern, or one after `!` or `+`. The last rule that matches
//! a file decides. `specs/Patterns.antt` defines which names a pattern matches, and
//! `specs/Choices.antt` which files the rules choose. `matches` goes back only to the last `*`:
//! once the parts before a `*` have matched, no other place can help.

ghost use Rattle.std.specs.Prelude.{◌≡◌, ◌↔◌, true, false, map, string_bytes};
ghost use Rattle.std.specs.List.{list_any};
ghost use Rattle.ud_tree.specs.Choices.{Chooses, Decides, Fits, FitsFile, IsVersioned};
ghost use Rattle.ud_tree.specs.Choices.{LeavesDirectory, after_sign, as_rule, effect_of, is_only};
ghost use Rattle.ud_tree.specs.Choices.{IsUsual, MatchesOne, rule_of, subject, without_slash};

pub(crate) mod faults;
pub(crate) mod marks;
mod matching;
mod parts;

use crate::paths::{is_fresh, last_name};
use crate::patterns::matching::matches;

/// The patterns of a run in which no other pattern takes their place: sources and headers of C,
/// C++, Objective-C and the like, and the files that `configure` makes them from.
const USUAL: [&[u8]; 22] = [
    b"*.[chCH]",
    b"*.[Sylm]",
    b"*.cc",
    b"*.hh",
    b"*.cpp",
    b"*.hpp",
    b"*.cxx",
    b"*.hxx",
    b"*.c++",
    b"*.h++",
    b"*.ipp",
    b"*.tpp",
    b"*.tcc",
    b"*.inl",
    b"*.mm",
    b"*.xs",
    b"*.pgc",
    b"*.[ch].in",
    b"*.cc.in",
    b"*.hh.in",
    b"*.cpp.in",
    b"*.hpp.in",
];

/// The effect of a rule on the files that match it.
#[derive(Clone, Copy, Debug, PartialEq, Eq)]
pub(crate) enum Effect {
    /// They are chosen, in place of those that the usual patterns choose.
    Only,
    /// They are chosen, too.
    Also,
    /// They are left out.
    Leave,
}

impl Effect {
    ghost use Rattle.std.specs.Prelude.{◌≡◌};
    ghost use Rattle.ud_tree.specs.Choices.{chosen_by};

    /// Returns whether it chooses the files.
    pub(crate) fn chooses(self) -> bool
        ensures { result ≡ chosen_by self }
    {
        match self {
            Effect::Only => true,
            Effect::Also => true,
            Effect::Leave => false,
        }
    }
}

/// A rule of `-g`.
#[derive(Clone, Copy)]
pub(crate) struct Rule<'a> {
    /// Its effect.
    pub effect: Effect,
    /// True if it is one of directories alone.
    pub directories: bool,
    /// Its pattern.
    pub pattern: &'a [u8],
}

/// Returns the effect of the rule that an argument of `-g` gives.
pub(crate) fn effect_of(text: &[u8]) -> Effect
    ensures { result ≡ effect_of text.now }
{
    match text.first() {
        Some(b'!') => Effect::Leave,
        Some(b'+') => Effect::Also,
        _ => Effect::Only,
    }
}

/// Returns an argument of `-g` without its sign, if it has one.
pub(crate) fn after_sign(text: &[u8]) -> &[u8]
    ensures { result.now ≡ after_sign text.now }
{
    match text.split_first() {
        Some((b'!' | b'+', pattern)) => pattern,
        _ => text,
    }
}

/// Returns a pattern without the slash at its end, if it has one.
fn without_slash(pattern: &[u8]) -> &[u8]
    ensures { result.now ≡ without_slash pattern.now }
{
    if pattern.ends_with(b"/") {
        &pattern[..pattern.len() - 1]
    } else {
        pattern
    }
}

/// Returns the rule that an argument of `-g` gives.
fn rule_of(text: &[u8]) -> Rule<'_>
    ensures { as_rule result ≡ rule_of text.now }
{
    let pattern = after_sign(text);
    Rule {
        effect: effect_of(text),
        directories: pattern.ends_with(b"/"),
        pattern: without_slash(pattern),
    }
}

/// Returns what a pattern is matched with, of a file or a directory: its path below the path that
/// the command line names if the pattern has a slash, else its name.
fn subject<'a>(pattern: &[u8], below: &'a [u8]) -> &'a [u8]
    ensures { result.now ≡ subject pattern.now below.now }
{
    if pattern.contains(&b'/') {
        below
    } else {
        last_name(below)
    }
}

/// Returns whether a file or a directory matches the pattern of a rule.
fn fits(rule: Rule<'_>, below: &[u8]) -> bool
    ensures { (result ≡ true) ↔ Fits (as_rule rule.entry) below.now }
{
    matches(rule.pattern, subject(rule.pattern, below))
}

/// Returns whether a file matches a rule. It matches none of directories alone.
fn fits_file(rule: Rule<'_>, below: &[u8]) -> bool
    ensures { (result ≡ true) ↔ FitsFile (as_rule rule.entry) below.now }
{
    !rule.directories && fits(rule, below)
}

/// Returns whether a rule leaves out a directory.
fn leaves(rule: Rule<'_>, below: &[u8]) -> bool
    ensures { (result ≡ true) ↔
        (((as_rule rule.entry).effect ≡ Effect.Leave) × Fits (as_rule rule.entry) below.now) }
{
    match rule.effect {
        Effect::Only => false,
        Effect::Also => false,
        Effect::Leave => fits(rule, below),
    }
}

/// Returns the effect of the last rule that a file matches, if it matches any.
#[tactic(auto, using(crate::specs::Choices::undecided))]
fn last_effect(patterns: &[String], below: &[u8]) -> Option<Effect>
    ensures { Decides below.now (map string_bytes patterns.now) result }
{
    let mut last = None;
    for text in patterns {
        let rule = rule_of(text.as_bytes());
        if fits_file(rule, below) {
            last = Some(rule.effect);
        }
    }
    last
}

/// Returns whether a rule takes the place of the usual patterns.
fn has_only(patterns: &[String]) -> bool
    ensures { result ≡ list_any is_only (map string_bytes patterns.now) }
{
    for text in patterns {
        if let Effect::Only = rule_of(text.as_bytes()).effect {
            return true;
        }
    }
    false
}

/// Returns whether a file is chosen, by its path below the path that the command line names. The
/// last rule that matches decides; the usual patterns come before all rules, unless one takes their
/// place. A file that a run made beside another one is never chosen.
#[tactic(auto, using(crate::specs::Choices::is_new))]
pub(crate) fn chooses(patterns: &[String], below: &[u8]) -> bool
    ensures { Chooses (map string_bytes patterns.now) below.now result }
{
    let name = last_name(below);
    if is_fresh(name) {
        return false;
    }
    match last_effect(patterns, below) {
        Some(effect) => effect.chooses(),
        None => is_usual(patterns, name),
    }
}

/// Returns whether one of some patterns matches a name.
fn matches_one(patterns: &[&[u8]], name: &[u8]) -> bool
    ensures { (result ≡ true) ↔ MatchesOne (map (λ p. p.now) patterns.now) name.now }
{
    for pattern in patterns {
        if matches(pattern, name) {
            return true;
        }
    }
    false
}

/// Returns whether a usual pattern chooses a file of this name, and no rule takes their place.
fn is_usual(patterns: &[String], name: &[u8]) -> bool
    ensures { (result ≡ true) ↔ IsUsual (map string_bytes patterns.now) name.now }
{
    !has_only(patterns) && matches_one(&USUAL, name)
}

/// Returns whether a rule leaves out a directory, by its path below the path that the command line
/// names, with all below. Rules that choose files don't count.
pub(crate) fn leaves_directory(patterns: &[String], below: &[u8]) -> bool
    ensures some { result ≡ true → LeavesDirectory (map string_bytes patterns.now) below.now }
    ensures none { result ≡ false → ¬ LeavesDirectory (map string_bytes patterns.now) below.now }
{
    for text in patterns {
        let rule = rule_of(text.as_bytes());
        if leaves(rule, below) {
            return true;
        }
    }
    false
}

/// Returns whether to leave out a directory of this name: one of version control or quilt, with
/// earlier texts of files.
pub(crate) fn is_versioned(name: &[u8]) -> bool
    ensures { (result ≡ true) ↔ IsVersioned name.now }
{
    matches!(name, b".git" | b".hg" | b".svn" | b".bzr" | b"CVS" | b".pc")
}
