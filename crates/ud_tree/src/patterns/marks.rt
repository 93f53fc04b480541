//! Marks for the rules that apply to something which a walk met, so that the others can be named.

ghost use Rattle.std.specs.Prelude.{◌≡◌, ◌↔◌, IfOk, map, string_bytes, true};
ghost use Rattle.ud_tree.specs.Unmatched.{Applies, MarksRules, is_marked, quoted, unmarked_in};

use crate::patterns::{fits_file, leaves, rule_of};
use std::alloc::{AllocError, Global};
use ud_replace::NodeKind;

/// Returns whether the rule of an argument of `-g` applies to what is at a path below one of the
/// command line: leaves out a directory, or matches something else.
fn applies(kind: NodeKind, text: &[u8], below: &[u8]) -> bool
    ensures { (result ≡ true) ↔ Applies kind text.now below.now }
{
    let rule = rule_of(text);
    match kind {
        NodeKind::Directory => leaves(rule, below),
        NodeKind::File | NodeKind::Link | NodeKind::Other => fits_file(rule, below),
    }
}

/// Marks the rules that apply to what is at a path below one of the command line.
pub(crate) fn mark(marks: &mut Vec<bool>, patterns: &[String], kind: NodeKind, below: &[u8])
    ensures { MarksRules kind below.now (map string_bytes patterns.now) marks.old.items
        marks.new.items }
{
    for (i, text) in patterns.iter().enumerate() {
        if i >= marks.len() {
            return;
        }
        if !marks[i] {
            marks[i] = applies(kind, text.as_bytes(), below);
        }
    }
}

/// Returns an argument between quotes, as a shell reads it.
///
/// # Errors
/// Fails if memory runs out.
fn quote(alloc: Global, text: &[u8]) -> Result<Vec<u8>, AllocError>
    ensures { IfOk result (λ rule. rule.items ≡ quoted text.now) }
{
    let mut rule = Vec::from_slice(alloc, b"'")?;
    for byte in text {
        if *byte == b'\'' {
            rule.extend_from_slice(b"'\\''")?;
        } else {
            rule.push(*byte)?;
        }
    }
    rule.push(b'\'')?;
    Ok(rule)
}

/// Returns whether the rule with an index is marked, or there is none.
fn is_marked(marks: &[bool], index: usize) -> bool
    ensures { result ≡ is_marked marks.now index }
{
    match marks.get(index) {
        Some(mark) => *mark,
        None => true,
    }
}

/// Returns the arguments of `-g` whose rules aren't marked, each between quotes.
///
/// # Errors
/// Fails if memory runs out.
pub(crate) fn unmarked(
    alloc: Global,
    patterns: &[String],
    marks: &[bool],
) -> Result<Vec<Vec<u8>>, AllocError>
    ensures { IfOk result (λ rules. map (λ r. r.items) rules.items ≡
        map quoted (unmarked_in (map string_bytes patterns.now) marks.now)) }
{
    let mut rules = Vec::new(alloc);
    for (i, text) in patterns.iter().enumerate() {
        if !is_marked(marks, i) {
            rules.push(quote(alloc, text.as_bytes())?)?;
        }
    }
    Ok(rules)
}
