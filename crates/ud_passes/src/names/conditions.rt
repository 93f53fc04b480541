//! Whether all names of a line's condition can be listed.

ghost use Rattle.std.specs.Prelude.{◌≡◌, ◌≤◌, [], length, is_some, true, false};
ghost use Rattle.ud_model.specs.aids.LineViews.{as_scan};
ghost use Rattle.ud_model.specs.sections.Directives.{content_of, test_of};
ghost use Rattle.ud_model.specs.conditions.Names.{names_of};
ghost use Rattle.ud_model.specs.conditions.Parsing.{expression_of};
ghost use Rattle.ud_model.specs.declared.limits.TheConstants.{MAX_LINE_BYTES};
ghost use Rattle.ud_sections.specs.directives.ParsedDirectives.{as_directive};
ghost use Rattle.ud_passes.specs.names.UnlistedConditions.{has_unlisted, is_listed_whole, lists_all};
ghost use Rattle.ud_passes.specs.names.UnlistedConditions as spec;

use std::alloc::Global;
use ud_cond::{Rules, Symbols, TokenFlags, names, residual};
use ud_model::bytes::{is_name, is_word_byte, word_len};
use ud_model::{Kind, MAX_LINE_BYTES, Scan, Test};
use ud_sections::{Directive, directive};

/// Returns whether the text after a keyword has a name.
fn has_name(kind: Kind, text: &[u8]) -> bool
    requires fits { length text.now ≤ MAX_LINE_BYTES }
    ensures some { result ≡ true → ¬ (names_of kind text.now ≡ []) }
    ensures none { result ≡ false → names_of kind text.now ≡ [] }
{
    names(kind, text).next().is_some()
}

/// Returns whether a text is one expression, by reading it without symbols.
#[inline(never)]
fn reads_as_expression(alloc: Global, text: &[u8]) -> bool
    requires fits { length text.now ≤ MAX_LINE_BYTES }
    ensures { result ≡ is_some (expression_of text.now) }
{
    let symbols = Symbols::new(alloc);
    let rules = Rules {
        constants: false,
        strict: false,
    };
    let mut flags = TokenFlags::new();
    residual(text, &symbols, rules, &mut flags).is_some()
}

/// Returns whether a text is one expression. Most have a name.
fn is_expression(alloc: Global, text: &[u8]) -> bool
    requires fits { length text.now ≤ MAX_LINE_BYTES }
    ensures { result ≡ is_some (expression_of text.now) }
{
    if has_name(Kind::If, text) {
        return true;
    }
    reads_as_expression(alloc, text)
}

/// Returns whether a text has no more names than are listed of an `#if` with it: none stands among
/// the arguments of a call.
fn lists_all(text: &[u8]) -> bool
    requires fits { length text.now ≤ MAX_LINE_BYTES }
    ensures { result ≡ lists_all text.now }
{
    let mut listed = names(Kind::If, text);
    let mut rest = text;
    while let Some((first, others)) = rest.split_first() {
        if is_word_byte(*first) {
            let (word, after) = rest.split_at(word_len(rest));
            if is_name(word) && listed.next().is_none() {
                return false;
            }
            rest = after;
        } else {
            rest = others;
        }
    }
    listed.next().is_none()
}

/// Returns whether the text after a keyword of this kind is understood, and its names are listed.
fn is_listed_whole(alloc: Global, kind: Kind, text: &[u8]) -> bool
    requires fits { length text.now ≤ MAX_LINE_BYTES }
    ensures { result ≡ is_listed_whole (test_of kind) text.now }
{
    match kind.test() {
        Test::Nonzero => lists_all(text) && is_expression(alloc, text),
        Test::Defined | Test::Undefined => has_name(kind, text),
        Test::Nothing => true,
    }
}

/// Returns whether a directive has a condition whose names can't all be listed.
fn is_unlisted(alloc: Global, found: &Directive<'_>) -> bool
    requires fits { length found.now.after.now ≤ MAX_LINE_BYTES }
    ensures { result ≡ spec.is_unlisted (as_directive found.now) }
{
    if found.kind.test() == Test::Nothing {
        return false;
    }
    found.broken || !is_listed_whole(alloc, found.kind, found.after)
}

/// Returns whether a line with this scan has a condition whose names can't all be listed.
pub(crate) fn has_unlisted(alloc: Global, scan: &Scan<'_>) -> bool
    requires fits { length scan.now.masked.now ≤ MAX_LINE_BYTES }
    ensures { result ≡ has_unlisted (content_of (as_scan scan.now)) }
{
    match directive(scan) {
        Ok(Some(found)) => is_unlisted(alloc, &found),
        Ok(None) | Err(_) => false,
    }
}
