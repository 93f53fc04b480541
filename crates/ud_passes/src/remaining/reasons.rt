//! The reason in the list for a mention: why a condition stays, or what else names the symbol.

ghost use Rattle.std.specs.Prelude.{◌≡◌, ◌≤◌, List, length, not};
ghost use Rattle.std.specs.List.{list_any};
ghost use Rattle.ud_model.specs.conditions.Conditions.{condition_of};
ghost use Rattle.ud_model.specs.aids.Residuals.{is_unknown};
ghost use Rattle.ud_model.specs.conditions.Table.{Argument};
ghost use Rattle.ud_model.specs.conditions.Parsing.{expression_of};
ghost use Rattle.ud_model.specs.sections.Directives.{test_of};
ghost use Rattle.ud_model.specs.declared.limits.TheConstants.{MAX_LINE_BYTES};
ghost use Rattle.ud_cond.specs.CondViews.{as_rules};
ghost use Rattle.ud_cond.specs.symbols.SymbolTable.{TableRepresents};
ghost use Rattle.ud_passes.specs.remaining.Reasons as spec;
ghost use Rattle.ud_passes.specs.remaining.Searches.{as_mention};

use crate::remaining::listing::Listing;
use crate::remaining::mentions::{Begun, Class};
use crate::remaining::names::has_listed_operand;
use ud_cond::{Rules, Symbols, TokenFlags, condition, residual};
use ud_model::{Cond, Kind, MAX_LINE_BYTES, Test};

/// The reason why a condition that names a symbol stays, although decided operands are removed; or
/// what else names a symbol.
#[derive(Clone, Copy)]
pub(crate) enum Reason {
    /// It is on several lines. On one, it would be decided or lose operands.
    SeveralLines,
    /// Read as C, the condition is decided, but unifdef didn't read it so.
    Decided,
    /// It isn't understood.
    NotUnderstood,
    /// The rest of the condition would be misread.
    Misread,
    /// It names symbols only in the arguments of calls.
    InArguments,
    /// It has an unknown operand.
    UnknownOperand,
    /// It isn't a condition but a definition in the source.
    SourceDefines,
    /// It isn't a condition but follows an `#else` or `#endif`.
    InComment,
}

impl Reason {
    /// Returns the reason in words.
    pub(crate) fn phrase(self) -> &'static [u8]
        ensures { result.now ≡ spec.phrase self }
    {
        match self {
            Reason::SeveralLines => b"over several lines",
            Reason::Decided => b"decided as C",
            Reason::NotUnderstood => b"not understood",
            Reason::Misread => b"its rest would be misread",
            Reason::InArguments => b"among arguments of a call",
            Reason::UnknownOperand => b"an operand is unknown",
            Reason::SourceDefines => b"the source defines it",
            Reason::InComment => b"a comment names it",
        }
    }
}

/// Returns whether a condition is unknown.
fn is_unknown(kind: Kind, text: &[u8], symbols: &Symbols, rules: Rules) -> bool
    requires fits { length text.now ≤ MAX_LINE_BYTES }
    ensures { (calls : List Argument) → TableRepresents symbols.now calls →
        result ≡ is_unknown (condition_of kind text.now calls (as_rules rules)).cond }
{
    condition(kind, text, symbols, rules).cond == Cond::Unknown
}

/// Returns whether a flag is false.
fn has_false(flags: &[bool]) -> bool
    ensures { result ≡ list_any not flags.now }
{
    flags.iter().any(|flag| !*flag)
}

/// Returns why an unknown `#if` or `#elif` stays. The flags are local to this function, so no other
/// one clears their memory.
#[inline(never)]
fn why_expression(text: &[u8], symbols: &Symbols, rules: Rules) -> Reason
    requires fits { length text.now ≤ MAX_LINE_BYTES }
    ensures { (calls : List Argument) → TableRepresents symbols.now calls →
        result ≡ spec.why_tree calls (as_rules rules) (expression_of text.now) }
{
    let mut flags = TokenFlags::new();
    if residual(text, symbols, rules, &mut flags).is_none() {
        return Reason::NotUnderstood;
    }
    if has_false(flags.as_slice()) {
        return Reason::Misread;
    }
    if has_listed_operand(symbols, Kind::If, text) {
        Reason::UnknownOperand
    } else {
        Reason::InArguments
    }
}

/// Returns why an unknown condition stays.
fn why_unknown(kind: Kind, text: &[u8], symbols: &Symbols, rules: Rules) -> Reason
    requires fits { length text.now ≤ MAX_LINE_BYTES }
    ensures { (calls : List Argument) → TableRepresents symbols.now calls →
        result ≡ spec.why_unknown calls (as_rules rules) (test_of kind) text.now }
{
    match kind.test() {
        Test::Nonzero => why_expression(text, symbols, rules),
        Test::Defined | Test::Undefined | Test::Nothing => Reason::NotUnderstood,
    }
}

/// Returns why a condition on one line stays.
fn why_read(kind: Kind, text: &[u8], symbols: &Symbols, rules: Rules) -> Reason
    requires fits { length text.now ≤ MAX_LINE_BYTES }
    ensures { (calls : List Argument) → TableRepresents symbols.now calls →
        result ≡ spec.why_read calls (as_rules rules) kind text.now }
{
    if is_unknown(kind, text, symbols, rules) {
        return why_unknown(kind, text, symbols, rules);
    }
    Reason::Decided
}

/// Returns the reason for a condition on several lines, by the reason that it would have on one.
fn over_lines(reason: Reason) -> Reason
    ensures { result ≡ spec.over_lines reason }
{
    match reason {
        Reason::Decided | Reason::Misread => Reason::SeveralLines,
        _ => reason,
    }
}

/// Returns why a condition that names a symbol stays.
fn why_stays(kind: Kind, begun: &Begun<'_>, after: &[u8], symbols: &Symbols, rules: Rules) -> Reason
    ensures { (calls : List Argument) → TableRepresents symbols.now calls →
        result ≡ spec.why_stays calls (as_rules rules) kind (as_mention begun.now after.now) }
{
    if after.len() > MAX_LINE_BYTES {
        return Reason::SeveralLines;
    }
    let reason = why_read(kind, after, symbols, rules);
    if begun.is_spanning {
        return over_lines(reason);
    }
    reason
}

/// Returns the reason that the list gives for a mention, if any.
pub(crate) fn reason_of(
    begun: &Begun<'_>,
    after: &[u8],
    symbols: &Symbols,
    listing: Listing,
) -> Option<Reason>
    ensures { (calls : List Argument) → TableRepresents symbols.now calls →
        result ≡ spec.reason_of calls listing (as_mention begun.now after.now) }
{
    match begun.class {
        Class::Definition => Some(Reason::SourceDefines),
        Class::Closing => Some(Reason::InComment),
        Class::Condition(kind) => match listing {
            Listing::Explained(rules) => Some(why_stays(kind, begun, after, symbols, rules)),
            Listing::Counted | Listing::Listed => None,
        },
    }
}
