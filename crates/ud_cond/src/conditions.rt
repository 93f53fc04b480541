//! The conditions of directives, as the table decides them.
//!
//! An expression is evaluated with signed numbers first. If it has a `u`, its value is the one with
//! 0 as the least number.

ghost use Rattle.std.specs.Prelude.{◌≡◌, ◌≤◌, List, length, option_map, true};
ghost use Rattle.ud_model.specs.conditions.Table.{Argument};
ghost use Rattle.ud_model.specs.conditions.Conditions as spec;
ghost use Rattle.ud_model.specs.declared.limits.TheConstants.{MAX_LINE_BYTES};
ghost use Rattle.ud_cond.specs.symbols.SymbolTable.{TableRepresents};
ghost use Rattle.ud_cond.specs.CondViews.{as_rules, as_decision};
ghost use Rattle.ud_cond.specs.expressions.Evaluation.{cond_of_value};

use crate::expressions::evaluation::evaluate;
use crate::expressions::values::{Scope, Value};
use crate::symbols::Symbols;
use ud_model::bytes::{are_white, skip_white, word_len};
use ud_model::{Amount, Cond, Kind, Role, Settings, Test};

/// The options for the values of expressions.
#[derive(Clone, Copy, Debug, PartialEq, Eq)]
pub struct Rules {
    /// `true` if expressions without a symbol of the table have values too (`-k`).
    pub constants: bool,
    /// `true` if `&&` and `||` are unknown whenever an operand is (`-K`).
    pub strict: bool,
}

impl Rules {
    /// Returns the rules that the settings give.
    pub fn of(settings: Settings) -> Rules
        ensures { result ≡ record { constants = settings.constants; strict = settings.strict } }
    {
        Rules {
            constants: settings.constants,
            strict: settings.strict,
        }
    }
}

/// The decision on a directive.
#[derive(Clone, Copy, Debug, PartialEq, Eq)]
pub struct Answer {
    /// The condition of the directive.
    pub cond: Cond,
    /// `true` if the section of the directive is plain text.
    pub ignoring: bool,
}

/// Returns the condition that a value decides.
pub(crate) fn cond_of_value(rules: Rules, value: Value) -> Cond
    ensures { result ≡ cond_of_value (as_rules rules) value }
{
    if value.calls_undefined || !(rules.constants || value.listed) {
        return Cond::Unknown;
    }
    match value.number {
        Amount::Exactly(0) => Cond::No,
        Amount::Exactly(_) => Cond::Yes,
        Amount::AtLeast(least) if least > 0 => Cond::Yes,
        _ => Cond::Unknown,
    }
}

/// Returns the condition of the text of an `#if` or `#elif`.
#[inline(never)]
fn expression_cond(text: &[u8], symbols: &Symbols, rules: Rules) -> Cond
    requires fits { length text.now ≤ MAX_LINE_BYTES }
    ensures { result ≡ spec.expression_cond text.now symbols.now (as_rules rules) }
{
    let signed = Scope {
        symbols: Some(symbols),
        strict: rules.strict,
        unsigned: false,
    };
    match evaluate(&signed, text) {
        None => Cond::Unknown,
        Some(value) => {
            if !value.unsigned {
                return cond_of_value(rules, value);
            }
            let unsigned = Scope {
                symbols: Some(symbols),
                strict: rules.strict,
                unsigned: true,
            };
            match evaluate(&unsigned, text) {
                None => Cond::Unknown,
                Some(value) => cond_of_value(rules, value),
            }
        }
    }
}

/// Returns the identifier that is the whole text, white space around it aside.
#[inline(always)]
pub(crate) fn sole_name(text: &[u8]) -> Option<&[u8]>
    ensures { option_map (λ n. n.now) result ≡ spec.sole_name text.now }
{
    let text = skip_white(text);
    let length = word_len(text);
    let word = &text[..length];
    match word {
        [first, ..] if !first.is_ascii_digit() && are_white(&text[length..]) => Some(word),
        _ => None,
    }
}

/// Returns the decision on the text of an `#ifdef`.
#[inline(never)]
fn ifdef_answer(text: &[u8], symbols: &Symbols) -> Answer
    ensures { as_decision result ≡ spec.ifdef_decision (spec.sole_name text.now) symbols.now }
{
    let undecided = Answer {
        cond: Cond::Unknown,
        ignoring: false,
    };
    let Some(name) = sole_name(text) else {
        return undecided;
    };
    match symbols.find(name) {
        None => undecided,
        Some(entry) => Answer {
            cond: if entry.value.is_some() {
                Cond::Yes
            } else {
                Cond::No
            },
            ignoring: entry.ignoring,
        },
    }
}

/// Returns the opposite condition. Unknown stays unknown.
pub(crate) fn negate(cond: Cond) -> Cond
    ensures { result ≡ spec.negate cond }
{
    match cond {
        Cond::Yes => Cond::No,
        Cond::No => Cond::Yes,
        Cond::Unknown => Cond::Unknown,
    }
}

/// Returns the decision on a text by the test that makes its condition true.
#[inline(always)]
fn condition_by_test(test: Test, text: &[u8], symbols: &Symbols, rules: Rules) -> Answer
    requires fits { length text.now ≤ MAX_LINE_BYTES }
    ensures { as_decision result ≡
        spec.decision_by_test test text.now symbols.now (as_rules rules) }
{
    match test {
        Test::Nonzero => Answer {
            cond: expression_cond(text, symbols, rules),
            ignoring: false,
        },
        Test::Defined => ifdef_answer(text, symbols),
        Test::Undefined => {
            let answer = ifdef_answer(text, symbols);
            Answer {
                cond: negate(answer.cond),
                ignoring: answer.ignoring,
            }
        }
        Test::Nothing => Answer {
            cond: Cond::Unknown,
            ignoring: false,
        },
    }
}

/// Returns the condition of a directive that no continuation cuts, and whether its section is
/// plain text.
///
/// `text` is what follows the keyword on its masked line, at most `MAX_LINE_BYTES`. The result
/// depends only on the calls that `symbols` represents. Text that isn't understood is unknown, and
/// so are `#else` and `#endif`. Takes no memory.
///
/// (C11 6.10.1; unifdef(1), `-D`, `-U`, `-iD`, `-iU`, `-k` and `-K`)
///
/// # Examples
/// ```rust
/// let answer = condition(Kind::If, b" VERSION >= 199901L", &symbols, rules);
/// println!(rt; "{answer:?}")?;
/// ```
/// ```text
/// Answer { cond: Yes, ignoring: false }
/// ```
#[inline(always)]
pub fn condition(kind: Kind, text: &[u8], symbols: &Symbols, rules: Rules) -> Answer
    requires fits { length text.now ≤ MAX_LINE_BYTES }
    ensures { (calls : List Argument) → TableRepresents symbols.now calls →
        as_decision result ≡ spec.condition_of kind text.now calls (as_rules rules) }
{
    let answer = condition_by_test(kind.test(), text, symbols, rules);
    Answer {
        cond: answer.cond,
        ignoring: matches!(kind.role(), Role::IfGroup) && answer.ignoring,
    }
}
