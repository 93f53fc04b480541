//! The values of the parts of an expression.
//!
//! `ud_model.specs.conditions.Values` defines the numbers (C11 6.10.1p4 and 6.5), and
//! `specs.expressions.Evaluation` the facts that are kept beside them.

ghost use Rattle.std.specs.Prelude.{◌≡◌, Some, option_and_then, option_map, is_some, true, false};
ghost use Rattle.ud_model.specs.conditions.Table.{entry_in};
ghost use Rattle.ud_model.specs.conditions.Symbols.{resolve, defined_text};
ghost use Rattle.ud_model.specs.conditions.Values as spec;
ghost use Rattle.ud_cond.specs.CondViews.{as_entry};
ghost use Rattle.ud_cond.specs.expressions.Evaluation.{table_in, constant_value_of, name_value_of};
ghost use Rattle.ud_cond.specs.expressions.Evaluation.{defined_name_value_of, defined_value_of};
ghost use Rattle.ud_cond.specs.expressions.Evaluation.{unary_value_of, binary_value_of};

use crate::expressions::constants::{constant_value, has_u, is_constant, single_digit_value};
use crate::symbols::{Entry, Symbols};
use ud_model::bytes::is_identifier;
use ud_model::{Amount, Operator};

/// The value of a part of an expression.
#[derive(Clone, Copy)]
pub(crate) struct Value {
    /// The number, as far as it is known.
    pub(crate) number: Amount,
    /// `true` if a constant in the part, or one that a symbol in the part resolves to, has a `u`.
    pub(crate) unsigned: bool,
    /// `true` if the part names a symbol of the table.
    pub(crate) listed: bool,
    /// `true` if the part has an undefined symbol with arguments.
    pub(crate) calls_undefined: bool,
}

/// The context in which an expression is evaluated.
#[derive(Clone, Copy)]
pub(crate) struct Scope<'a> {
    /// The table; without one, no name has an entry.
    pub(crate) symbols: Option<&'a Symbols>,
    /// `true` if `&&` and `||` are unknown whenever an operand is.
    pub(crate) strict: bool,
    /// `true` if the expression has a `u`, so its least number is 0.
    pub(crate) unsigned: bool,
}

impl Scope<'_> {
    /// Returns the entry of a name.
    #[inline(always)]
    fn find(&self, name: &[u8]) -> Option<Entry<'_>>
        ensures { option_map as_entry result ≡ entry_in (table_in self.now) name.now }
    {
        self.symbols?.find(name)
    }

    /// Resolves `name`, which is defined as `text`.
    fn resolve_from<'a>(&'a self, name: &'a [u8], text: &'a [u8]) -> Option<&'a [u8]>
        requires { defined_text (table_in self.now) name.now ≡ Some text.now }
        ensures { option_map (λ v. v.now) result ≡ resolve (table_in self.now) name.now }
    {
        if is_identifier(text) {
            self.resolve(name)
        } else {
            Some(text)
        }
    }

    /// Resolves `name`: returns the text that its value ends at.
    #[tactic(auto, unfolding(ud_model::specs::conditions::Symbols::resolve))]
    fn resolve<'a>(&'a self, name: &'a [u8]) -> Option<&'a [u8]>
        ensures { option_map (λ v. v.now) result ≡ resolve (table_in self.now) name.now }
    {
        self.symbols?.resolve(name)
    }
}

/// The value of an unlisted name: nothing is known.
pub(crate) const NO_VALUE: Value = Value {
    number: Amount::Anything,
    unsigned: false,
    listed: false,
    calls_undefined: false,
};

/// Returns the value of a constant.
#[inline(always)]
pub(crate) fn constant(word: &[u8]) -> Value
    ensures { result ≡ constant_value_of word.now }
{
    let digit = single_digit_value(word);
    if digit.is_some() {
        return Value {
            number: exactly(digit),
            ..NO_VALUE
        };
    }
    Value {
        number: exactly(constant_value(word)),
        unsigned: has_u(word),
        ..NO_VALUE
    }
}

/// Returns exactly this number; anything without one.
#[inline(always)]
fn exactly(number: Option<i64>) -> Amount
    ensures { result ≡ spec.amount_from false number }
{
    match number {
        None => Amount::Anything,
        Some(number) => Amount::Exactly(number),
    }
}

/// Returns this number as the least one; anything without one.
fn at_least(number: Option<i64>) -> Amount
    ensures { result ≡ spec.amount_from true number }
{
    match number {
        None => Amount::Anything,
        Some(number) => Amount::AtLeast(number),
    }
}

/// Returns the number of a constant, or of a `-` and a constant.
fn text_value(unsigned: bool, text: &[u8]) -> Option<i64>
    ensures { result ≡ spec.text_value unsigned text.now }
{
    match text {
        [b'-', rest @ ..] => {
            if !is_constant(rest) {
                return None;
            }
            fit_checked(unsigned, constant_value(rest)?.checked_neg())
        }
        _ => {
            if is_constant(text) {
                constant_value(text)
            } else {
                None
            }
        }
    }
}

/// Returns whether the text, as the value of a symbol, is a known number: a constant, or a `-` and
/// a constant.
pub fn is_number(text: &[u8]) -> bool
    ensures { result ≡ is_some (spec.text_value (spec.text_has_u text.now) text.now) }
{
    text_value(text_has_u(text), text).is_some()
}

/// Returns whether the constant of such a text has a `u`.
fn text_has_u(text: &[u8]) -> bool
    ensures { result ≡ spec.text_has_u text.now }
{
    match text {
        [b'-', rest @ ..] => has_u(rest),
        _ => has_u(text),
    }
}

/// Returns the value of a text that a symbol resolves to.
fn end_value(unsigned: bool, text: &[u8]) -> Amount
    ensures { result ≡ spec.end_value unsigned (Some text.now) }
{
    match text {
        [255, rest @ ..] => at_least(text_value(unsigned, rest)),
        _ => exactly(text_value(unsigned, text)),
    }
}

/// Returns whether the constant of a text that a symbol resolves to has a `u`.
fn end_has_u(text: &[u8]) -> bool
    ensures { result ≡ spec.end_has_u (Some text.now) }
{
    match text {
        [255, rest @ ..] => text_has_u(rest),
        _ => text_has_u(text),
    }
}

/// Returns the value of a name that is defined as `text`.
#[tactic(auto, unfolding(ud_model::specs::conditions::Values::name_has_u))]
#[inline(always)]
fn defined_as(scope: &Scope<'_>, name: &[u8], text: &[u8]) -> Value
    requires { defined_text (table_in scope.now) name.now ≡ Some text.now }
    ensures { result ≡ defined_name_value_of (table_in scope.now) scope.now.unsigned name.now }
{
    let listed = Value {
        listed: true,
        ..NO_VALUE
    };
    let digit = single_digit_value(text);
    if digit.is_some() {
        return Value {
            number: exactly(digit),
            ..listed
        };
    }
    match scope.resolve_from(name, text) {
        Some(end) => Value {
            number: end_value(scope.unsigned, end),
            unsigned: end_has_u(end),
            ..listed
        },
        None => listed,
    }
}

/// Returns the value of a name with or without arguments.
#[inline(always)]
pub(crate) fn name_value(scope: &Scope<'_>, name: &[u8], arguments: bool) -> Value
    ensures { result ≡ name_value_of (table_in scope.now) scope.now.unsigned name.now arguments }
{
    match scope.find(name) {
        None => NO_VALUE,
        Some(entry) => match entry.value {
            None => Value {
                number: Amount::Exactly(0),
                unsigned: false,
                listed: true,
                calls_undefined: arguments,
            },
            Some(text) => defined_as(scope, name, text),
        },
    }
}

/// Returns the value of `defined` and a name.
#[tactic(auto, unfolding(ud_model::specs::conditions::Values::defined_value))]
#[inline(always)]
pub(crate) fn defined(scope: &Scope<'_>, name: &[u8]) -> Value
    ensures { result ≡ defined_value_of (table_in scope.now) name.now }
{
    match scope.find(name) {
        None => NO_VALUE,
        Some(entry) => Value {
            number: Amount::Exactly(truth(entry.value.is_some())),
            listed: true,
            ..NO_VALUE
        },
    }
}

/// Returns `number`, or `None` if it is below the least number.
fn fit(unsigned: bool, number: i64) -> Option<i64>
    ensures { result ≡ spec.fit unsigned number }
{
    if unsigned && number < 0 {
        None
    } else {
        Some(number)
    }
}

/// Returns the result of a checked operation as `fit` does; `None` if there is no result.
fn fit_checked(unsigned: bool, number: Option<i64>) -> Option<i64>
    ensures { result ≡ option_and_then (spec.fit unsigned) number }
{
    fit(unsigned, number?)
}

/// Returns 1 if `holds`, else 0.
fn truth(holds: bool) -> i64
    ensures { result ≡ spec.truth holds }
{
    if holds { 1 } else { 0 }
}

/// Returns the remainder of `a` by `b`, if the quotient is a number too.
#[tactic(auto, unfolding(ud_model::specs::conditions::Values::apply_binary_known))]
fn remainder(unsigned: bool, a: i64, b: i64) -> Option<i64>
    ensures { result ≡ spec.apply_binary_known unsigned Operator.Remainder a b }
{
    fit_checked(unsigned, a.checked_div(b))?;
    fit_checked(unsigned, a.checked_rem(b))
}

/// Applies a binary operator to two known operands.
#[tactic(auto, unfolding(ud_model::specs::conditions::Values::apply_binary_known))]
#[inline(never)]
fn apply_binary_known(unsigned: bool, operator: Operator, a: i64, b: i64) -> Option<i64>
    ensures { result ≡ spec.apply_binary_known unsigned operator a b }
{
    match operator {
        Operator::Or => Some(truth(a != 0 || b != 0)),
        Operator::And => Some(truth(a != 0 && b != 0)),
        Operator::BitOr => fit(unsigned, a | b),
        Operator::BitXor => fit(unsigned, a ^ b),
        Operator::BitAnd => fit(unsigned, a & b),
        Operator::Equal => Some(truth(a == b)),
        Operator::NotEqual => Some(truth(a != b)),
        Operator::Less => Some(truth(a < b)),
        Operator::LessEqual => Some(truth(a <= b)),
        Operator::Greater => Some(truth(b < a)),
        Operator::GreaterEqual => Some(truth(b <= a)),
        Operator::Plus => fit_checked(unsigned, a.checked_add(b)),
        Operator::Minus => fit_checked(unsigned, a.checked_sub(b)),
        Operator::Times => fit_checked(unsigned, a.checked_mul(b)),
        Operator::Over => fit_checked(unsigned, a.checked_div(b)),
        Operator::Remainder => remainder(unsigned, a, b),
        Operator::Not | Operator::Complement => None,
    }
}

/// Returns the number that one known operand decides, whatever the other one is.
fn short_circuits(strict: bool, operator: Operator, a: i64) -> Option<i64>
    ensures { result ≡ spec.short_circuits strict operator a }
{
    if strict {
        return None;
    }
    match operator {
        Operator::And if a == 0 => Some(0),
        Operator::Or if a != 0 => Some(1),
        _ => None,
    }
}

/// Returns whether the operator gives the same for each number from `n` on, with `b` on its other
/// side.
fn is_same_from(operator: Operator, n: i64, b: Amount) -> bool
    ensures { result ≡ spec.is_same_from operator n b }
{
    match (operator, b) {
        (Operator::Not | Operator::And | Operator::Or, _) => 0 < n,
        (Operator::Less | Operator::GreaterEqual, Amount::Exactly(b)) => b <= n,
        (
            Operator::Equal | Operator::NotEqual | Operator::LessEqual | Operator::Greater,
            Amount::Exactly(b),
        ) => b < n,
        _ => false,
    }
}

/// Returns the number that counts for the operand `a`, with `b` on its other side.
fn counted(operator: Operator, a: Amount, b: Amount) -> Option<i64>
    ensures { result ≡ spec.counted operator a b }
{
    match a {
        Amount::Anything => None,
        Amount::Exactly(number) => Some(number),
        Amount::AtLeast(least) => {
            if is_same_from(operator, least, b) {
                Some(least)
            } else {
                None
            }
        }
    }
}

/// Returns the relation that gives the same with both operands exchanged.
fn mirrored(operator: Operator) -> Operator
    ensures { result ≡ spec.mirrored operator }
{
    match operator {
        Operator::Less => Operator::Greater,
        Operator::LessEqual => Operator::GreaterEqual,
        Operator::Greater => Operator::Less,
        Operator::GreaterEqual => Operator::LessEqual,
        other => other,
    }
}

/// Applies a binary operator to two operands, known or not.
fn apply_binary(
    strict: bool,
    unsigned: bool,
    operator: Operator,
    a: Option<i64>,
    b: Option<i64>,
) -> Option<i64>
    ensures { result ≡ spec.apply_binary strict unsigned operator a b }
{
    match (a, b) {
        (Some(a), Some(b)) => apply_binary_known(unsigned, operator, a, b),
        (Some(known), None) | (None, Some(known)) => short_circuits(strict, operator, known),
        (None, None) => None,
    }
}

/// Returns the value of a binary operator between two operands.
#[inline(always)]
pub(crate) fn binary_amount(
    strict: bool,
    unsigned: bool,
    operator: Operator,
    a: Amount,
    b: Amount,
) -> Amount
    ensures { result ≡ spec.binary_amount strict unsigned operator a b }
{
    match (a, b) {
        (Amount::Exactly(a), Amount::Exactly(b)) => {
            exactly(apply_binary_known(unsigned, operator, a, b))
        }
        (Amount::Exactly(known), Amount::Anything) | (Amount::Anything, Amount::Exactly(known)) => {
            exactly(short_circuits(strict, operator, known))
        }
        (Amount::Anything, Amount::Anything) => Amount::Anything,
        _ => least_binary(strict, unsigned, operator, a, b),
    }
}

/// Returns the value of a binary operator, if an operand is known to be at least a number.
#[inline(never)]
fn least_binary(strict: bool, unsigned: bool, operator: Operator, a: Amount, b: Amount) -> Amount
    ensures { result ≡ spec.binary_amount strict unsigned operator a b }
{
    let first = counted(operator, a, b);
    let second = counted(mirrored(operator), b, a);
    exactly(apply_binary(strict, unsigned, operator, first, second))
}

/// Applies a prefix operator to a known operand.
#[tactic(auto, unfolding(ud_model::specs::conditions::Values::apply_unary_known))]
fn apply_unary_known(unsigned: bool, operator: Operator, a: i64) -> Option<i64>
    ensures { result ≡ spec.apply_unary_known unsigned operator a }
{
    match operator {
        Operator::Not => Some(truth(a == 0)),
        Operator::Minus => fit_checked(unsigned, a.checked_neg()),
        Operator::Complement => fit(unsigned, !a),
        _ => None,
    }
}

/// Applies a prefix operator to an operand, known or not.
fn apply_unary(unsigned: bool, operator: Operator, a: Option<i64>) -> Option<i64>
    ensures { result ≡ spec.apply_unary unsigned operator a }
{
    apply_unary_known(unsigned, operator, a?)
}

/// Returns the value of a prefix operator before its operand.
pub(crate) fn unary_amount(unsigned: bool, operator: Operator, a: Amount) -> Amount
    ensures { result ≡ spec.unary_amount unsigned operator a }
{
    exactly(apply_unary(unsigned, operator, counted(operator, a, Amount::Anything)))
}

/// Returns the value of a prefix operator and its operand.
#[inline(always)]
pub(crate) fn unary(scope: &Scope<'_>, operator: Operator, a: Value) -> Value
    ensures { result ≡ unary_value_of scope.now.unsigned operator a }
{
    Value {
        number: unary_amount(scope.unsigned, operator, a.number),
        unsigned: a.unsigned,
        listed: a.listed,
        calls_undefined: a.calls_undefined,
    }
}

/// Returns the value of two operands and the operator between them.
#[inline(always)]
pub(crate) fn binary(scope: &Scope<'_>, operator: Operator, a: Value, b: Value) -> Value
    ensures { result ≡ binary_value_of scope.now.strict scope.now.unsigned operator a b }
{
    Value {
        number: binary_amount(scope.strict, scope.unsigned, operator, a.number, b.number),
        unsigned: a.unsigned || b.unsigned,
        listed: a.listed || b.listed,
        calls_undefined: a.calls_undefined || b.calls_undefined,
    }
}
