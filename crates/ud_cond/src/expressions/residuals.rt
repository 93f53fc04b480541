//! The residual of any expression, by a reader that keeps parts with flags.
//!
//! No memory is taken. Each token has a flag: whether the residual has it. The flags of a part lie
//! side by side, so an operand is removed by one fill. What is kept already isn't filled again, nor
//! what is removed from the beginning of a part on. So the time for a chain of operators is linear
//! in its length.
//! `specs.expressions.ResidualReading` defines the record of a part (`Kept`).

ghost use Rattle.std.specs.Prelude.{◌≡◌, ◌≤◌, ◌<◌, ◌+◌, ℕ, List, Bool, true, false, ◌&&◌, [], ◌∷◌};
ghost use Rattle.std.specs.Prelude.{◌++◌, length, replicate, Some, None, IfSome, IfNone};
ghost use Rattle.ud_model.specs.conditions.Table.{Argument};
ghost use Rattle.ud_model.specs.aids.Residuals as residuals;
ghost use Rattle.ud_model.specs.conditions.Parsing as parsing;
ghost use Rattle.ud_model.specs.conditions.Parsing.{reads, needs};
ghost use Rattle.ud_model.specs.declared.limits.TheConstants.{MAX_LINE_BYTES};
ghost use Rattle.ud_cond.specs.CondViews.{as_rules};
ghost use Rattle.ud_cond.specs.symbols.SymbolTable.{TableRepresents};
ghost use Rattle.ud_cond.specs.expressions.Stacks.{Suffice};
ghost use Rattle.ud_cond.specs.expressions.Evaluation.{binary_value_of};
ghost use Rattle.ud_cond.specs.expressions.Keepings.{KeepsBinary, IsMeant};
ghost use Rattle.ud_cond.specs.expressions.ResidualReading as spec;
ghost use Rattle.ud_cond.specs.expressions.ResidualReading.{kept_keeping, joined_kept};
ghost use Rattle.ud_cond.specs.expressions.ResidualReading.{kept_meaning_of, KeepsWhole, lost_len};
ghost use Rattle.ud_cond.specs.expressions.ResidualReading.{HasResidual};

use crate::conditions::{Rules, negate};
use crate::expressions::keeper::Keeper;
use crate::expressions::parts::{Part, leaf_part};
use crate::expressions::reader::read;
use crate::expressions::stacks::{LINE_OPERANDS, Stacks};
use crate::expressions::values::{
    Scope, Value, binary, binary_amount, constant, defined, name_value, unary, unary_amount,
};
use crate::symbols::Symbols;
use crate::token_flags::TokenFlags;
use ud_model::{Cond, MAX_LINE_BYTES, Operator};

/// Returns whether beside an operand with this condition the other one alone decides.
fn is_unit(operator: Operator, cond: Cond) -> bool
    ensures { result ≡ residuals.is_unit operator cond }
{
    match operator {
        Operator::And => cond == Cond::Yes,
        Operator::Or => cond == Cond::No,
        _ => false,
    }
}

/// Returns whether an operator is `&&` or `||`.
fn is_joining(operator: Operator) -> bool
    ensures { result ≡ spec.is_joining operator }
{
    matches!(operator, Operator::And | Operator::Or)
}

/// Returns whether an operator is `!`.
fn is_not(operator: Operator) -> bool
    ensures { result ≡ spec.is_not operator }
{
    matches!(operator, Operator::Not)
}

/// Returns whether an operand with this condition decides the operator.
fn settles(operator: Operator, cond: Cond) -> bool
    ensures { result ≡ residuals.settles operator cond }
{
    match operator {
        Operator::And => cond == Cond::No,
        Operator::Or => cond == Cond::Yes,
        _ => false,
    }
}

/// Returns the condition of an operator between operands, neither of which is a unit.
fn settled(strict: bool, operator: Operator, a: Cond, b: Cond) -> Cond
    ensures { result ≡ residuals.settled strict operator a b }
{
    if settles(operator, a) && !(strict && b == Cond::Unknown) {
        a
    } else if settles(operator, b) && !(strict && a == Cond::Unknown) {
        b
    } else {
        Cond::Unknown
    }
}

/// Returns whether both are true.
fn both(a: bool, b: bool) -> bool
    ensures { result ≡ (a && b) }
{
    a && b
}

/// Keeps each token of a part, unless the whole part is kept already.
fn keep_whole(whole: bool, flags: &mut TokenFlags, start: usize, end: usize)
    ensures kept { KeepsWhole whole flags.old start end flags.new }
    ensures long { length flags.new ≡ length flags.old }
{
    if !whole {
        flags.fill(start, end, true);
    }
}

/// Returns the index of the first kept flag of a part that goes on with flags that aren't kept, up
/// to `longer`. The index was `kept` when the part ended at `end`.
fn kept_of_longer(kept: usize, end: usize, longer: usize) -> usize
    ensures { (n m : ℕ) (fs : List Bool) → kept ≡ n + lost_len fs → end ≡ n + length fs →
        longer ≡ end + m → result ≡ n + lost_len (fs ++ replicate m false) }
{
    if kept < end { kept } else { longer }
}

/// Returns the same index for a part in parentheses from `first` up to `longer`, which are kept or
/// not.
fn kept_in_parens(stay: bool, first: usize, kept: usize, end: usize, longer: usize) -> usize
    ensures { (fs : List Bool) → kept ≡ first + 1 + lost_len fs → end ≡ first + 1 + length fs →
        longer ≡ end + 1 → result ≡ first + lost_len (stay ∷ fs ++ stay ∷ []) }
{
    if stay {
        return first;
    }
    kept_of_longer(kept, end, longer)
}

/// The keeper of parts with the conditions of their residuals.
#[derive(Clone, Copy)]
pub(crate) struct Residuals<'a> {
    /// The table.
    symbols: &'a Symbols,
    /// The options for the values of expressions.
    rules: Rules,
}

impl Residuals<'_> {
    /// Returns the scope of an expression with or without a `u`.
    fn scope(&self, unsigned: bool) -> Scope<'_>
        ensures symbols { result.symbols ≡ Some self.now.symbols }
        ensures strict { result.strict ≡ self.now.rules.strict }
        ensures unsigned { result.unsigned ≡ unsigned }
    {
        Scope {
            symbols: Some(self.symbols),
            strict: self.rules.strict,
            unsigned,
        }
    }

    /// Returns the signed value of two operands and the operator between them.
    fn binary_value(&self, operator: Operator, a: Value, b: Value) -> Value
        ensures { result ≡ binary_value_of self.now.rules.strict false operator a b }
    {
        binary(&self.scope(false), operator, a, b)
    }

    /// Joins the last two operands by `&&` or `||`.
    fn join(&self, operator: Operator, a: Part, b: Part, flags: &mut TokenFlags) -> Part
        ensures kept { KeepsBinary kept_keeping (joined_kept (as_rules self.now.rules) operator) a b
            flags.old result flags.new }
        ensures long { length flags.new ≡ length flags.old }
    {
        let joined = Part {
            value: self.binary_value(operator, a.value, b.value),
            number: binary_amount(self.rules.strict, true, operator, a.number, b.number),
            lost: true,
            alone: false,
            whole: false,
            ..a
        };
        if is_unit(operator, a.cond) {
            flags.fill(a.kept, b.first, false);
            return Part {
                cond: b.cond,
                left_alone: b.left_alone,
                kept: b.kept,
                ..joined
            };
        }
        if is_unit(operator, b.cond) {
            let end = b.first.saturating_sub(1);
            let longer = flags.len();
            flags.fill(end, longer, false);
            return Part {
                kept: kept_of_longer(a.kept, end, longer),
                ..joined
            };
        }
        Part {
            cond: settled(self.rules.strict, operator, a.cond, b.cond),
            lost: false,
            left_alone: false,
            whole: both(a.whole, b.whole),
            ..joined
        }
    }
}

impl Keeper for Residuals<'_> {
    ghost use Rattle.ud_cond.specs.expressions.ResidualReading.{Kept, kept_meaning_of};
    ghost use Rattle.ud_cond.specs.expressions.ResidualReading.{kept_keeping};

    type Part = Part;

    type Notes = TokenFlags;

    ghost Meant = { Kept };

    ghost meaning = { kept_meaning_of };

    ghost keeping = { kept_keeping };

    fn note(&self, flags: &mut TokenFlags) {
        flags.push(true);
    }

    fn constant(&self, word: &[u8], flags: &mut TokenFlags) -> Part {
        let first = flags.len();
        flags.push(true);
        let value = constant(word);
        leaf_part(self.rules, value, value.number, false, first)
    }

    fn named(&self, name: &[u8], arguments: bool, flags: &mut TokenFlags) -> Part {
        let first = flags.len();
        flags.push(true);
        let value = name_value(&self.scope(false), name, arguments);
        let other = name_value(&self.scope(true), name, arguments);
        leaf_part(self.rules, value, other.number, false, first)
    }

    fn asked(&self, name: &[u8], enclosed: bool, flags: &mut TokenFlags) -> Part {
        let first = flags.len();
        flags.push(true);
        flags.push(true);
        if enclosed {
            flags.push(true);
            flags.push(true);
        }
        let value = defined(&self.scope(false), name);
        leaf_part(self.rules, value, value.number, true, first)
    }

    fn unary(&self, operator: Operator, a: Part, flags: &mut TokenFlags) -> Part {
        let first = a.first.saturating_sub(1);
        let value = unary(&self.scope(false), operator, a.value);
        let number = unary_amount(true, operator, a.number);
        if is_not(operator) {
            return Part {
                value,
                number,
                cond: negate(a.cond),
                lost: false,
                left_alone: a.left_alone,
                alone: a.alone,
                whole: a.whole,
                first,
                kept: first,
            };
        }
        keep_whole(a.whole, flags, first, flags.len());
        leaf_part(self.rules, value, number, a.alone, first)
    }

    fn binary(&self, operator: Operator, a: Part, b: Part, flags: &mut TokenFlags) -> Part {
        if is_joining(operator) {
            return self.join(operator, a, b, flags);
        }
        let value = self.binary_value(operator, a.value, b.value);
        let number = binary_amount(self.rules.strict, true, operator, a.number, b.number);
        keep_whole(a.whole, flags, a.first, b.first.saturating_sub(1));
        keep_whole(b.whole, flags, b.first, flags.len());
        leaf_part(self.rules, value, number, false, a.first)
    }

    fn parens(&self, a: Part, flags: &mut TokenFlags) -> Part {
        let first = a.first.saturating_sub(1);
        let stay = !both(a.lost, a.left_alone);
        let end = flags.len();
        flags.fill(first, a.first, stay);
        flags.push(stay);
        let longer = flags.len();
        Part {
            left_alone: true,
            alone: true,
            whole: both(stay, a.whole),
            first,
            kept: kept_in_parens(stay, first, a.kept, end, longer),
            ..a
        }
    }
}

/// Reads a text of at most `BYTES` bytes. Returns `None` if the text isn't one expression.
#[inline(never)]
fn read_with_stacks<const BYTES: usize, const OPERANDS: usize>(
    residuals: &Residuals<'_>,
    text: &[u8],
    flags: &mut TokenFlags,
) -> Option<Part>
    requires fits { length text.now ≤ BYTES }
    requires stacks { Suffice BYTES OPERANDS }
    requires fresh { flags.old ≡ [] }
    ensures some { IfSome result (λ r. IsMeant kept_keeping (reads (kept_meaning_of residuals.now)
        (needs []) text.now) r flags.new) }
    ensures none { IfNone result
        (reads (kept_meaning_of residuals.now) (needs []) text.now ≡ None) }
{
    let mut stacks = Stacks::<Part, BYTES, OPERANDS>::new();
    read(residuals, &mut stacks, flags, text)
}

/// Reads a text of at most `MAX_LINE_BYTES`. Returns `None` if the text isn't one expression.
fn read_text(residuals: &Residuals<'_>, text: &[u8], flags: &mut TokenFlags) -> Option<Part>
    requires fits { length text.now ≤ MAX_LINE_BYTES }
    requires fresh { flags.old ≡ [] }
    ensures some { IfSome result (λ r. IsMeant kept_keeping (reads (kept_meaning_of residuals.now)
        (needs []) text.now) r flags.new) }
    ensures none { IfNone result
        (reads (kept_meaning_of residuals.now) (needs []) text.now ≡ None) }
{
    match text.len() {
        0..=128 => read_with_stacks::<128, 64>(residuals, text, flags),
        0..=1024 => read_with_stacks::<1024, 512>(residuals, text, flags),
        0..=8192 => read_with_stacks::<8192, 4096>(residuals, text, flags),
        _ => read_with_stacks::<MAX_LINE_BYTES, LINE_OPERANDS>(residuals, text, flags),
    }
}

/// Returns the condition of the residual of the text of an `#if` or `#elif`.
///
/// `text` is what follows the keyword on its masked line, at most `MAX_LINE_BYTES`. The residual is
/// the expression without the operands that `symbols` decides, and without their operators. `flags`
/// then has a flag for each token of the text: whether the residual has it. Returns `None` if the
/// text isn't an expression. Takes no memory.
///
/// Call `condition` first: a decided text needs no residual. If the residual is unknown, call
/// `condition` again on the tokens that are left, since a `u` may have hidden a negative number.
///
/// (C11 6.5.13p3, 6.5.14p3, 6.10.1)
pub fn residual(
    text: &[u8],
    symbols: &Symbols,
    rules: Rules,
    flags: &mut TokenFlags,
) -> Option<Cond>
    requires fits { length text.now ≤ MAX_LINE_BYTES }
    ensures some { IfSome result (λ r. (calls : List Argument) →
        TableRepresents symbols.now calls →
        HasResidual calls (as_rules rules) text.now r flags.new) }
    ensures none { IfNone result (parsing.expression_of text.now ≡ None) }
{
    flags.clear();
    let whole = read_text(&Residuals { symbols, rules }, text, flags)?;
    Some(whole.cond)
}
