//! The reader of any expression, token by token over two stacks of fixed size.
//!
//! No tree is built and no memory is taken. `ud_model.specs.conditions.Parsing` defines what a text
//! means in a state. A state is what is pending, on the stacks, and an operand, if one has come.
//! The reader knows operands only through its keeper, and `specs.expressions.Keepings` defines
//! which state it is in.

ghost use Rattle.std.specs.Prelude.{◌≡◌, ◌≤◌, ◌<◌, ◌+◌, List, [], length, option_map, None, IfSome};
ghost use Rattle.std.specs.Prelude.{IfNone};
ghost use Rattle.ud_model.specs.conditions.Tokens.{next_token as token_of};
ghost use Rattle.ud_model.specs.conditions.Parsing as spec;
ghost use Rattle.ud_model.specs.conditions.Parsing.{Frame, ParseState, needs, has, step, stuck};
ghost use Rattle.ud_model.specs.conditions.Parsing.{reads};
ghost use Rattle.ud_model.specs.declared.limits.TheConstants.{MAX_LINE_BYTES};
ghost use Rattle.ud_cond.specs.CondViews.{as_token};
ghost use Rattle.ud_cond.specs.expressions.DefinedOperands as asking;
ghost use Rattle.ud_cond.specs.expressions.Stacks.{weight, operand_weight};
ghost use Rattle.ud_cond.specs.expressions.Keepings.{count, Noted, IsAt, Represents, IsMeant};
ghost use Rattle.ud_cond.specs.expressions.Keepings.{ReadsOperand, ReadsOperator, tokens_asked};

use crate::expressions::keeper::Keeper;
use crate::expressions::operators::{is_prefix, precedence};
use crate::expressions::stacks::Stacks;
use crate::expressions::tokens::{NextToken, Token, next_token};
use ud_model::MAX_LINE_BYTES;

/// Parses a leading name without arguments. Returns the name and what follows it.
#[tactic(auto, using(ud_model::proofs::conditions::TokenLemmas::shorter))]
#[inline(always)]
fn plain_name(text: &[u8]) -> Option<(&[u8], &[u8])>
    ensures name { option_map (λ r. (r.0.now, r.1.now)) result ≡
        asking.plain_name (token_of text.now) }
    ensures shorter { IfSome result (λ r. length r.1.now < length text.now) }
{
    match next_token(text) {
        NextToken::Found(Token::Name(name, false), rest) => Some((name, rest)),
        _ => None,
    }
}

/// Returns what follows a leading `)`.
#[tactic(auto, using(ud_model::proofs::conditions::TokenLemmas::shorter))]
#[inline(always)]
fn after_paren(text: &[u8]) -> Option<&[u8]>
    ensures rest { option_map (λ r. r.now) result ≡ asking.after_paren (token_of text.now) }
    ensures shorter { IfSome result (λ r. length r.now < length text.now) }
{
    match next_token(text) {
        NextToken::Found(Token::Closing, rest) => Some(rest),
        _ => None,
    }
}

/// Parses the name and the `)` after `defined (`. Returns the name, `true` for the parentheses, and
/// what follows.
#[inline(always)]
fn enclosed_name(inside: &[u8]) -> Option<(&[u8], bool, &[u8])>
    ensures name { option_map (λ r. (r.0.now, r.1, r.2.now)) result ≡
        asking.enclosed_name (asking.plain_name (token_of inside.now)) }
    ensures shorter { IfSome result
        (λ r. length r.2.now + tokens_asked r.1 ≤ length inside.now + 2) }
{
    let (name, end) = plain_name(inside)?;
    let rest = after_paren(end)?;
    Some((name, true, rest))
}

/// Parses the name after `defined`. Returns the name, whether it is in parentheses, and what
/// follows.
#[tactic(auto, using(ud_model::proofs::conditions::TokenLemmas::shorter))]
#[inline(always)]
pub(crate) fn asked_name(text: &[u8]) -> Option<(&[u8], bool, &[u8])>
    ensures name { option_map (λ r. (r.0.now, r.1, r.2.now)) result ≡
        asking.asked_name (token_of text.now) }
    ensures shorter { IfSome result
        (λ r. length r.2.now + tokens_asked r.1 ≤ length text.now + 1) }
{
    match next_token(text) {
        NextToken::Found(Token::Name(name, false), rest) => Some((name, false, rest)),
        NextToken::Found(Token::Opening, inside) => enclosed_name(inside),
        _ => None,
    }
}

/// Applies the pending operators that bind at least as tightly as `least`, with `last` as their
/// last operand.
fn reduce<K: Keeper, const BYTES: usize, const OPERANDS: usize>(
    keeper: &K,
    stacks: &mut Stacks<K::Part, BYTES, OPERANDS>,
    notes: &mut K::Notes,
    least: u8,
    last: K::Part,
) -> K::Part
    ensures kept { (s : List (Frame K.Meant)) (k : K.Meant) →
        IsAt K.keeping stacks.old last notes.old (k, s) →
        IsAt K.keeping stacks.new result notes.new (spec.reduce (K.meaning keeper.now) least k s) }
    ensures lighter { weight stacks.new ≤ weight stacks.old }
    ensures long { count K.keeping notes.new ≤ count K.keeping notes.old }
{
    let mut part = last;
    'waiting: while let Some((operator, operand)) = stacks.pop_operator(least) {
        part = match operand {
            Some(operand) => keeper.binary(operator, operand, part, notes),
            None => keeper.unary(operator, part, notes),
        };
    }
    part
}

/// Reads a token where an operand must come.
///
/// Returns the operand that has now come, if any, and what follows. Returns `None` if no expression
/// continues with this token.
fn read_operand<'a, K: Keeper, const BYTES: usize, const OPERANDS: usize>(
    keeper: &K,
    stacks: &mut Stacks<K::Part, BYTES, OPERANDS>,
    notes: &mut K::Notes,
    token: Token<'a>,
    rest: &'a [u8],
) -> Option<(Option<K::Part>, &'a [u8])>
    requires room { weight stacks.old + 1 ≤ BYTES }
    requires fits { count K.keeping notes.old + length rest.now < MAX_LINE_BYTES }
    ensures some { IfSome result (λ r. ReadsOperand K.keeping (K.meaning keeper.now)
        stacks.old notes.old (as_token token.entry) rest.now r.0 stacks.new notes.new r.1.now) }
    ensures none { IfNone result ((s : List (Frame K.Meant)) → reads (K.meaning keeper.now)
        (step (K.meaning keeper.now) (needs s) (as_token token.entry)) rest.now ≡ None) }
    ensures lighter { IfSome result
        (λ r. weight stacks.new + operand_weight r.0 ≤ weight stacks.old + 1) }
    ensures shorter { IfSome result (λ r. length r.1.now ≤ length rest.now) }
    ensures long { IfSome result (λ r. count K.keeping notes.new + length r.1.now ≤
        count K.keeping notes.old + length rest.now + 1) }
{
    match token {
        Token::Number(word) => Some((Some(keeper.constant(word, notes)), rest)),
        Token::Name(name, arguments) => {
            let part = keeper.named(name, arguments, notes);
            Some((Some(part), rest))
        }
        Token::Defined => {
            let (name, enclosed, end) = asked_name(rest)?;
            let part = keeper.asked(name, enclosed, notes);
            Some((Some(part), end))
        }
        Token::Operator(operator) => {
            if !is_prefix(operator) {
                return None;
            }
            stacks.push_prefix(operator);
            keeper.note(notes);
            Some((None, rest))
        }
        Token::Opening => {
            stacks.push_paren();
            keeper.note(notes);
            Some((None, rest))
        }
        Token::Closing => None,
    }
}

/// Reads a token after an operand.
///
/// Returns the operand that has now come, if any; `None` if no expression continues so.
fn read_operator<K: Keeper, const BYTES: usize, const OPERANDS: usize>(
    keeper: &K,
    stacks: &mut Stacks<K::Part, BYTES, OPERANDS>,
    notes: &mut K::Notes,
    part: K::Part,
    token: Token<'_>,
) -> Option<Option<K::Part>>
    requires room { weight stacks.old + 2 ≤ BYTES }
    requires fits { count K.keeping notes.old < MAX_LINE_BYTES }
    ensures some { IfSome result (λ r. ReadsOperator K.keeping (K.meaning keeper.now)
        stacks.old part notes.old (as_token token.entry) r stacks.new notes.new) }
    ensures none { IfNone result ((s : List (Frame K.Meant)) (k : K.Meant) →
        IsAt K.keeping stacks.old part notes.old (k, s) →
        step (K.meaning keeper.now) (has k s) (as_token token.entry) ≡ stuck) }
    ensures lighter { IfSome result
        (λ r. weight stacks.new + operand_weight r ≤ weight stacks.old + 2) }
    ensures long { IfSome result
        (λ r. count K.keeping notes.new ≤ count K.keeping notes.old + 1) }
{
    match token {
        Token::Operator(operator) => {
            let tightness = precedence(operator);
            if tightness == 0 {
                return None;
            }
            let operand = reduce(keeper, stacks, notes, tightness, part);
            stacks.push_binary(operator, operand);
            keeper.note(notes);
            Some(None)
        }
        Token::Closing => {
            let inside = reduce(keeper, stacks, notes, 0, part);
            if !stacks.pop_paren() {
                return None;
            }
            Some(Some(keeper.parens(inside, notes)))
        }
        Token::Number(_) | Token::Name(_, _) | Token::Defined | Token::Opening => None,
    }
}

/// Returns the part of a whole expression at its end.
fn finish<K: Keeper, const BYTES: usize, const OPERANDS: usize>(
    keeper: &K,
    stacks: &mut Stacks<K::Part, BYTES, OPERANDS>,
    notes: &mut K::Notes,
    operand: Option<K::Part>,
) -> Option<K::Part>
    ensures some { IfSome result (λ r. (q : ParseState K.Meant) →
        Represents K.keeping operand stacks.old notes.old q →
        IsMeant K.keeping (spec.finish (K.meaning keeper.now) q) r notes.new) }
    ensures none { IfNone result ((q : ParseState K.Meant) →
        Represents K.keeping operand stacks.old notes.old q →
        spec.finish (K.meaning keeper.now) q ≡ None) }
{
    let whole = reduce(keeper, stacks, notes, 0, operand?);
    if stacks.is_empty() { Some(whole) } else { None }
}

/// Reads a text of at most `BYTES` bytes, over empty stacks. Returns `None` if the text isn't one
/// expression.
pub(crate) fn read<K: Keeper, const BYTES: usize, const OPERANDS: usize>(
    keeper: &K,
    stacks: &mut Stacks<K::Part, BYTES, OPERANDS>,
    notes: &mut K::Notes,
    text: &[u8],
) -> Option<K::Part>
    requires fits { length text.now ≤ BYTES }
    requires line { BYTES ≤ MAX_LINE_BYTES }
    requires empty { stacks.old ≡ [] }
    requires fresh { Noted K.keeping notes.old [] }
    ensures some { IfSome result (λ r. IsMeant K.keeping
        (reads (K.meaning keeper.now) (needs []) text.now) r notes.new) }
    ensures none { IfNone result (reads (K.meaning keeper.now) (needs []) text.now ≡ None) }
{
    let mut operand: Option<K::Part> = None;
    let mut rest = text;
    'tokens: loop {
        match next_token(rest) {
            NextToken::AtEnd => return finish(keeper, stacks, notes, operand),
            NextToken::Unreadable => return None,
            NextToken::Found(token, after) => match operand {
                None => {
                    let (next, end) = read_operand(keeper, stacks, notes, token, after)?;
                    operand = next;
                    rest = end;
                }
                Some(part) => {
                    operand = read_operator(keeper, stacks, notes, part, token)?;
                    rest = after;
                }
            },
        }
    }
}
