//! Whether a text has exactly the tokens that are left of another one.

ghost use Rattle.std.specs.Prelude.{◌≡◌, List, [], ◌∷◌, Bool, length, Some, false, IfSome, IfNone};
ghost use Rattle.std.specs.Prelude.{bytes_eq};
ghost use Rattle.ud_model.specs.conditions.Tokens.{Token as SpecToken, found};
ghost use Rattle.ud_model.specs.conditions.Tokens.{next_token as spec_next};
ghost use Rattle.ud_simplified.specs.ResidualTexts as spec;
ghost use Rattle.ud_model.specs.aids.Residuals.{chosen};
ghost use Rattle.ud_simplified.specs.ResidualTexts.{are_tokens, operator_bytes};
ghost use Rattle.ud_model.specs.conditions.Parsing.{tokens_of};
ghost use Rattle.ud_cond.specs.CondViews.{as_token};

use ud_cond::{NextToken, Token, next_token};
use ud_model::Operator;

/// Returns whether two operators are the same.
fn same_operator(a: Operator, b: Operator) -> bool
    ensures { result ≡ bytes_eq (operator_bytes a) (operator_bytes b) }
{
    a == b
}

/// Returns whether two tokens are the same.
fn same_token(a: Token<'_>, b: Token<'_>) -> bool
    ensures { result ≡ spec.same_token (as_token a.entry) (as_token b.entry) }
{
    match (a, b) {
        (Token::Number(word), Token::Number(other)) => word == other,
        (Token::Name(word, arguments), Token::Name(other, others)) => {
            word == other && arguments == others
        }
        (Token::Operator(operator), Token::Operator(other)) => same_operator(operator, other),
        (Token::Defined, Token::Defined) => true,
        (Token::Opening, Token::Opening) => true,
        (Token::Closing, Token::Closing) => true,
        _ => false,
    }
}

/// Returns the first token of a text, and what follows it.
fn first_token(text: &[u8]) -> Option<(Token<'_>, &[u8])>
    ensures some { IfSome result (λ t. spec_next text.now ≡ found (as_token t.0) t.1.now) }
    ensures none { IfNone result ((t : SpecToken) (tokens : List SpecToken) →
        tokens_of text.now ≡ Some (t ∷ tokens) → ⊥) }
{
    match next_token(text) {
        NextToken::Found(token, rest) => Some((token, rest)),
        NextToken::AtEnd => None,
        NextToken::Unreadable => None,
    }
}

/// Returns what follows the first token of a text, if it is this one.
fn after_token<'a>(text: &'a [u8], token: Token<'_>) -> Option<&'a [u8]>
    ensures some { IfSome result (λ rest. (tokens : List SpecToken) →
        are_tokens (tokens_of text.now) (as_token token.entry ∷ tokens) ≡
        are_tokens (tokens_of rest.now) tokens) }
    ensures none { IfNone result ((tokens : List SpecToken) →
        are_tokens (tokens_of text.now) (as_token token.entry ∷ tokens) ≡ false) }
{
    match next_token(text) {
        NextToken::Found(other, rest) => {
            if same_token(other, token) {
                Some(rest)
            } else {
                None
            }
        }
        NextToken::AtEnd => None,
        NextToken::Unreadable => None,
    }
}

/// Returns what follows this token at the beginning of `left`; `left` itself if `flag` is false.
fn after_left<'a>(left: &'a [u8], flag: bool, token: Token<'_>) -> Option<&'a [u8]>
    ensures some { IfSome result (λ rest. (flags : List Bool) (tokens : List SpecToken) →
        are_tokens (tokens_of left.now) (chosen (flag ∷ flags) (as_token token.entry ∷ tokens)) ≡
        are_tokens (tokens_of rest.now) (chosen flags tokens)) }
    ensures none { IfNone result ((flags : List Bool) (tokens : List SpecToken) →
        are_tokens (tokens_of left.now) (chosen (flag ∷ flags) (as_token token.entry ∷ tokens)) ≡
        false) }
{
    if flag {
        after_token(left, token)
    } else {
        Some(left)
    }
}

/// Returns whether a text is white space, without a token.
#[tactic(auto, using(crate::proofs::TokenLists::token_steps))]
fn has_no_token(text: &[u8]) -> bool
    ensures { result ≡ are_tokens (tokens_of text.now) [] }
{
    match next_token(text) {
        NextToken::AtEnd => true,
        NextToken::Found(_, _) => false,
        NextToken::Unreadable => false,
    }
}

/// Returns whether `left` has the tokens of `text` whose flag is true, and no others.
pub(crate) fn has_tokens(text: &[u8], flags: &[bool], left: &[u8]) -> bool
    ensures { (tokens : List SpecToken) → tokens_of text.now ≡ Some tokens →
        length flags.now ≡ length tokens →
        result ≡ are_tokens (tokens_of left.now) (chosen flags.now tokens) }
{
    let mut text_rest = text;
    let mut left_rest = left;
    for flag in flags {
        let Some((token, after)) = first_token(text_rest) else {
            return false;
        };
        let Some(others) = after_left(left_rest, *flag, token) else {
            return false;
        };
        text_rest = after;
        left_rest = others;
    }
    has_no_token(left_rest)
}
