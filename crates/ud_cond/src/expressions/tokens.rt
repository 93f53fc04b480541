//! The leading token of a text.
//!
//! `ud_model.specs.conditions.Tokens` defines the tokens of an expression (C11 6.4).

ghost use Rattle.std.specs.Prelude.{◌≡◌, drop, length, option_map, ◌-◌};
ghost use Rattle.ud_model.specs.conditions.Tokens as spec;
ghost use Rattle.ud_model.specs.text.Bytes as bytes;
ghost use Rattle.ud_cond.specs.CondViews.{as_next};

use crate::expressions::constants::is_constant;
use ud_model::Operator;
use ud_model::bytes::{is_word_byte, skip_white, word_len};

/// A token of an expression.
#[derive(Clone, Copy)]
pub enum Token<'a> {
    /// An integer constant.
    Number(&'a [u8]),
    /// An identifier other than `defined`, and whether arguments follow it.
    Name(&'a [u8], bool),
    /// The word `defined`.
    Defined,
    /// An operator.
    Operator(Operator),
    /// An opening parenthesis.
    Opening,
    /// A closing parenthesis.
    Closing,
}

/// The beginning of a text: its first token, if any.
#[derive(Clone, Copy)]
pub enum NextToken<'a> {
    /// White space alone.
    AtEnd,
    /// Text that begins with no token.
    Unreadable,
    /// A token, and the text after it.
    Found(Token<'a>, &'a [u8]),
}

/// Returns whether a text begins with a byte.
pub(crate) fn starts_with_byte(byte: u8, text: &[u8]) -> bool
    ensures { result ≡ bytes.starts_with_byte byte text.now }
{
    text.first() == Some(&byte)
}

/// Returns a text without its first `count` bytes, or without any if it has fewer.
pub(crate) fn skip_bytes(count: usize, text: &[u8]) -> &[u8]
    ensures { result.now ≡ drop count text.now }
{
    text.get(count..).unwrap_or(&[])
}

/// Returns what follows the `)` that closes a parenthesis. `text` begins inside it.
fn after_matching_paren(text: &[u8]) -> Option<&[u8]>
    ensures { option_map (λ rest. rest.now) result ≡ spec.after_matching_paren 0 text.now }
{
    let mut open: usize = 0;
    let mut rest = text;
    'inside: while let [byte, others @ ..] = rest {
        if *byte == b'(' {
            open += 1;
        } else if *byte == b')' {
            if open == 0 {
                return Some(others);
            }
            open -= 1;
        }
        rest = others;
    }
    None
}

/// Returns the token of a name, with the arguments after it if a `(` comes next.
#[inline(always)]
fn name_token<'a>(word: &'a [u8], rest: &'a [u8]) -> NextToken<'a>
    ensures { as_next result ≡ spec.name_token word.now rest.now }
{
    let next = skip_white(rest);
    if !starts_with_byte(b'(', next) {
        return NextToken::Found(Token::Name(word, false), rest);
    }
    match after_matching_paren(skip_bytes(1, next)) {
        None => NextToken::Unreadable,
        Some(rest) => NextToken::Found(Token::Name(word, true), rest),
    }
}

/// Returns whether a word ends in `e` or `E` and a sign follows. C reads both as one token
/// (C11 6.4.8).
fn has_exponent_sign(word: &[u8], rest: &[u8]) -> bool
    ensures { result ≡ spec.has_exponent_sign word.now rest.now }
{
    matches!(word.last(), Some(b'e' | b'E'))
        && (starts_with_byte(b'+', rest) || starts_with_byte(b'-', rest))
}

/// Returns the token of a word, which is a constant if it begins with a digit.
#[inline(always)]
fn word_token<'a>(word: &'a [u8], rest: &'a [u8]) -> NextToken<'a>
    ensures { as_next result ≡ spec.word_token word.now rest.now }
{
    match word {
        [b'0'..=b'9', ..] => {
            if is_constant(word) && !has_exponent_sign(word, rest) {
                NextToken::Found(Token::Number(word), rest)
            } else {
                NextToken::Unreadable
            }
        }
        b"defined" => NextToken::Found(Token::Defined, rest),
        _ => name_token(word, rest),
    }
}

/// Returns the two-byte operator if its second byte follows, else the one-byte operator.
#[inline(always)]
fn one_or_two_bytes<'a>(
    second: u8,
    long: Operator,
    short: Operator,
    rest: &'a [u8],
) -> NextToken<'a>
    ensures { as_next result ≡ spec.one_or_two_bytes second long short rest.now }
{
    if starts_with_byte(second, rest) {
        NextToken::Found(Token::Operator(long), skip_bytes(1, rest))
    } else {
        NextToken::Found(Token::Operator(short), rest)
    }
}

/// Returns an operator as a token, with the text after it.
#[inline(always)]
fn operator_token(operator: Operator, rest: &[u8]) -> NextToken<'_>
    ensures { as_next result ≡ spec.found (spec.operator operator) rest.now }
{
    NextToken::Found(Token::Operator(operator), rest)
}

/// Returns the token that begins with `byte`, which is in no word.
#[inline(always)]
fn punctuator(byte: u8, rest: &[u8]) -> NextToken<'_>
    ensures { as_next result ≡ spec.punctuator byte rest.now }
{
    match byte {
        b'(' => NextToken::Found(Token::Opening, rest),
        b')' => NextToken::Found(Token::Closing, rest),
        b'!' => one_or_two_bytes(b'=', Operator::NotEqual, Operator::Not, rest),
        b'<' => one_or_two_bytes(b'=', Operator::LessEqual, Operator::Less, rest),
        b'>' => one_or_two_bytes(b'=', Operator::GreaterEqual, Operator::Greater, rest),
        b'&' => one_or_two_bytes(b'&', Operator::And, Operator::BitAnd, rest),
        b'|' => one_or_two_bytes(b'|', Operator::Or, Operator::BitOr, rest),
        b'=' if starts_with_byte(b'=', rest) => operator_token(
            Operator::Equal,
            skip_bytes(1, rest),
        ),
        b'-' if !starts_with_byte(b'-', rest) => operator_token(Operator::Minus, rest),
        b'+' => operator_token(Operator::Plus, rest),
        b'*' => operator_token(Operator::Times, rest),
        b'/' => operator_token(Operator::Over, rest),
        b'%' => operator_token(Operator::Remainder, rest),
        b'^' => operator_token(Operator::BitXor, rest),
        b'~' => operator_token(Operator::Complement, rest),
        _ => NextToken::Unreadable,
    }
}

/// Returns the leading token of a text, and the text after it.
///
/// `text` may have any length and any bytes. It is the text of an expression, with comments as
/// spaces (C11 6.4).
#[tactic(auto, unfolding(ud_model::specs::conditions::Tokens::next_token))]
#[inline(always)]
pub fn next_token(text: &[u8]) -> NextToken<'_>
    ensures { as_next result ≡ spec.next_token text.now }
{
    let text = skip_white(text);
    match text {
        [] => NextToken::AtEnd,
        [first, rest @ ..] => {
            if is_word_byte(*first) {
                let length = word_len(text);
                word_token(&text[..length], &text[length..])
            } else {
                punctuator(*first, rest)
            }
        }
    }
}
