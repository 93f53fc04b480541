//! Integer constants and their values.
//!
//! `ud_model.specs.conditions.Constants` defines what a constant is (C11 6.4.4.1).

ghost use Rattle.std.specs.Prelude.{◌≡◌, ◌≤◌, ◌<◌, length, map, IfSome};
ghost use Rattle.std.specs.List.{prefix_len};
ghost use Rattle.ud_model.specs.conditions.Constants as spec;
ghost use Rattle.ud_model.specs.conditions.Values.{limited, constant_value};
ghost use Rattle.ud_cond.specs.CondViews.{as_parts, base_of, is_digit_of};
ghost use Rattle.ud_cond.specs.expressions.Digits.{IsOneDigit};

use crate::expressions::tokens::{skip_bytes, starts_with_byte};

/// The base of a constant.
#[derive(Clone, Copy)]
enum Base {
    /// Base 8.
    Octal,
    /// Base 10.
    Decimal,
    /// Base 16.
    Hexadecimal,
}

/// A word, split into the digits of a base and what follows them.
#[derive(Clone, Copy)]
struct ConstantParts<'a> {
    /// The base of the digits.
    base: Base,
    /// The digits.
    digits: &'a [u8],
    /// The bytes after the digits.
    suffix: &'a [u8],
}

/// The suffixes with a `u` or `U`.
const UNSIGNED: [&[u8]; 18] = [
    b"u", b"U", b"ul", b"uL", b"ull", b"uLL", b"Ul", b"UL", b"Ull", b"ULL", b"lu", b"lU", b"Lu",
    b"LU", b"llu", b"llU", b"LLu", b"LLU",
];

/// The suffixes without a `u` or `U`, the empty one included.
const SIGNED: [&[u8]; 5] = [b"", b"l", b"L", b"ll", b"LL"];

/// Returns whether a byte is a digit of a base.
fn is_digit_of(base: Base, byte: u8) -> bool
    ensures { result ≡ is_digit_of base byte }
{
    match base {
        Base::Octal => b'0' <= byte && byte <= b'7',
        Base::Decimal => byte.is_ascii_digit(),
        Base::Hexadecimal => byte.is_ascii_hexdigit(),
    }
}

/// Returns the number of leading digits of a base.
fn digits_len(base: Base, text: &[u8]) -> usize
    ensures value { result ≡ prefix_len (is_digit_of base) text.now }
    ensures within { result ≤ length text.now }
{
    let mut count = 0;
    'digits: while count < text.len() && is_digit_of(base, text[count]) {
        count += 1;
    }
    count
}

/// Splits a text after its leading digits of a base.
fn split_digits(base: Base, text: &[u8]) -> ConstantParts<'_>
    ensures { as_parts result ≡ spec.split_digits (is_digit_of base) (base_of base) text.now }
{
    let count = digits_len(base, text);
    ConstantParts {
        base,
        digits: &text[..count],
        suffix: &text[count..],
    }
}

/// Returns whether a word begins with `0x` or `0X`.
fn has_hex_prefix(word: &[u8]) -> bool
    ensures { result ≡ spec.has_hex_prefix word.now }
{
    if !starts_with_byte(b'0', word) {
        return false;
    }
    let rest = skip_bytes(1, word);
    starts_with_byte(b'x', rest) || starts_with_byte(b'X', rest)
}

/// Splits a word into the parts of a constant.
fn constant_parts(word: &[u8]) -> ConstantParts<'_>
    ensures { as_parts result ≡ spec.constant_parts word.now }
{
    if has_hex_prefix(word) {
        split_digits(Base::Hexadecimal, skip_bytes(2, word))
    } else if starts_with_byte(b'0', word) {
        split_digits(Base::Octal, word)
    } else {
        split_digits(Base::Decimal, word)
    }
}

/// Returns whether a text is one of `words`.
fn is_one_of_texts(mut words: &[&[u8]], text: &[u8]) -> bool
    ensures { result ≡ spec.is_one_of_texts (map (λ w. w.now) words.entry.now) text.now }
{
    'words: while let [word, others @ ..] = words {
        if *word == text {
            return true;
        }
        words = others;
    }
    false
}

/// Returns whether a suffix has a `u`, or `None` if the text isn't a suffix.
#[tactic(auto, unfolding(ud_model::specs::conditions::Constants::suffix_sign))]
fn suffix_sign(suffix: &[u8]) -> Option<bool>
    ensures { result ≡ spec.suffix_sign suffix.now }
{
    if suffix.is_empty() {
        Some(false)
    } else if is_one_of_texts(&UNSIGNED, suffix) {
        Some(true)
    } else if is_one_of_texts(&SIGNED, suffix) {
        Some(false)
    } else {
        None
    }
}

/// Returns whether a constant has a `u`, or `None` if the word isn't a constant.
fn constant_sign(word: &[u8]) -> Option<bool>
    ensures { result ≡ spec.constant_sign (spec.constant_parts word.now) }
{
    let parts = constant_parts(word);
    if parts.digits.is_empty() {
        None
    } else {
        suffix_sign(parts.suffix)
    }
}

/// Returns whether a word is an integer constant.
#[inline(always)]
pub(crate) fn is_constant(word: &[u8]) -> bool
    ensures { result ≡ spec.is_constant word.now }
{
    if single_digit_value(word).is_some() {
        return true;
    }
    constant_sign(word).is_some()
}

/// Returns whether a word is an integer constant with a `u` or `U`.
pub(crate) fn has_u(word: &[u8]) -> bool
    ensures { result ≡ spec.has_u word.now }
{
    constant_sign(word).unwrap_or(false)
}

/// Returns the value of a digit.
fn digit_value(digit: u8) -> u8
    ensures { result ≡ spec.digit_value digit }
{
    if digit <= b'9' {
        digit.saturating_sub(48)
    } else if digit <= b'F' {
        digit.saturating_sub(55)
    } else {
        digit.saturating_sub(87)
    }
}

/// Returns the number of a base.
fn radix(base: Base) -> u64
    ensures { result ≡ base_of base }
{
    match base {
        Base::Octal => 8,
        Base::Decimal => 10,
        Base::Hexadecimal => 16,
    }
}

/// Returns the number that digits of a base spell, or `None` if it is above 2^63-1.
fn number(base: Base, digits: &[u8]) -> Option<i64>
    ensures { result ≡ limited (spec.append_digits (base_of base) 0 digits.now) }
{
    let times = radix(base);
    let mut number: u64 = 0;
    let mut rest = digits;
    'digits: while let [digit, others @ ..] = rest {
        let product = number.checked_mul(times)?;
        number = product.checked_add(u64::from(digit_value(*digit)))?;
        rest = others;
    }
    if number < 0x8000_0000_0000_0000 {
        Some(number as i64)
    } else {
        None
    }
}

/// Returns the value of a one-digit constant, the common case.
#[inline(always)]
pub(crate) fn single_digit_value(word: &[u8]) -> Option<i64>
    ensures { IfSome result (IsOneDigit word.now) }
{
    match word {
        [digit] => {
            if !digit.is_ascii_digit() {
                return None;
            }
            Some(digit_value(*digit) as i64)
        }
        _ => None,
    }
}

/// Returns the number that a word's digits spell, or `None` if it is above 2^63-1.
pub(crate) fn constant_value(word: &[u8]) -> Option<i64>
    ensures { result ≡ constant_value word.now }
{
    let parts = constant_parts(word);
    number(parts.base, parts.digits)
}
