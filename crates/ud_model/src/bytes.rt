//! The classes of bytes: white space, and the bytes of words.
//!
//! The classes are those of ASCII; bytes from 128 on and NUL belong to no word. They are defined in
//! `specs/text/Bytes.antt`, and the names of symbols in `specs/answer/SymbolArguments.antt`.

ghost use Rattle.std.specs.Prelude.{◌≡◌, ◌≤◌, ◌∷◌, [], take, drop, length};
ghost use Rattle.ud_model.specs.text.Bytes.{is_white, is_digit, is_word_byte, is_identifier};
ghost use Rattle.ud_model.specs.text.Bytes.{are_white, are_word_bytes, skip_white, leading_word};
ghost use Rattle.ud_model.specs.text.Bytes.{skip_word};
ghost use Rattle.ud_model.specs.answer.SymbolArguments.{is_name};

/// Returns whether `byte` is white space within a line: space, tab, vertical tab, form feed or
/// carriage return.
#[inline(always)]
pub fn is_white(byte: u8) -> bool
    ensures { result ≡ is_white byte }
{
    byte == b' ' || byte < b' ' && matches!(byte, b'\t' | b'\x0b' | b'\x0c' | b'\r')
}

/// Returns whether `byte` is a digit.
pub fn is_digit(byte: u8) -> bool
    ensures { result ≡ is_digit byte }
{
    byte.is_ascii_digit()
}

/// The word bytes, each at its own index; a period fills every other index.
static WORD_BYTES: [u8; 256] = *b"\
    ................................\
    ................0123456789......\
    .ABCDEFGHIJKLMNOPQRSTUVWXYZ...._\
    .abcdefghijklmnopqrstuvwxyz.....\
    ................................\
    ................................\
    ................................\
    ................................";

/// Returns whether `byte` is a letter, a digit or an underscore.
#[inline(always)]
pub fn is_word_byte(byte: u8) -> bool
    ensures { result ≡ is_word_byte byte }
{
    WORD_BYTES[byte as usize] != b'.'
}

/// Returns whether `text` is an identifier: one or more word bytes, not beginning with a digit.
pub fn is_identifier(text: &[u8]) -> bool
    ensures { result ≡ is_identifier text.now }
{
    match text.first() {
        Some(first) => !is_digit(*first) && are_word_bytes(text),
        None => false,
    }
}

/// Returns whether `text` may name a symbol: an identifier other than `defined` (C11 6.10.8p4).
pub fn is_name(text: &[u8]) -> bool
    ensures { result ≡ is_name text.now }
{
    is_identifier(text) && text != b"defined".as_slice()
}

/// Returns whether each byte is a letter, a digit or an underscore.
pub fn are_word_bytes(bytes: &[u8]) -> bool
    ensures { result ≡ are_word_bytes bytes.now }
{
    bytes.iter().all(|byte| is_word_byte(*byte))
}

/// Returns whether each byte is white space.
#[inline(always)]
pub fn are_white(bytes: &[u8]) -> bool
    ensures { result ≡ are_white bytes.now }
{
    skip_white(bytes).is_empty()
}

/// Returns the rest after the leading white space.
#[inline(always)]
pub fn skip_white(bytes: &[u8]) -> &[u8]
    ensures { result.now ≡ skip_white bytes.now }
{
    let mut rest = bytes;
    while let Some((first, others)) = rest.split_first() {
        if !is_white(*first) {
            break;
        }
        rest = others;
    }
    rest
}

/// Returns the length of the longest prefix that has only word bytes.
///
/// Reads four bytes at a time: each then takes three instructions.
#[inline(always)]
pub fn word_len(bytes: &[u8]) -> usize
    ensures bound { result ≤ length bytes.now }
    ensures word { take result bytes.now ≡ leading_word bytes.now }
    ensures rest { drop result bytes.now ≡ skip_word bytes.now }
{
    let mut at = 0;
    let mut rest = bytes;
    'fours: while let [a, b, c, d, after @ ..] = rest {
        let count = word_len_of_four(*a, *b, *c, *d);
        if count < 4 {
            return at + count;
        }
        at += 4;
        rest = after;
    }
    at + word_len_one_by_one(rest)
}

/// Returns the length of the longest prefix of four bytes that has only word bytes.
#[inline(always)]
fn word_len_of_four(a: u8, b: u8, c: u8, d: u8) -> usize
    ensures { result ≡ length (leading_word (a ∷ b ∷ c ∷ d ∷ [])) }
{
    if !is_word_byte(a) {
        0
    } else if !is_word_byte(b) {
        1
    } else if !is_word_byte(c) {
        2
    } else if !is_word_byte(d) {
        3
    } else {
        4
    }
}

/// Returns the length of the longest prefix that has only word bytes, one byte at a time.
#[inline(always)]
fn word_len_one_by_one(bytes: &[u8]) -> usize
    ensures { result ≡ length (leading_word bytes.now) }
{
    bytes
        .iter()
        .position(|byte| !is_word_byte(*byte))
        .unwrap_or(bytes.len())
}
