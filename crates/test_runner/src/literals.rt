//! C string literals, as case files have them.

use std::alloc::{AllocError, Global};

/// The part of an escape sequence that was read.
#[derive(Clone, Copy)]
enum Escape {
    /// No escape sequence is open.
    None,
    /// A backslash was read.
    Started,
    /// `\x` was read.
    Hex,
    /// `\x` and its first digit were read.
    HexDigit(u8),
}

/// Returns the bytes that the inside of a C string literal stands for, or `None` if it has an
/// unknown or an unfinished escape sequence.
///
/// `\n`, `\r`, `\t`, `\f`, `\v`, `\0`, `\\`, `\"` and `\xHH` with two hexadecimal digits are known
/// (C11 6.4.4.4).
///
/// # Errors
/// Fails if memory runs out.
pub(crate) fn unescape(alloc: Global, text: &str) -> Result<Option<Vec<u8>>, AllocError> {
    let mut bytes = Vec::new(alloc);
    let mut escape = Escape::None;
    for byte in text.bytes() {
        let (next, done) = match step(escape, byte) {
            Some(step) => step,
            None => return Ok(None),
        };
        escape = next;
        if let Some(byte) = done {
            bytes.push(byte)?;
        }
    }
    Ok(match escape {
        Escape::None => Some(bytes),
        _ => None,
    })
}

/// Reads one byte more. Returns how far the escape sequence is then, and the byte that has ended.
fn step(escape: Escape, byte: u8) -> Option<(Escape, Option<u8>)> {
    match escape {
        Escape::None if byte == b'\\' => Some((Escape::Started, None)),
        Escape::None => Some((Escape::None, Some(byte))),
        Escape::Started if byte == b'x' => Some((Escape::Hex, None)),
        Escape::Started => Some((Escape::None, Some(simple(byte)?))),
        Escape::Hex => Some((Escape::HexDigit(hex_value(byte)?), None)),
        Escape::HexDigit(first) => {
            let value = first.wrapping_mul(16).wrapping_add(hex_value(byte)?);
            Some((Escape::None, Some(value)))
        }
    }
}

/// Returns the byte that a backslash and this letter stand for.
fn simple(letter: u8) -> Option<u8> {
    Some(match letter {
        b'n' => b'\n',
        b'r' => b'\r',
        b't' => b'\t',
        b'f' => 0x0c,
        b'v' => 0x0b,
        b'0' => 0,
        b'\\' | b'"' => letter,
        _ => return None,
    })
}

/// Returns the value of a hexadecimal digit.
fn hex_value(digit: u8) -> Option<u8> {
    match digit {
        b'0'..=b'9' => Some(digit - b'0'),
        b'a'..=b'f' => Some(digit - b'a' + 10),
        b'A'..=b'F' => Some(digit - b'A' + 10),
        _ => None,
    }
}
