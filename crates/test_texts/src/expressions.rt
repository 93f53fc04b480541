//! Texts after `#if` and `#elif`: mostly expressions, and mostly of symbols that are listed.

use crate::writer::Writer;
use std::alloc::AllocError;

const OPERANDS: [&[u8]; 14] = [
    b"A",
    b"B",
    b"C",
    b"X",
    b"0",
    b"1",
    b"2",
    b"010",
    b"0x1f",
    b"defined A",
    b"defined(B)",
    b"defined ( C )",
    b"defined X",
    b"!defined(Y)",
];

const ODD_OPERANDS: [&[u8]; 13] = [
    b"3u",
    b"1UL",
    b"defined(X",
    b"A(1, (2))",
    b"B (",
    b"F(X)",
    b"9223372036854775807",
    b"9223372036854775808",
    b"08",
    b"1e+5",
    b"'a'",
    b"defined",
    b"$",
];

const PREFIXES: [&[u8]; 8] = [b"!", b"~", b"-", b"!!", b"(", b"((", b"+", b"--"];

const OPERATORS: [&[u8]; 21] = [
    b"&&", b"||", b" && ", b" || ", b"|", b"^", b"&", b"==", b"!=", b"<", b"<=", b">", b">=", b"+",
    b" - ", b"*", b"/", b"%", b"<<", b"?", b",",
];

/// The bytes that may come between two tokens: white space, comments and splices.
const GAPS: [&[u8]; 9] = [
    b" ", b"\t", b"\x0b", b"/**/", b"/* A */", b"\\\n", b"\\\r\n", b"/*\n*/", b"\0",
];

/// Writes an expression of at most `maximum` operands.
pub(crate) fn write_expression(writer: &mut Writer, maximum: usize) -> Result<(), AllocError> {
    for at in 0..1 + writer.random.below(maximum.max(1)) {
        if at > 0 {
            writer.put_one(&OPERATORS)?;
        }
        write_operand(writer)?;
    }
    Ok(())
}

/// Writes an operand, sometimes in parentheses or after a prefix.
fn write_operand(writer: &mut Writer) -> Result<(), AllocError> {
    if writer.one_in(6) {
        writer.put_one(&PREFIXES)?;
    }
    writer.put_odd(&GAPS)?;
    if writer.one_in(8) {
        writer.put(b"(")?;
        writer.put_one(&OPERANDS)?;
        writer.put(b")")?;
    } else if writer.is_odd() {
        writer.put_one(&ODD_OPERANDS)?;
    } else {
        writer.put_one(&OPERANDS)?;
    }
    writer.put_odd(&[b")"])
}
