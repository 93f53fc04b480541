//! Lines: text, directives, and lines at the limit.

use crate::expressions::write_expression;
use crate::writer::Writer;
use std::alloc::AllocError;
use ud_model::MAX_LINE_BYTES;

/// Bytes that mean something to a scanner, and some that don't.
const SCRAPS: [&[u8]; 40] = [
    b"a",
    b"x1",
    b" ",
    b"\t",
    b"\r",
    b"\0",
    b"\x80",
    b"\xff",
    b"#",
    b"##",
    b"\\",
    b"\\\\",
    b"\\\n",
    b"\\\r\n",
    b"\\ \n",
    b"/",
    b"/\\\n*",
    b"/\\\n/",
    b"/*",
    b"*/",
    b"*\\\n/",
    b"*",
    b"**/",
    b"/*/",
    b"//",
    b"// \\\n",
    b"\"",
    b"'",
    b"\\\"",
    b"\"/*\"",
    b"'\"'",
    b"\"\\\n",
    b"don't",
    b"/* c */",
    b"#if",
    b"#endif",
    b"#el\\\nse",
    b"A",
    b"\n",
    b"\r\n",
];

/// Text that leaves no comment open.
const CALM: [&[u8]; 8] = [
    b"",
    b"x",
    b"int a;",
    b"/* c */",
    b"// c",
    b"\"/*\"",
    b"'//'",
    b"#define A 1",
];

/// The bytes that may come before a `#`.
const LEADS: [&[u8]; 10] = [
    b" ",
    b"\t \x0c",
    b"/**/",
    b"/* c */ ",
    b"\\\n",
    b"/*\n*/",
    b"/\\\n* c */",
    b"/* \\\n */",
    b"x",
    b"\r",
];

/// The bytes that may come after a `#` or a keyword.
const GAPS: [&[u8]; 10] = [
    b" ",
    b"  ",
    b"/* c */",
    b"\\\n",
    b"/*\n*/",
    b"/\\\n",
    b"\0",
    b"/",
    b" // \\\n",
    b"(",
];

/// The bytes that may come after a directive.
const TRAILS: [&[u8]; 14] = [
    b" ",
    b" // c",
    b" /* c */",
    b" /* c\n*/",
    b"\\\n",
    b" \\\nx",
    b" /* c",
    b" // c \\\n",
    b"\r",
    b" x",
    b"\\",
    b"/\\\n/ c",
    b" \"",
    b" /* \\\n*/ // \\\n c",
];

const ENDINGS: [&[u8]; 4] = [b"\r\n", b"", b"\r\r\n", b"\n\n"];

const OTHERS: [&[u8]; 9] = [
    b"define A",
    b"include <a>",
    b"i",
    b"els",
    b"endi\\\nf",
    b"elifd\\\nef A",
    b"elifs A",
    b"",
    b"error don't",
];

const NAMES: [&[u8]; 6] = [b"A", b"A", b"B", b"B", b"C", b"X"];

const ODD_NAMES: [&[u8]; 6] = [b"", b"defined", b"A B", b"1A", b"A/**/", b"A // c"];

/// The bytes that fill a long line.
const FILLS: [&[u8]; 8] = [b"a", b" ", b"/", b"*", b"\\", b"+A", b"\0", b"||X"];

/// The effect of a directive on the sections.
#[derive(Clone, Copy)]
pub(crate) enum Turn {
    Opens,
    Parts,
    PartsLast,
    Closes,
    /// None: unifdef doesn't act on the directive, or its keyword is cut.
    Nothing,
}

/// Writes a line of text, or scraps of several lines.
pub(crate) fn write_text_line(writer: &mut Writer) -> Result<(), AllocError> {
    if writer.is_odd() {
        for _ in 0..writer.random.below(6) {
            writer.put_one(&SCRAPS)?;
        }
    } else {
        writer.put_one(&CALM)?;
    }
    write_ending(writer)
}

/// Writes the end of a line.
fn write_ending(writer: &mut Writer) -> Result<(), AllocError> {
    if writer.is_odd() {
        writer.put_one(&ENDINGS)
    } else {
        writer.put(b"\n")
    }
}

/// Writes a directive.
pub(crate) fn write_directive(writer: &mut Writer, turn: Turn) -> Result<(), AllocError> {
    writer.put_odd(&LEADS)?;
    writer.put(b"#")?;
    writer.put_odd(&GAPS)?;
    match turn {
        Turn::Opens => {
            writer.sections.push(false)?;
            write_opener(writer)?;
        }
        Turn::Parts => write_further_opener(writer)?,
        Turn::PartsLast => {
            let _ = writer.sections.pop();
            writer.sections.push(true)?;
            writer.put(b"else")?;
        }
        Turn::Closes => {
            let _ = writer.sections.pop();
            writer.put(b"endif")?;
        }
        Turn::Nothing => writer.put_one(&OTHERS)?,
    }
    writer.put_odd(&TRAILS)?;
    write_ending(writer)
}

/// Writes the opener of a section, after its `#`.
fn write_opener(writer: &mut Writer) -> Result<(), AllocError> {
    if writer.one_in(3) {
        writer.put(b"if")?;
        writer.put_odd(&GAPS)?;
        writer.put(b" ")?;
        return write_expression(writer, 4);
    }
    writer.put_one(&[b"ifdef", b"ifndef"])?;
    write_name(writer)
}

/// Writes the opener of a further group with a condition, after its `#`.
fn write_further_opener(writer: &mut Writer) -> Result<(), AllocError> {
    if writer.one_in(3) {
        writer.put_one(&[b"elifdef", b"elifndef"])?;
        return write_name(writer);
    }
    writer.put(b"elif ")?;
    write_expression(writer, 3)
}

/// Writes the name after a keyword that asks for one.
fn write_name(writer: &mut Writer) -> Result<(), AllocError> {
    writer.put_odd(&GAPS)?;
    writer.put(b" ")?;
    if writer.is_odd() {
        writer.put_one(&ODD_NAMES)
    } else {
        writer.put_one(&NAMES)
    }
}

/// Writes a line of about as many bytes as a line may have, its ending included; or a shorter one
/// in parentheses.
pub(crate) fn write_long_line(writer: &mut Writer) -> Result<(), AllocError> {
    let before = writer.text.len();
    writer.put_one(&[b"", b"#if A", b"#if X", b"/*", b"//", b"\"", b"#ifdef A //"])?;
    if writer.one_in(8) {
        for _ in 0..writer.random.below(200) {
            writer.put(b"(")?;
        }
        return write_ending(writer);
    }
    let fill = writer.random.pick(&FILLS);
    let bytes = MAX_LINE_BYTES - 4 + writer.random.below(6);
    for _ in 0..bytes {
        if writer.text.len().saturating_sub(before) < bytes {
            writer.put(fill)?;
        }
    }
    write_ending(writer)
}
