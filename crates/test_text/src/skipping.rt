//! Skipping text lines: compared with reading the same lines one after another. Tests how far a
//! skip goes, of which no clause speaks.

ghost use Rattle.std.specs.Prelude.{◌≡◌, ◌<◌, ◌≤◌, length, take, IfOk};
ghost use Rattle.ud_model.specs.text.Lines.{NoNewline};

use std::alloc::{AllocError, Global};
use std::process::Abort;
use std::test::Fail;
use ud_model::{MAX_LINE_BYTES, Mode};
use ud_sections::directive;
use ud_text::{Line, Scanner};

/// The parts of the random texts: all that may matter to a scanner, and some that doesn't.
#[rattlefmt::skip]
const PIECES: [&[u8]; 32] = [
    b"/*", b"*/", b"//", b"/", b"*", b"\"", b"\"s\"", b"'",
    b"'c'", b"\\", b"\\n", b"#", b"#if", b"# elif", b"#include", b"if",
    b"e", b"i", b"a", b"x ", b" ", b"\t", b"\r", b"\0",
    b"\\\n", b"\\\r\n", b"*\\\n/", b"\n", b"\n", b"\n", b"\r\n", b"/* c */",
];

/// A source of pseudorandom numbers, the same in each run.
#[derive(Drop)]
struct Numbers {
    state: u64,
}

impl Numbers {
    /// Returns the next number, below `count`.
    fn below(&mut self, count: usize) -> usize
        requires { 0 < count }
        ensures { result < count }
    {
        self.state = self
            .state
            .wrapping_mul(6364136223846793005)
            .wrapping_add(1442695040888963407);
        (self.state >> 33) as usize % count
    }
}

/// Returns a text of `count` parts.
fn random_text(alloc: Global, numbers: &mut Numbers, count: usize) -> Result<Vec<u8>, AllocError> {
    let mut text = Vec::new(alloc);
    for _ in 0..count {
        text.extend_from_slice(PIECES[numbers.below(PIECES.len())])?;
    }
    Ok(text)
}

/// Returns the length of the first line without its ending.
fn body_len(bytes: &[u8]) -> usize
    ensures bound { result ≤ length bytes.now }
    ensures one_line { NoNewline (take result bytes.now) }
{
    let mut at = 0;
    while at < bytes.len() {
        if bytes[at] == b'\n' {
            return at;
        }
        if bytes[at..].starts_with(b"\r\n") {
            return at;
        }
        at += 1;
    }
    at
}

/// Returns the length of the ending with which `bytes` begins.
fn ending_len(bytes: &[u8]) -> usize
    ensures { result ≤ length bytes.now }
{
    if bytes.starts_with(b"\r\n") {
        2
    } else if bytes.starts_with(b"\n") {
        1
    } else {
        0
    }
}

/// Returns a line with an ending of `ending` bytes.
fn line_with(body: &[u8], ending: usize) -> Line<'_>
    ensures { result.body.now ≡ body.now }
{
    let number = 1;
    match ending {
        0 => Line {
            body,
            ending: b"",
            number,
        },
        1 => Line {
            body,
            ending: b"\n",
            number,
        },
        _ => Line {
            body,
            ending: b"\r\n",
            number,
        },
    }
}

/// Reads the first line by both scanners, and compares the scans. Returns the length of the line.
fn read_alike(
    rt: &impl Abort,
    first: &mut Scanner,
    second: &mut Scanner,
    bytes: &[u8],
) -> Result<usize, Fail>
    ensures { IfOk result (λ n. n ≤ length bytes.now) }
{
    let end = body_len(bytes);
    if end > MAX_LINE_BYTES {
        return Err(Fail::new("a line is short"));
    }
    let ending = ending_len(&bytes[end..]);
    let line = line_with(&bytes[..end], ending);
    let one = first.read(Mode::C, &line);
    let other = second.read(Mode::C, &line);
    assert_eq!(rt; one.masked, other.masked);
    assert_eq!(rt; one.fresh, other.fresh);
    assert_eq!(rt; one.joins_before, other.joins_before);
    assert_eq!(rt; one.joins_after, other.joins_after);
    assert_eq!(rt; one.spliced, other.spliced);
    assert!(rt; one.comment == other.comment);
    Ok(end + ending)
}

/// Reads these whole lines one after another, and checks that they are text. Returns their number.
fn read_text(rt: &impl Abort, scanner: &mut Scanner, lines: &[u8]) -> Result<usize, Fail> {
    let mut rest = lines;
    let mut count: usize = 0;
    for _ in 0..lines.len() {
        if rest.is_empty() {
            break;
        }
        let end = body_len(rest);
        if end > MAX_LINE_BYTES {
            return Err(Fail::new("a line is short"));
        }
        let tail = &rest[end..];
        let ending = ending_len(tail);
        if ending == 0 {
            return Err(Fail::new("each line that is passed has its line feed"));
        }
        let scan = scanner.read(Mode::C, &line_with(&rest[..end], ending));
        assert!(rt; matches!(directive(&scan), Ok(None)));
        rest = &tail[ending..];
        count = count.saturating_add(1);
    }
    Ok(count)
}

/// Reads a text in two ways, and compares them: line by line, and with a skip wherever one goes
/// further.
///
/// Before each skip, up to two lines are read that might be skipped, so that skips begin anywhere.
/// Returns the number of lines that were skipped.
fn walk(rt: &impl Abort, numbers: &mut Numbers, text: &[u8]) -> Result<usize, Fail> {
    let mut skipping = Scanner::new();
    let mut reading = Scanner::new();
    let mut rest = text;
    let mut passed: usize = 0;
    for _ in 0..text.len() {
        if rest.is_empty() {
            break;
        }
        for _ in 0..numbers.below(3) {
            let line = read_alike(rt, &mut skipping, &mut reading, rest)?;
            rest = &rest[line..];
        }
        let count = skipping.skip_text(Mode::C, rest);
        passed = passed.saturating_add(read_text(rt, &mut reading, &rest[..count])?);
        assert_eq!(rt; skipping.in_comment(), reading.in_comment());
        rest = &rest[count..];
        let line = read_alike(rt, &mut skipping, &mut reading, rest)?;
        rest = &rest[line..];
    }
    Ok(passed)
}

#[test]
fn skipping_scans_as_reading_does(rt: HostRuntime) -> Result<(), Fail> {
    let mut numbers = Numbers { state: 1 };
    let mut passed: usize = 0;
    for _ in 0..400 {
        let text = random_text(rt.alloc(), &mut numbers, 300)?;
        passed = passed.saturating_add(walk(&rt, &mut numbers, text.as_slice())?);
    }
    assert!(rt; passed > 1000);
    Ok(())
}

/// Skips the lines that begin a text, and compares the length that was skipped.
fn goes(rt: &impl Abort, mode: Mode, lines: &[u8], count: usize) {
    assert_eq!(rt; Scanner::new().skip_text(mode, lines), count);
}

/// Lines, and the number of bytes that are skipped from the start of a text.
const PASSES: &[(&[u8], usize)] = &[
    // A skip goes through text.
    (b"", 0),
    (b"a\nb\r\nc", 5),
    (b"a /* b\n * c\n */ d\ne\n", 20),
    (b"a // b\nc\n", 9),
    (b"char *s = \"/*\\\"\\\\\"; int c = '\\'';\nx\n", 36),
    (b"#include <a/b.h>\n#define X\n#error e\nx\n", 38),
    (b"a # if\nb / c\n", 13),
    (b"a\nx /* b */ + /* c */\n", 22),
    (b"a\n/* b */ /* c */ d\n", 20),
    (b"/* b */ /* c\n */ #\\\n", 13),
    (b"// a \\b\n// \\ \r\nc\n", 17),
    (b"don't\nx\n", 8),
    (b"don't\r\nx\n", 9),
    (b"'\n'\r\n\"/\n/x\n", 11),
    (b"\"a/b\" 'c' \\\" #if\nx\n", 19),
    (b"\"a\" \"/* b\" /* c\n*/ 'd\nx\n", 24),
    (b"'a' /* b */ \"/*\" /* c */ 'd // e\nx\n", 35),
    (b"'a */*/ b\n*/ c\nx\n", 17),
    (b"a \"b\\\"\n/* c */\n", 15),
    // A skip goes through splices.
    (b"a\nb\\\nc\n", 7),
    (b"#define X \\\n  #x /* y */ \\\r\n  # z\nb\n", 36),
    (b"a \\\n", 4),
    (b"a \\\n#if X\n\\\n#if X\nb\n#if X\n", 10),
    (b"a /* b */\\\n# if X\n", 18),
    (b"#xy\\\n#else\n", 11),
    (b"a /* b\n*/ \\\n", 12),
    // A skip stops at a splice that may matter.
    (b"a\n\\\n#if X\n", 2),
    (b"a\n \t\\\r\nb\n", 2),
    (b"a\n/* b */\\\n#if X\n", 2),
    (b"a\nb /\\\n* c\n", 2),
    (b"a\nb // c\\\nd\n", 2),
    (b"a\nb // c\\\r\nd\n", 2),
    (b"a\n//\\\nd\n", 2),
    (b"a\nb \"c\\\nd\"\n", 2),
    (b"a\nb \\\\\nc\n", 2),
    (b"a\nb \\\r\r\nc\n", 2),
    (b"a\n#\\\nif\n", 2),
    (b"a\n#el\\\nse\n", 2),
    // A skip stops where a block comment begins that the lines don't close.
    (b"/* a\nb\nc", 0),
    (b"a\n/* b\nc\n", 2),
    // A skip stops at a line that may not be text.
    (b"a\n#if X\nb\n", 2),
    (b"/* a\nb\n*/ #if\n", 7),
    (b"/* a *\\\n/\nb\n", 0),
    (b"/* a \\\n b */\nc\n", 15),
    (b"a\n/* b */ /* c */ #if\n", 2),
    (b"don't\\\\\nx\n", 0),
    (b"a\nb 'c\\\r\nd\n", 2),
    (b"a\n\"b\" // c\\\nd\n", 2),
];

#[test]
fn skipping_goes_up_to_the_line_that_may_be_none(rt: HostRuntime) -> Result<(), Fail> {
    for &(lines, count) in PASSES {
        goes(&rt, Mode::C, lines, count);
    }
    Ok(())
}

/// Lines, and the number of bytes that are skipped from the start of a text in plain mode.
const PLAIN_PASSES: &[(&[u8], usize)] = &[
    // A skip goes through text, also past a `#` that belongs to no directive.
    (b"", 0),
    (b"a\nb\r\nc", 5),
    (b"a # if\n'#else\n", 14),
    (b"#include <a>\n# define X\r\n\t#error e\nx\n", 37),
    (b"/* #\nc\\\n", 8),
    // A skip stops at a line that may not be text.
    (b"a\n#if X\nb\n", 2),
    (b"a\n \t# else\n", 2),
    (b"#define X\n#\nb\n", 10),
    (b"a\n#define X", 2),
];

#[test]
fn skipping_in_plain_mode_goes_up_to_the_line_that_may_be_none(
    rt: HostRuntime,
) -> Result<(), Fail> {
    for &(lines, count) in PLAIN_PASSES {
        goes(&rt, Mode::Plain, lines, count);
    }
    Ok(())
}

/// Returns a line with `count` bytes between `begin` and `end`.
fn spanning(alloc: Global, begin: &[u8], count: usize, end: &[u8]) -> Result<Vec<u8>, AllocError> {
    let mut line = Vec::new(alloc);
    line.extend_from_slice(begin)?;
    for _ in 0..count {
        line.push(b'x')?;
    }
    line.extend_from_slice(end)?;
    Ok(line)
}

#[test]
fn skipping_goes_through_spans_of_each_length(rt: HostRuntime) -> Result<(), Fail> {
    let spans: [(&[u8], &[u8]); 9] = [
        (b"", b"\n"),
        (b"a # ", b"\n"),
        (b"//", b"\n"),
        (b"/*", b"*/\n"),
        (b"/**", b"* ** /*/\n"),
        (b"\"\\\"", b"\"\n"),
        (b"'", b"\\''\n"),
        (b"#define X", b"\\\n#if X\n"),
        (b"a \\\r\n", b"\\\r\n\\\n\n"),
    ];
    for count in 0..200 {
        for (begin, end) in spans {
            let mut lines = spanning(rt.alloc(), begin, count, end)?;
            let passed = lines.len();
            goes(&rt, Mode::C, lines.as_slice(), passed);
            lines.extend_from_slice(b"#if X\n")?;
            goes(&rt, Mode::C, lines.as_slice(), passed);
        }
    }
    Ok(())
}
