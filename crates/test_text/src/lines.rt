//! Lines from bytes that come in chunks.

ghost use Rattle.std.specs.Prelude.{◌≡◌, false, OnOk};

use std::process::Abort;
use std::test::Fail;
use ud_text::{Line, Lines, ShortLineBuffer, TextFault};

/// Returns a line that ends in a newline.
fn fed(body: &[u8], number: u32) -> Line<'_> {
    Line {
        body,
        ending: b"\n",
        number,
    }
}

/// Compares a line with the expected one.
fn check_line(rt: &impl Abort, line: Line<'_>, expected: Line<'_>) {
    assert_eq!(rt; line, expected);
}

/// Takes bytes of which the first `used` end a line, and discards that line.
fn take_line(
    rt: &impl Abort,
    lines: &mut Lines,
    chunk: &[u8],
    used: usize,
    expected: Line<'_>,
) -> Result<(), Fail>
    requires part { lines.old.whole ≡ false }
    requires open { lines.old.closed ≡ false }
    ensures { OnOk result ((lines.new.whole ≡ false) × (lines.new.closed ≡ false)) }
{
    let taken = lines.take(chunk)?;
    assert_eq!(rt; taken.used, used);
    if !taken.whole {
        return Err(Fail::new("the line has its line feed"));
    }
    check_line(rt, lines.line(), expected);
    lines.clear();
    Ok(())
}

/// Takes bytes that end no line.
fn take_part(rt: &impl Abort, lines: &mut Lines, chunk: &[u8]) -> Result<(), Fail>
    requires part { lines.old.whole ≡ false }
    requires open { lines.old.closed ≡ false }
    ensures { OnOk result ((lines.new.whole ≡ false) × (lines.new.closed ≡ false)) }
{
    let taken = lines.take(chunk)?;
    assert_eq!(rt; taken.used, chunk.len());
    if taken.whole {
        return Err(Fail::new("the line lacks its line feed"));
    }
    Ok(())
}

/// Takes bytes, which fails.
fn take_none(
    rt: &impl Abort,
    lines: &mut Lines,
    chunk: &[u8],
    expected: TextFault,
) -> Result<(), Fail>
    requires part { lines.old.whole ≡ false }
    requires open { lines.old.closed ≡ false }
    ensures { OnOk result ((lines.new.whole ≡ false) × (lines.new.closed ≡ false)) }
{
    let Err(fault) = lines.take(chunk) else {
        return Err(Fail::new("the bytes are refused"));
    };
    assert_eq!(rt; fault, expected);
    Ok(())
}

/// Borrows a line from the chunk.
fn borrow_line(
    rt: &impl Abort,
    lines: &mut Lines,
    chunk: &[u8],
    expected: Line<'_>,
) -> Result<(), Fail>
    requires part { lines.old.whole ≡ false }
    requires open { lines.old.closed ≡ false }
    ensures { OnOk result ((lines.new.whole ≡ false) × (lines.new.closed ≡ false)) }
{
    let Some(line) = lines.whole_in(chunk) else {
        return Err(Fail::new("the line is lent"));
    };
    check_line(rt, line, expected);
    Ok(())
}

#[test]
fn a_text_of_two_lines_comes_in_two_chunks(rt: HostRuntime) -> Result<(), Fail> {
    let mut lines = Lines::new(2);
    take_line(&rt, &mut lines, b"a\nb", 2, fed(b"a", 1))?;
    take_part(&rt, &mut lines, b"b")?;
    assert_eq!(rt; lines.held(), 1);
    if !lines.close()? {
        return Err(Fail::new("the text has a last line"));
    }
    let last = Line {
        body: b"b",
        ending: b"",
        number: 2,
    };
    check_line(&rt, lines.line(), last);
    Ok(())
}

#[test]
fn a_third_line_fuses(rt: HostRuntime) -> Result<(), Fail> {
    let mut lines = Lines::new(2);
    take_line(&rt, &mut lines, b"a\n", 2, fed(b"a", 1))?;
    take_line(&rt, &mut lines, b"b\n", 2, fed(b"b", 2))?;
    take_none(&rt, &mut lines, b"c", TextFault::TooManyLines { line: 3 })?;
    take_none(&rt, &mut lines, b"", TextFault::TooManyLines { line: 3 })
}

#[test]
fn a_line_ends_where_two_chunks_meet(rt: HostRuntime) -> Result<(), Fail> {
    let mut lines = Lines::new(2);
    take_part(&rt, &mut lines, b"a\r")?;
    let line = Line {
        body: b"a",
        ending: b"\r\n",
        number: 1,
    };
    take_line(&rt, &mut lines, b"\n", 1, line)
}

#[test]
fn a_line_in_a_short_buffer_goes_on_in_a_longer_one(rt: HostRuntime) -> Result<(), Fail> {
    let mut short = Lines::with_buffer(1, ShortLineBuffer::new());
    if short.take(b"ab")?.whole {
        return Err(Fail::new("the line lacks its line feed"));
    }
    assert_eq!(rt; short.remaining_capacity(8_192), 8_190);
    assert_eq!(rt; short.remaining_capacity(5), 5);
    let mut long = short.into_long();
    assert_eq!(rt; long.remaining_capacity(8_192), 8_192);
    take_line(&rt, &mut long, b"c\n", 2, fed(b"abc", 1))
}

#[test]
fn a_line_past_the_limit_is_refused_at_the_end_too(rt: HostRuntime) -> Result<(), Fail> {
    let fault = TextFault::TooManyLines { line: 2 };
    let mut lines = Lines::new(1);
    take_line(&rt, &mut lines, b"a\nb", 2, fed(b"a", 1))?;
    take_none(&rt, &mut lines, b"b", fault)?;
    let Err(again) = lines.close() else {
        return Err(Fail::new("a refusal stays"));
    };
    assert_eq!(rt; again, fault);
    Ok(())
}

/// Passes if no line is borrowed.
fn borrow_none(lines: &mut Lines, chunk: &[u8]) -> Result<(), Fail>
    requires part { lines.old.whole ≡ false }
    requires open { lines.old.closed ≡ false }
    ensures { OnOk result (lines.new ≡ lines.old) }
{
    match lines.whole_in(chunk) {
        Some(_) => Err(Fail::new("no line is lent")),
        None => Ok(()),
    }
}

#[test]
fn whole_lines_are_borrowed_from_the_chunk(rt: HostRuntime) -> Result<(), Fail> {
    let mut lines = Lines::new(2);
    borrow_line(&rt, &mut lines, b"a\nb", fed(b"a", 1))?;
    assert_eq!(rt; lines.held(), 0);
    borrow_none(&mut lines, b"b")?;
    take_part(&rt, &mut lines, b"b")?;
    borrow_none(&mut lines, b"\n")?;
    take_line(&rt, &mut lines, b"\n", 1, fed(b"b", 2))?;
    borrow_none(&mut lines, b"c\n")?;
    take_none(&rt, &mut lines, b"c\n", TextFault::TooManyLines { line: 3 })?;
    borrow_none(&mut lines, b"c\n")
}

#[test]
fn the_longest_line_is_borrowed(rt: HostRuntime) -> Result<(), Fail> {
    let mut chunk = [b'a'; 65_536];
    chunk[65_535] = b'\n';
    borrow_line(&rt, &mut Lines::new(1), &chunk, fed(&chunk[..65_535], 1))
}

#[test]
fn a_longer_line_is_refused_and_not_borrowed(rt: HostRuntime) -> Result<(), Fail> {
    let mut chunk = [b'a'; 65_537];
    chunk[65_536] = b'\n';
    let mut lines = Lines::new(1);
    borrow_none(&mut lines, &chunk)?;
    take_none(&rt, &mut lines, &chunk, TextFault::LineTooLong { line: 1 })?;
    borrow_none(&mut lines, &chunk)
}

/// Compares the length of the prefix of whole lines that can be consumed.
fn check_run(rt: &impl Abort, lines: &Lines, chunk: &[u8], count: usize) {
    assert_eq!(rt; lines.whole_lines_len(chunk), count);
}

/// Consumes the first `count` bytes, which are whole lines.
fn skip_lines(rt: &impl Abort, lines: &mut Lines, chunk: &[u8], count: usize) -> Result<(), Fail>
    requires part { lines.old.whole ≡ false }
    requires open { lines.old.closed ≡ false }
    ensures { OnOk result ((lines.new.whole ≡ false) × (lines.new.closed ≡ false)) }
{
    check_run(rt, lines, chunk, count);
    let run = lines.whole_lines_len(chunk);
    if run == 0 {
        return Err(Fail::new("there are whole lines"));
    }
    lines.consume(&chunk[..run]);
    Ok(())
}

#[test]
fn whole_lines_are_skipped_at_once(rt: HostRuntime) -> Result<(), Fail> {
    let mut lines = Lines::new(100);
    skip_lines(&rt, &mut lines, b"a\nb\r\n\nc", 6)?;
    assert_eq!(rt; lines.held(), 0);
    if !lines.take(b"c\n")?.whole {
        return Err(Fail::new("the line has its line feed"));
    }
    check_line(&rt, lines.line(), fed(b"c", 4));
    check_run(&rt, &lines, b"d\n", 0);
    Ok(())
}

#[test]
fn no_line_past_a_limit_is_skipped(rt: HostRuntime) -> Result<(), Fail> {
    let mut chunk = [b'a'; 65_640];
    chunk[100] = b'\n';
    chunk[65_636] = b'\n';
    check_run(&rt, &Lines::new(70_000), &chunk, 65_637);
    chunk[65_636] = b'a';
    chunk[65_637] = b'\n';
    check_run(&rt, &Lines::new(70_000), &chunk, 101);
    check_run(&rt, &Lines::new(1), b"a\nb\n", 0);
    Ok(())
}

#[test]
fn each_skipped_line_is_counted(rt: HostRuntime) -> Result<(), Fail> {
    let chunk = [b'\n'; 300];
    for count in 1..300_u32 {
        let mut lines = Lines::new(300);
        skip_lines(&rt, &mut lines, &chunk[..count as usize], count as usize)?;
        borrow_line(&rt, &mut lines, b"a\n", fed(b"a", count + 1))?;
    }
    Ok(())
}
