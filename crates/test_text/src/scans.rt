//! Scans of lines in C mode, and marks.

use std::test::Fail;
use ud_model::{CommentAt, Mode};
use ud_text::{Line, Lines, Scan, Scanner, first_mark};

#[test]
fn a_comment_joins_two_lines(rt: HostRuntime) -> Result<(), Fail> {
    let mut scanner = Scanner::new();
    let first = Line {
        body: b"x /* c",
        ending: b"\n",
        number: 1,
    };
    let opening = Scan {
        masked: b"x     ",
        fresh: true,
        joins_before: false,
        joins_after: true,
        spliced: false,
        comment: CommentAt::InBlock,
    };
    assert_eq!(rt; scanner.read(Mode::C, &first), opening);
    assert!(rt; scanner.in_comment());
    let second = Line {
        body: b"*/ #if A",
        ending: b"\n",
        number: 2,
    };
    let closing = Scan {
        masked: b"   #if A",
        fresh: false,
        joins_before: true,
        joins_after: false,
        spliced: false,
        comment: CommentAt::Outside,
    };
    assert_eq!(rt; scanner.read(Mode::C, &second), closing);
    assert!(rt; !scanner.in_comment());
    Ok(())
}

#[test]
fn a_buffered_line_is_scanned(rt: HostRuntime) -> Result<(), Fail> {
    let mut lines = Lines::new(1);
    let taken = lines.take(b"x /* c\n")?;
    if !taken.whole {
        return Err(Fail::new("the line has its line feed"));
    }
    let mut scanner = Scanner::new();
    let scan = scanner.read(Mode::C, &lines.line());
    assert_eq!(rt; scan.masked, b"x     ".as_slice());
    Ok(())
}

#[test]
fn a_scan_outlives_its_line(rt: HostRuntime) -> Result<(), Fail> {
    let mut scanner = Scanner::new();
    let scan = {
        let body = *b"#if A";
        let line = Line {
            body: &body,
            ending: b"\n",
            number: 1,
        };
        scanner.read(Mode::C, &line)
    };
    assert_eq!(rt; scan.masked, b"#if A".as_slice());
    Ok(())
}

#[test]
fn the_first_mark_is_found(rt: HostRuntime) -> Result<(), Fail> {
    assert_eq!(rt; first_mark(b"abc/"), 3);
    assert_eq!(rt; first_mark(b"abcd"), 4);
    assert_eq!(rt; first_mark(b""), 0);
    Ok(())
}

#[test]
fn the_scan_of_a_line_without_marks_is_known_at_once(rt: HostRuntime) -> Result<(), Fail> {
    let line = Line {
        body: b"#ifdef A",
        ending: b"\n",
        number: 1,
    };
    let scan = Scan {
        masked: b"#ifdef A",
        fresh: true,
        joins_before: false,
        joins_after: false,
        spliced: false,
        comment: CommentAt::Outside,
    };
    assert_eq!(rt; Scanner::new().read_unmarked(&line), Some(scan));
    Ok(())
}
