//! Directives of a first line, and their names.

use crate::stepping::is_one_line;
use std::process::Abort;
use std::test::Fail;
use ud_model::{Kind, MAX_LINE_BYTES, Mode};
use ud_sections::{Cut, Directive, Lister, Span, directive};
use ud_text::{Line, Scanner};

/// Compares the directive of a first line in C mode that ends in a newline.
fn check(rt: &impl Abort, body: &[u8], expected: Result<Option<Directive<'_>>, Cut>) {
    assert!(rt; body.len() <= MAX_LINE_BYTES);
    assert!(rt; is_one_line(body));
    let mut scanner = Scanner::new();
    let line = Line {
        body,
        ending: b"\n",
        number: 1,
    };
    let scan = scanner.read(Mode::C, &line);
    assert_eq!(rt; directive(&scan), expected);
}

/// First lines, and whether their keyword is cut. The others have no directive.
const CUTS: &[(&[u8], bool)] = &[
    // A keyword may lack all its letters.
    (b"# /* c", true),
    (b"#\\", true),
    (b"#", false),
    // A slash before a splice may begin a comment.
    (b"#/\\", true),
    (b"# // c \\", false),
    // A word before a splice may become a keyword.
    (b"#if\\", true),
    (b"  # e\\", true),
    (b"#endif\\", true),
    (b"#elifd\\", true),
    (b"#elifdefs\\", false),
    (b"# define\\", false),
];

#[test]
fn a_keyword_may_be_cut(rt: HostRuntime) -> Result<(), Fail> {
    for &(body, is_cut) in CUTS {
        check(&rt, body, if is_cut { Err(Cut) } else { Ok(None) });
    }
    Ok(())
}

#[test]
fn a_directive_in_its_line_has_its_place(rt: HostRuntime) -> Result<(), Fail> {
    check(&rt, b"#ifdefined A", Ok(None));
    let ifdef = Directive {
        kind: Kind::Ifdef,
        keyword: Span { at: 4, len: 5 },
        after: b" A     ",
        broken: false,
    };
    check(&rt, b"  # ifdef A /* c", Ok(Some(ifdef)));
    let elifndef = Directive {
        kind: Kind::Elifndef,
        keyword: Span { at: 2, len: 8 },
        after: b"",
        broken: false,
    };
    check(&rt, b"# elifndef", Ok(Some(elifndef)));
    // A directive before a splice is broken.
    let endif = Directive {
        kind: Kind::Endif,
        keyword: Span { at: 1, len: 5 },
        after: b" ",
        broken: true,
    };
    check(&rt, b"#endif \\", Ok(Some(endif)));
    Ok(())
}

/// First lines, and their names.
const NAMES: &[(&[u8], &[&[u8]])] = &[
    // Understood conditions have names.
    (b"#if A && defined(B)", &[b"A", b"B"]),
    (b"#if A + A", &[b"A", b"A"]),
    (b"# ifdef C // c", &[b"C"]),
    (b"#elif F(X)", &[b"F"]),
    (b"#elif D << 1", &[]),
    (b"#ifndef A B", &[]),
    // Broken directives and others have no names.
    (b"#if A \\", &[]),
    (b"#else A", &[]),
    (b"#endif A", &[]),
    (b"#if\\", &[]),
    (b"A", &[]),
    (b"#if A /* c", &[b"A"]),
];

/// Compares the names of a first line in C mode that ends in a newline.
fn check_names(rt: &impl Abort, body: &[u8], expected: &[&[u8]]) {
    assert!(rt; body.len() <= MAX_LINE_BYTES);
    assert!(rt; is_one_line(body));
    let mut scanner = Scanner::new();
    let line = Line {
        body,
        ending: b"\n",
        number: 1,
    };
    let scan = scanner.read(Mode::C, &line);
    assert!(rt; scan.masked.len() <= MAX_LINE_BYTES);
    let mut listed = Lister::names(&scan);
    for name in expected {
        assert!(rt; listed.next() == Some(*name));
    }
    assert!(rt; listed.next().is_none());
}

/// Compares the names of first lines.
fn check_all_names(rt: &impl Abort, rows: &[(&[u8], &[&[u8]])]) {
    for &(body, expected) in rows {
        check_names(rt, body, expected);
    }
}

#[test]
fn understood_conditions_have_names(rt: HostRuntime) -> Result<(), Fail> {
    check_all_names(&rt, NAMES);
    Ok(())
}

/// Compares what a name at this depth follows.
fn check_prefix(rt: &impl Abort, lister: &mut Lister, depth: usize, expected: &[u8]) {
    assert!(rt; lister.prefix(depth) == expected, "at depth {depth}");
}

#[test]
fn a_name_follows_its_depth(rt: HostRuntime) -> Result<(), Fail> {
    let mut depths = Lister::new(true);
    check_prefix(&rt, &mut depths, 0, b"0 ");
    check_prefix(&rt, &mut depths, 255, b"255 ");
    check_prefix(&rt, &mut Lister::new(false), 7, b"");
    Ok(())
}
