//! Printers: the output of each for lines with verdicts. They are called through the trait alone.

ghost use Rattle.std.specs.Prelude.{All, IsTrue};
ghost use Rattle.ud_model.specs.text.Lines.{is_ending};
ghost use Rattle.ud_sections.specs.sections.StepViews.{KeywordIsWithin};
ghost use Rattle.test_sections.specs.Ruling.{HoldsItsKeyword};

use crate::printing::{Ruled, print_all};
use std::process::Abort;
use std::test::Fail;
use ud_model::{Settings, Verdict};
use ud_sections::{Blank, Complement, Delete, Printer, Renumber, Show, Span, Step};
use ud_text::Line;

/// Prints these lines, and compares the output, and whether each line is printed unchanged.
fn check<S: Show>(
    rt: &(impl Abort + AllocGlobal),
    mut show: S,
    lines: &[Ruled<'_>],
    expected: &[u8],
    same: bool,
) -> Result<(), Fail>
    requires { All HoldsItsKeyword lines.now }
{
    let mut out = Vec::new(rt.alloc());
    let is_same = print_all(&mut show, lines, &mut out)?;
    assert_eq!(rt; out.as_slice(), expected);
    assert_eq!(rt; is_same, same);
    Ok(())
}

/// Returns the printer of settings without other options.
fn printer(blank: bool, complement: bool, renumber: bool) -> Printer {
    let settings = Settings {
        blank,
        complement,
        renumber,
        ..Settings::default()
    };
    Printer::of(&settings)
}

/// Returns a line with this ending that is kept or removed unchanged.
fn plain<'a>(body: &'a [u8], ending: &'a [u8], number: u32, kept: bool) -> Ruled<'a>
    requires { IsTrue (is_ending ending.now) }
    ensures { HoldsItsKeyword result }
{
    let verdict = if kept { Verdict::Keep } else { Verdict::Remove };
    ruled(body, ending, number, verdict, Span { at: 0, len: 0 })
}

/// Returns a line with this ending, its verdict and its keyword.
fn ruled<'a>(
    body: &'a [u8],
    ending: &'a [u8],
    number: u32,
    verdict: Verdict,
    keyword: Span,
) -> Ruled<'a>
    requires ended { IsTrue (is_ending ending.now) }
    requires keyword { KeywordIsWithin verdict keyword body.now }
    ensures { HoldsItsKeyword result }
{
    Ruled {
        line: Line {
            body,
            ending,
            number,
        },
        step: Step { verdict, keyword },
    }
}

#[test]
fn a_line_after_removed_ones_has_its_number(rt: HostRuntime) -> Result<(), Fail> {
    let lines = [
        plain(b"a", b"\r\n", 1, true),
        plain(b"#ifdef A", b"\r\n", 2, false),
        plain(b"x", b"\r\n", 3, false),
        plain(b"#endif", b"\r\n", 4, false),
        plain(b"b", b"\r\n", 5, true),
    ];
    check(
        &rt,
        Renumber::new(),
        &lines,
        b"a\r\n#line 5\r\nb\r\n",
        false,
    )?;
    check(
        &rt,
        printer(false, false, true),
        &lines,
        b"a\r\n#line 5\r\nb\r\n",
        false,
    )?;
    check(
        &rt,
        printer(false, false, false),
        &lines,
        b"a\r\nb\r\n",
        false,
    )
}

#[test]
fn the_same_bytes_may_come_of_other_lines(rt: HostRuntime) -> Result<(), Fail> {
    let lines = [
        plain(b"#line 2", b"\n", 1, true),
        plain(b"#ifdef A", b"\n", 2, false),
        plain(b"#endif", b"\n", 3, false),
    ];
    check(
        &rt,
        Complement::new(Renumber::new()),
        &lines,
        b"#line 2\n#ifdef A\n#endif\n",
        false,
    )?;
    check(
        &rt,
        printer(false, true, true),
        &lines,
        b"#line 2\n#ifdef A\n#endif\n",
        false,
    )?;
    check(
        &rt,
        printer(false, true, false),
        &lines,
        b"#ifdef A\n#endif\n",
        false,
    )
}

#[test]
fn removed_lines_are_blanked(rt: HostRuntime) -> Result<(), Fail> {
    let lines = [
        plain(b"#ifdef A", b"\n", 1, false),
        plain(b"x", b"\n", 2, false),
        plain(b"#endif", b"", 3, false),
    ];
    check(&rt, Blank::new(), &lines, b"\n\n", false)?;
    check(&rt, printer(true, false, false), &lines, b"\n\n", false)?;
    check(&rt, Delete::new(), &lines, b"", false)
}

#[test]
fn a_line_after_blanked_ones_has_no_number(rt: HostRuntime) -> Result<(), Fail> {
    let lines = [
        plain(b"#ifdef A", b"\n", 1, false),
        plain(b"x", b"\n", 2, false),
        plain(b"#endif", b"\n", 3, false),
        plain(b"y", b"", 4, true),
    ];
    check(&rt, printer(true, false, true), &lines, b"\n\n\ny", false)
}

#[test]
fn the_complement_of_kept_lines_is_blanked(rt: HostRuntime) -> Result<(), Fail> {
    let lines = [
        plain(b"", b"\n", 1, true),
        plain(b"#ifdef A", b"\n", 2, false),
        plain(b"x", b"\n", 3, true),
        plain(b"#endif", b"\n", 4, false),
    ];
    check(
        &rt,
        Complement::new(Blank::new()),
        &lines,
        b"\n#ifdef A\n\n#endif\n",
        false,
    )?;
    check(
        &rt,
        printer(true, true, true),
        &lines,
        b"\n#ifdef A\n\n#endif\n",
        false,
    )
}

#[test]
fn a_blanked_blank_line_is_the_same(rt: HostRuntime) -> Result<(), Fail> {
    let lines = [plain(b"", b"\n", 1, true), plain(b"", b"\n", 2, false)];
    check(&rt, Complement::new(Blank::new()), &lines, b"\n\n", true)?;
    check(&rt, Blank::new(), &lines, b"\n\n", true)?;
    check(&rt, Complement::new(Delete::new()), &lines, b"\n", false)
}

#[test]
fn edited_directives_stand_in_place_of_their_lines(rt: HostRuntime) -> Result<(), Fail> {
    let at_1 = Span { at: 1, len: 4 };
    let at_3 = Span { at: 3, len: 4 };
    let lines = [
        plain(b"#if A", b"\n", 1, false),
        plain(b"1", b"\n", 2, false),
        ruled(b"#elif X", b"\n", 3, Verdict::ToIf, at_1),
        plain(b"2", b"\n", 4, true),
        ruled(b"#elif 1 // t", b"\n", 5, Verdict::ToElse, at_1),
        ruled(b" # else", b"\n", 6, Verdict::ToEndif, at_3),
        plain(b"#endif", b"", 7, false),
    ];
    check(
        &rt,
        Delete::new(),
        &lines,
        b"#if   X\n2\n#else\n # endif\n",
        false,
    )?;
    check(
        &rt,
        Blank::new(),
        &lines,
        b"\n\n#if   X\n2\n#else\n # endif\n",
        false,
    )?;
    check(
        &rt,
        Renumber::new(),
        &lines,
        b"#line 3\n#if   X\n2\n#else\n # endif\n",
        false,
    )
}

#[test]
fn a_keyword_is_undone_by_its_length(rt: HostRuntime) -> Result<(), Fail> {
    let lines = [
        plain(b"#ifdef A", b"\n", 1, false),
        ruled(
            b"#elifdef X",
            b"\n",
            2,
            Verdict::ToIf,
            Span { at: 1, len: 7 },
        ),
        ruled(
            b" # elifndef Y",
            b"\n",
            3,
            Verdict::ToIf,
            Span { at: 3, len: 8 },
        ),
    ];
    check(
        &rt,
        Delete::new(),
        &lines,
        b"#ifdef   X\n # ifndef   Y\n",
        false,
    )
}

#[test]
fn an_edited_line_with_its_number_has_five_parts(rt: HostRuntime) -> Result<(), Fail> {
    let mut show = Renumber::new();
    let first = plain(b"#if A", b"\n", 1, false);
    assert!(rt; !show.pieces(&first.line, first.step).same());
    let second = plain(b"1", b"\n", 2, false);
    assert!(rt; !show.pieces(&second.line, second.step).same());
    let third = ruled(b"#elif X", b"\n", 3, Verdict::ToIf, Span { at: 1, len: 4 });
    let pieces = show.pieces(&third.line, third.step);
    assert!(rt; !pieces.same());
    let expected: [&[u8]; 5] = [b"#line 3\n", b"#", b"if  ", b" X", b"\n"];
    assert_eq!(rt; pieces.parts(), expected.as_slice());
    Ok(())
}
