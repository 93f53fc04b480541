//! The decisions of a machine for each line, the lines that it rejects, and its results after a
//! fault.
//!
//! Throughout, `Y` is defined, `N` is undefined, and `X` isn't listed. A kept line is `k`, a
//! removed one `-`, and an opener that becomes `#if`, `#else` or `#endif` is `i`, `e` or `n`.

use crate::stepping::Stepper;
use std::alloc::AllocError;
use std::process::Abort;
use std::test::Fail;
use ud_model::Mode;
use ud_sections::{SectionFault, Span};

const ARGS: &str = "-DY -UN";

/// Arguments by which sections of `N` and `I` are plain text.
const IGNORING: &str = "-iUN -iDI -DY";

/// The lines that may come next: text, a section, another group, the end. Those with a condition
/// are false, unknown and true.
const NEXT: [&[u8]; 9] = [
    b"x",
    b"#ifdef N",
    b"#if X",
    b"#ifndef N",
    b"#elif N",
    b"#elif X",
    b"#elif defined Y",
    b"#else",
    b"#endif",
];

/// Lines, and for each next line three letters: for that line, for a text line after it, and for an
/// `#endif` after both. `!` is a misplaced line.
#[rattlefmt::skip]
const PHASES: &[(&[&[u8]], [&str; 9])] = &[
    // In a removed group.
    (&[b"#ifdef N", b"#if X"], ["---", "---", "---", "---", "---", "---", "---", "---", "---"]),
    // All groups are false so far.
    (&[b"#ifdef N"], ["---", "---", "---", "---", "---", "ikk", "-k-", "-k-", "-k!"]),
    // The first kept group is true.
    (&[b"#ifdef Y"], ["kk-", "---", "kkk", "-k-", "---", "---", "---", "---", "-k!"]),
    // The last group is unknown.
    (&[b"#if X"], ["kkk", "---", "kkk", "-k-", "--k", "kkk", "ekk", "kkk", "kk!"]),
    // A false group follows an unknown one.
    (&[b"#if X", b"#elif N"], ["--k", "---", "---", "---", "--k", "kkk", "ekk", "kkk", "kk!"]),
    // The first true group follows an unknown one.
    (&[b"#if X", b"#elif defined Y"], ["kkk", "---", "kkk", "-k-", "n--", "n--", "n--", "n--", "kk!"]),
    // The first true group has ended.
    (&[b"#if X", b"#elif defined Y", b"#elif X"], ["---", "---", "---", "---", "---", "---", "---", "---", "-k!"]),
    // A group after a sole true one has ended.
    (&[b"#ifdef Y", b"#elif X"], ["---", "---", "---", "---", "---", "---", "---", "---", "-k!"]),
];

/// Arguments, lines, and the letters of the lines.
#[rattlefmt::skip]
const STEPS: &[(&str, &[&[u8]], &str)] = &[
    // A cut keyword is a fault everywhere.
    (ARGS, &[b"# // c \\", b"#if\\"], "kk"),
    // A directive over lines may only stay whole. It stays with its neighbors, only its keyword is
    // edited, or the whole group around it is removed.
    (ARGS, &[b"/* c", b"*/ #if X /*", b"*/"], "kkk"),
    (ARGS, &[b"#ifdef N", b"#elif X /*", b"*/"], "-ik"),
    (ARGS, &[b"#ifdef N", b"#if Y /*", b"*/", b"#endif"], "----"),
    // A comment or literal open in plain text isn't carried on.
    (IGNORING, &[b"#ifdef I", b"/* a", b"#endif", b"#if X"], "-k-k"),
    // In a removed group it is plain too. A directive that joins the next line never makes it
    // plain.
    (IGNORING, &[b"#ifdef N", b"#ifdef I", b"/*", b"#endif", b"#endif"], "-----"),
    (IGNORING, &[b"#if X", b"#ifdef N", b"#ifdef I // \\", b"", b"/*", b"*/"], "k-----"),
    // Directives are found across splices. The line is fresh again once the slash before a splice
    // turns out to begin a comment.
    (ARGS, &[b"/\\", b"* c */ #if X", b"#elif N"], "kk-"),
    (ARGS, &[b"/\\", b"\\", b"* c */ #if X", b"#elif N"], "kkk-"),
    // The star that opens a comment doesn't close it; a star before a splice does.
    (ARGS, &[b"/*\\", b"/", b"#endif", b"*/"], "kkkk"),
    (ARGS, &[b"/*", b"*\\", b"/ #if X", b"#elif N"], "kkk-"),
    // A splice comes before an escape: the backslash that remains escapes the quote after it.
    (ARGS, &[b"\"a\\\\", b"\" /* \"", b"#if X", b"#elif N"], "kkk-"),
    // An empty spliced line keeps the escape, and an empty line ends the literal.
    (ARGS, &[b"\"\\\\", b"\\", b"\" /*", b"#if X", b"#elif N"], "kkkk-"),
    // A directive may be on the second line of its logical line; there is at most one.
    (ARGS, &[b"/* */ \\", b"#if X", b"#elif N"], "kk-"),
    (ARGS, &[b"#if X /*", b"*/ #endif", b"#endif"], "kkk"),
    // A directive before a splice in a comment is evaluated.
    (ARGS, &[b"#ifdef N", b"#elif X // c \\", b"d"], "-ik"),
    // If the splice cuts the condition itself, the condition is unknown.
    (ARGS, &[b"#ifdef Y \\", b"", b"#elif N", b"x"], "kk--"),
];

/// Arguments, lines of which the last is faulty, its fault, and the depth and the mode then.
#[rattlefmt::skip]
const REFUSALS: &[(&str, &[&[u8]], SectionFault, usize, Mode)] = &[
    // A misplaced directive is a fault.
    (ARGS, &[b"#elif Y"], SectionFault::InappropriateElif { line: 1 }, 0, Mode::C),
    (ARGS, &[b"#if X", b"#else", b"#elif X"], SectionFault::InappropriateElif { line: 3 }, 1, Mode::C),
    (ARGS, &[b"#ifdef N", b"#if X", b"#else", b"#elif Y"], SectionFault::InappropriateElif { line: 4 }, 2, Mode::C),
    (ARGS, &[b"x", b"#else"], SectionFault::InappropriateElse { line: 2 }, 0, Mode::C),
    (ARGS, &[b"#if X", b"#else", b"x", b"#else"], SectionFault::InappropriateElse { line: 4 }, 1, Mode::C),
    (ARGS, &[b"#if X", b"#endif", b"#endif"], SectionFault::InappropriateEndif { line: 3 }, 0, Mode::C),
    ("-t", &[b"#if X", b"#endif", b"#endif"], SectionFault::InappropriateEndif { line: 3 }, 0, Mode::Plain),
    // After an opener became `#endif`, the section is still open.
    (ARGS, &[b"#if X", b"#elif defined Y", b"#else", b"#elif X"], SectionFault::InappropriateElif { line: 4 }, 1, Mode::C),
    // A cut keyword is a fault everywhere.
    (ARGS, &[b"#if\\"], SectionFault::Obfuscated { line: 1 }, 0, Mode::C),
    (ARGS, &[b"#ifdef N", b"# /* c"], SectionFault::Obfuscated { line: 2 }, 1, Mode::C),
    // A directive over lines may only stay whole. It would be removed, or lose what follows its
    // keyword.
    (ARGS, &[b"#ifdef Y /* c"], SectionFault::Obfuscated { line: 1 }, 0, Mode::C),
    (ARGS, &[b"#if X", b"#elif defined Y // \\"], SectionFault::Obfuscated { line: 2 }, 1, Mode::C),
    (ARGS, &[b"#if X", b"#elif defined Y", b"#elif X /*"], SectionFault::Obfuscated { line: 3 }, 1, Mode::C),
    // It stays, but the line that it is joined to is removed.
    (ARGS, &[b"#if X", b"1", b"#elif N", b"/* c", b"*/ #endif"], SectionFault::Obfuscated { line: 5 }, 1, Mode::C),
];

/// Lines, and the keyword that is reported of each.
const KEYWORDS: &[(&[u8], Span)] = &[
    (b" # ifdef X", Span { at: 3, len: 5 }),
    (b"# define X", Span { at: 0, len: 0 }),
    (b"/* */ #endif", Span { at: 7, len: 5 }),
];

/// The lines of a text, a few at a time, with their letters and the mode after them.
///
/// A section inside, which is plain by its own symbol too, doesn't end the mode.
#[rattlefmt::skip]
const IN_PLAIN: &[(&[&[u8]], &str, Mode)] = &[
    (&[b"#ifndef N", b"/* a", b"#else"], "-k-", Mode::Plain),
    (&[b"#ifdef I", b"\"", b"#endif", b"/*"], "----", Mode::Plain),
    (&[b"#endif"], "-", Mode::C),
];

/// Compares the letters, after these lines, of a next line, of a text line after it, and of an
/// `#endif` after both. `!` is a misplaced line.
fn check_after(
    rt: &(impl Abort + AllocGlobal),
    lines: &[&[u8]],
    next: &[u8],
    letters: &str,
) -> Result<(), AllocError> {
    let mut stepper = Stepper::new(rt, rt.alloc(), ARGS)?;
    stepper.read(rt, lines);
    stepper.check(rt, &[next, b"x", b"#endif"], letters);
    Ok(())
}

/// Compares the letters, after these lines, for each line that may come next.
fn check_phase(
    rt: &(impl Abort + AllocGlobal),
    lines: &[&[u8]],
    expected: &[&str; 9],
) -> Result<(), AllocError> {
    for at in 0..NEXT.len() {
        check_after(rt, lines, NEXT[at], expected[at])?;
    }
    Ok(())
}

/// Compares the letters of all phases.
fn check_phases(
    rt: &(impl Abort + AllocGlobal),
    rows: &[(&[&[u8]], [&str; 9])],
) -> Result<(), AllocError> {
    for (lines, expected) in rows {
        check_phase(rt, lines, expected)?;
    }
    Ok(())
}

#[test]
fn a_section_goes_through_its_phases(rt: HostRuntime) -> Result<(), Fail> {
    check_phases(&rt, PHASES)?;
    Ok(())
}

/// Compares the letters of lines.
fn check_steps(
    rt: &(impl Abort + AllocGlobal),
    rows: &[(&str, &[&[u8]], &str)],
) -> Result<(), AllocError> {
    for &(args, lines, letters) in rows {
        Stepper::new(rt, rt.alloc(), args)?.check(rt, lines, letters);
    }
    Ok(())
}

#[test]
fn each_line_has_its_verdict(rt: HostRuntime) -> Result<(), Fail> {
    check_steps(&rt, STEPS)?;
    Ok(())
}

/// Compares the fault of the last of these lines. Afterwards, every step and the end return the
/// same fault, and mode and depth stay.
fn check_refusal(
    rt: &impl Abort,
    stepper: &mut Stepper,
    lines: &[&[u8]],
    fault: SectionFault,
    depth: usize,
    mode: Mode,
) {
    let Some((last, before)) = lines.split_last() else {
        return;
    };
    stepper.read(rt, before);
    for body in [*last, b"x", b"#if X"] {
        stepper.refuse(rt, body, fault);
    }
    stepper.finish(rt, Err(fault));
    stepper.check_depth(rt, depth);
    stepper.check_mode(rt, mode);
}

/// Compares the faults of last lines.
fn check_refusals(
    rt: &(impl Abort + AllocGlobal),
    rows: &[(&str, &[&[u8]], SectionFault, usize, Mode)],
) -> Result<(), AllocError> {
    for &(args, lines, fault, depth, mode) in rows {
        let mut stepper = Stepper::new(rt, rt.alloc(), args)?;
        check_refusal(rt, &mut stepper, lines, fault, depth, mode);
    }
    Ok(())
}

#[test]
fn a_directive_misplaced_or_over_lines_is_refused(rt: HostRuntime) -> Result<(), Fail> {
    check_refusals(&rt, REFUSALS)?;
    Ok(())
}

/// Compares the keyword of the next line.
fn check_keyword(rt: &impl Abort, stepper: &mut Stepper, body: &[u8], keyword: Span) {
    let step = stepper.step(rt, body).expect(rt, "the line is sound");
    assert_eq!(rt; step.keyword, keyword);
}

#[test]
fn a_keyword_is_reported_with_its_position(rt: HostRuntime) -> Result<(), Fail> {
    let mut stepper = Stepper::new(&rt, rt.alloc(), ARGS)?;
    for &(body, keyword) in KEYWORDS {
        check_keyword(&rt, &mut stepper, body, keyword);
    }
    stepper.check_depth(&rt, 0);
    stepper.finish(&rt, Ok(()));
    Ok(())
}

/// Opens as many sections as may be open, of which this line opens the first, and one more.
fn check_deepest(rt: &impl Abort, stepper: &mut Stepper, first: &[u8]) {
    stepper.read(rt, &[first]);
    for _ in 1..256 {
        stepper.read(rt, &[b"#if X"]);
    }
    let fault = SectionFault::TooManyLevels { line: 257 };
    stepper.refuse(rt, b"#if X", fault);
    stepper.refuse(rt, b"#endif", fault);
    stepper.finish(rt, Err(fault));
    stepper.check_depth(rt, 256);
}

#[test]
fn a_section_more_than_may_be_open_is_refused(rt: HostRuntime) -> Result<(), Fail> {
    for first in [b"#if X".as_slice(), b"#ifdef N".as_slice()] {
        check_deepest(&rt, &mut Stepper::new(&rt, rt.alloc(), ARGS)?, first);
    }
    Ok(())
}

#[test]
fn the_end_reports_an_open_comment_before_an_open_section(rt: HostRuntime) -> Result<(), Fail> {
    let mut stepper = Stepper::new(&rt, rt.alloc(), ARGS)?;
    stepper.finish(&rt, Ok(()));
    stepper.read(&rt, &[b"x", b"#ifdef X", b"#elif N", b"x"]);
    let open = SectionFault::PrematureEof {
        line: 4,
        if_line: 2,
    };
    stepper.finish(&rt, Err(open));
    stepper.read(&rt, &[b"#if Y", b"/* c"]);
    stepper.finish(&rt, Err(SectionFault::EofInComment { line: 6 }));
    Ok(())
}

/// Compares the letters of the next lines, and the mode after them.
fn check_next(rt: &impl Abort, stepper: &mut Stepper, lines: &[&[u8]], letters: &str, mode: Mode) {
    stepper.check(rt, lines, letters);
    stepper.check_mode(rt, mode);
}

#[test]
fn a_section_by_an_ignoring_symbol_is_plain_up_to_its_end(rt: HostRuntime) -> Result<(), Fail> {
    let mut stepper = Stepper::new(&rt, rt.alloc(), IGNORING)?;
    for &(lines, letters, mode) in IN_PLAIN {
        check_next(&rt, &mut stepper, lines, letters, mode);
    }
    Ok(())
}

#[test]
fn a_run_of_text_has_one_verdict(rt: HostRuntime) -> Result<(), Fail> {
    let mut stepper = Stepper::new(&rt, rt.alloc(), ARGS)?;
    stepper.check_text(&rt, 3, 'k');
    check_next(&rt, &mut stepper, &[b"#if X", b"#elif N"], "k-", Mode::C);
    stepper.check_text(&rt, 9, '-');
    check_next(&rt, &mut stepper, &[b"#endif"], "k", Mode::C);
    stepper.check_text(&rt, 11, 'k');
    stepper.refuse(
        &rt,
        b"#endif",
        SectionFault::InappropriateEndif { line: 12 },
    );
    Ok(())
}
