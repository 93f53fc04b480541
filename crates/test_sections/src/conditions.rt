//! Conditions, and the names of directives.

use crate::stepping::{append_repeated, planned};
use std::alloc::AllocError;
use std::process::Abort;
use std::test::Fail;
use ud_args::Plan;
use ud_cond::{Answer, Rules, Symbols, condition, names};
use ud_model::{Cond, Kind, MAX_LINE_BYTES};

/// Symbols whose values are symbols.
const CHAIN: &str = "-DA=B -DB=-7 -DC=D -DD=C -DE=U -UU";

/// Symbols whose values are constants, or look like them.
const NUMBERS: &str = "-DA=5 -DAe=3 -DB=defined -DC=0x10 -DD=-9223372036854775808";

/// The symbols of `NUMBERS`, with an option that decides conditions without a symbol.
const CONSTANTS: &str = "-k -DA=5 -DAe=3 -DB=defined -DC=0x10 -DD=-9223372036854775808";

/// Arguments for the rules and the symbols, separated by spaces, and lines with a condition and its
/// expression, which may begin with a second space. A line of `#` says what the next ones show.
#[rattlefmt::skip]
const EXPRESSIONS: &[(&str, &str)] = &[
    ("-DA=5", "\
# Expressions are evaluated.
yes -A / 2 == -2
yes -A % 2 == -1
yes ~A == -6
yes 010 + A == 13
unknown A == 08
unknown 0xE-9 == A
yes A & 4 == 4
yes 1 < A < 2
unknown A / (A - 5)
yes -9223372036854775807 - 1 < A
unknown -9223372036854775808 < A
unknown (-9223372036854775807 - 1) / -1 < A
unknown ~A < 0u
yes ~A < 0u || A
no X && !A
unknown X || 1
"),
    ("-UA", "\
# A known operand decides unless strict.
no  A && X
"),
    ("-K -UA", "\
unknown  A && X
"),
    ("-DA=5", "\
# Constants are evaluated if `-k` asks for them.
unknown  0
"),
    ("-k -DA=5", "\
no  0
no  X && 0
unknown  1 +
"),
    (CHAIN, "\
# A value is followed from symbol to symbol.
yes A == -7
unknown E == 0
yes A((x)) < 0
unknown C == 0
yes defined C && defined(D)
unknown 1 || U(1)
yes U == 0
"),
    ("-DA=5", "\
# Arguments of a macro are the bytes up to their parenthesis.
yes A (1, \"x\") == 5
yes A(0u) > -1
unknown A(\")\") == 5
unknown A(1)(2)
unknown (A)(1)
unknown A(1
unknown defined A(1)
unknown defined(A)(1)
"),
    ("-DA=5 -DB=-5u", "\
# A `u` anywhere makes the least number 0.
yes -1 < A
unknown -1 < A || 0u
unknown -1 < A || B
yes -1 < A && defined B
"),
    (NUMBERS, "\
# Constants are read as in C.
yes Ae-1 == 2
"),
    (CONSTANTS, "\
yes 0xEu-1 == 13
unknown 1e+2
yes 0xfUll == 15
unknown 1lL
unknown 0x
unknown (-9223372036854775807 - 1) % -1 == 0
"),
    (NUMBERS, "\
unknown B
yes C == 16
unknown D < 0
"),
];

/// Returns the two parts of a line around its first space.
pub(crate) fn halves<'a>(rt: &impl Abort, line: &'a str) -> (&'a str, &'a str) {
    line.split_once(' ').expect(rt, "a line has a space")
}

/// Returns the condition of this name.
pub(crate) fn cond_of(word: &str) -> Cond {
    match word {
        "yes" => Cond::Yes,
        "no" => Cond::No,
        _ => Cond::Unknown,
    }
}

pub(crate) fn rules_of(plan: &Plan) -> Rules {
    Rules::of(plan.settings())
}

/// Compares the condition of an `#if` and of an `#elif`.
fn check(rt: &impl Abort, plan: &Plan, text: &[u8], cond: Cond) {
    assert!(rt; text.len() <= MAX_LINE_BYTES);
    for kind in [Kind::If, Kind::Elif] {
        check_answer(
            rt,
            plan,
            kind,
            text,
            Answer {
                cond,
                ignoring: false,
            },
        );
    }
}

/// Compares the condition of a directive.
fn check_answer(rt: &impl Abort, plan: &Plan, kind: Kind, text: &[u8], answer: Answer) {
    assert!(rt; text.len() <= MAX_LINE_BYTES);
    assert_eq!(rt;
        condition(kind, text, plan.symbols(), rules_of(plan)),
        answer,
        "for {}",
        text.escape_ascii()
    );
}

/// Compares the conditions of expressions, each after its own on a line.
fn check_lines(rt: &impl Abort, plan: &Plan, lines: &str) {
    for line in lines.lines() {
        if !line.starts_with('#') {
            let (word, text) = halves(rt, line);
            check(rt, plan, text.as_bytes(), cond_of(word));
        }
    }
}

#[test]
fn expressions_are_valued(rt: HostRuntime) -> Result<(), Fail> {
    for &(args, lines) in EXPRESSIONS {
        check_lines(&rt, &planned(&rt, rt.alloc(), args)?, lines);
    }
    Ok(())
}

/// The bytes after the keyword, the condition, and whether the section is plain text. `A` is
/// defined and ignoring, and `U` is undefined.
const BY_NAME: &[(Kind, &[u8], Cond, bool)] = &[
    (Kind::Ifdef, b" A ", Cond::Yes, true),
    (Kind::Ifndef, b" A", Cond::No, true),
    (Kind::Ifdef, b"\tU", Cond::No, false),
    (Kind::Ifndef, b" U", Cond::Yes, false),
    (Kind::Ifdef, b" X", Cond::Unknown, false),
    (Kind::Ifdef, b" A B", Cond::Unknown, false),
    (Kind::Ifndef, b"", Cond::Unknown, false),
    (Kind::Elifdef, b" A ", Cond::Yes, false),
    (Kind::Elifndef, b" A", Cond::No, false),
    (Kind::Elifdef, b" U", Cond::No, false),
    (Kind::Elifndef, b" U", Cond::Yes, false),
    (Kind::Elifndef, b" X", Cond::Unknown, false),
];

#[test]
fn a_condition_by_name_asks_for_one_name(rt: HostRuntime) -> Result<(), Fail> {
    let plan = planned(&rt, rt.alloc(), "-iDA= -UU")?;
    for &(kind, text, cond, ignoring) in BY_NAME {
        check_answer(&rt, &plan, kind, text, Answer { cond, ignoring });
    }
    Ok(())
}

/// Compares the names of a directive.
fn check_names(rt: &impl Abort, kind: Kind, text: &[u8], expected: &[&[u8]]) {
    assert!(rt; text.len() <= MAX_LINE_BYTES);
    let mut listed = names(kind, text);
    for name in expected {
        assert!(rt; listed.next() == Some(*name));
    }
    assert!(rt; listed.next().is_none());
}

/// The bytes after the keyword, and the directive's names.
const NAMES: &[(Kind, &[u8], &[&[u8]])] = &[
    (Kind::If, b" F(X) + defined(Y) > 0x1uL", &[b"F", b"Y"]),
    (Kind::Elif, b" A + (A)", &[b"A", b"A"]),
    (Kind::If, b" A--1", &[]),
    (Kind::If, b" A A", &[]),
    (Kind::Ifdef, b" defined ", &[b"defined"]),
    (Kind::Ifndef, b" A B", &[]),
    (Kind::Elifdef, b" A ", &[b"A"]),
    (Kind::Elifndef, b" A(1)", &[]),
    (Kind::Else, b" A", &[]),
    (Kind::Endif, b" A", &[]),
];

/// Compares the names of directives.
fn check_all_names(rt: &impl Abort, rows: &[(Kind, &[u8], &[&[u8]])]) {
    for &(kind, text, expected) in rows {
        check_names(rt, kind, text, expected);
    }
}

#[test]
fn names_come_in_order(rt: HostRuntime) -> Result<(), Fail> {
    check_all_names(&rt, NAMES);
    Ok(())
}

/// Bytes, a unit and how often it comes after them, further bytes, and how many `)` come last, with
/// the condition of them all where `A` is 5. The texts are as long as a line may be.
const LONG_TEXTS: &[(&[u8], &[u8], usize, &[u8], usize, Cond)] = &[
    // Parentheses are read to the longest line.
    (b" ", b"(", 32_767, b"A", 32_767, Cond::Yes),
    (b"", b"(", MAX_LINE_BYTES, b"", 0, Cond::Unknown),
    // Operators are read to the longest line.
    (b"", b"!", MAX_LINE_BYTES - 1, b"A", 0, Cond::No),
    (b"", b"A+", 32_767, b"A ", 0, Cond::Yes),
];

/// Compares the condition of a text that is made as a row of `LONG_TEXTS` says.
fn check_long(
    rt: &(impl Abort + AllocGlobal),
    plan: &Plan,
    row: (&[u8], &[u8], usize, &[u8], usize, Cond),
) -> Result<(), AllocError> {
    let (first, unit, count, last, closers, cond) = row;
    let mut text = Vec::from_slice(rt.alloc(), first)?;
    append_repeated(&mut text, unit, count)?;
    text.extend_from_slice(last)?;
    append_repeated(&mut text, b")", closers)?;
    check(rt, plan, text.as_slice(), cond);
    Ok(())
}

#[test]
fn operands_are_read_to_the_longest_line(rt: HostRuntime) -> Result<(), Fail> {
    let plan = planned(&rt, rt.alloc(), "-DA=5")?;
    for &row in LONG_TEXTS {
        check_long(&rt, &plan, row)?;
    }
    Ok(())
}

/// Compares the condition of `A` in parentheses, of which some may not be closed.
fn check_size(
    rt: &(impl Abort + AllocGlobal),
    plan: &Plan,
    size: usize,
    closers: usize,
    cond: Cond,
) -> Result<(), AllocError> {
    check_long(rt, plan, (b"", b"(", size, b"A", closers, cond))
}

/// Sizes around those at which longer stacks are used.
const SIZES: &[usize] = &[
    31, 32, 33, 63, 64, 65, 127, 128, 129, 1023, 1024, 1025, 2047, 8191, 8192, 8193, 32_767,
];

#[test]
fn texts_of_each_size_are_read(rt: HostRuntime) -> Result<(), Fail> {
    let plan = planned(&rt, rt.alloc(), "-DA=5")?;
    for &size in SIZES {
        check_size(&rt, &plan, size, size, Cond::Yes)?;
        check_size(&rt, &plan, size, size.saturating_sub(1), Cond::Unknown)?;
    }
    Ok(())
}
