//! The residuals of conditions.

use crate::conditions::{cond_of, halves, rules_of};
use crate::stepping::{append_repeated, planned};
use std::alloc::AllocError;
use std::process::Abort;
use std::test::Fail;
use ud_args::Plan;
use ud_cond::{TokenFlags, residual};
use ud_model::{Cond, MAX_LINE_BYTES};

/// Symbols of some rows.
const SOURCES: &str = "-UVMS -UMSWIN -UWIN32 -U_WIN32 -U__alpha__ -DCONFIG_SMP";

/// Symbols of some rows.
const SYMBOLS: &str = "-UA -DB -DN=-1";

/// Symbols of some rows.
const CHAIN: &str = "-DC=D -DD=0 -DE=E -DG=x+1";

/// Symbols of some rows.
const CONSTANTS: &str = "-UA -DB -DN=-1 -k";

/// Symbols of some rows.
const STRICT: &str = "-UA -DB -DN=-1 -K";

/// Arguments for the rules and the symbols, and lines with an expression: after `none`, or after
/// the condition of its residual and a letter for each token. The residual has the tokens of `T`.
/// An expression may begin with a second space. A line of `#` says what the next ones show.
#[rattlefmt::skip]
const RESIDUALS: &[(&str, &str)] = &[
    (SOURCES, "\
# Conditions of real sources.
unknown TFTTTTFFFFFF  !(defined(UNIX) || defined(VMS))
unknown FFFFFFFFFFFFFFFFFFFFTTTT  (defined(MSWIN) && (!defined(FEAT_GUI) || \
    defined(VIMDLL))) || defined(PROTO)
unknown TFFFFFFFFFFTTTTTTTTTTTT  (defined(WIN32) || defined(_WIN32) || defined (WINDOWS) || \
    defined (_WINDOWS)) && X
unknown FFFFFTTTT  defined(__alpha__) || defined(__hppa__)
unknown FFFFFFTTT  !defined(CONFIG_SMP) || __LINUX_ARM_ARCH__ >= 7
"),
    (SYMBOLS, "\
# An operand goes with its operator.
unknown TFFFTT  X || defined A || Y
unknown TTTFFTT  X && (B && Y)
unknown FFFFT  A && X || Y
unknown FFFFFFT  (B || X) && Y
unknown TFF  X(A) || A
unknown FFTFFFFTT  B && X || A && Y || Z
unknown FFFFTTT  B == 1 && X >= 0x10uL
unknown FFFFT  N < 0 && X
unknown TTTFF  B & X || A
unknown TTTTTFF  A + X > 2 || A
unknown TTTFF  X && 1 && B
unknown TTTTFFFFF  defined(X) || defined(A)
# Parentheses go if a `defined` or parentheses are left.
unknown FFFTTTTFTT  ( A || ( defined X ) ) && Y
unknown FFFTTTFTT  (A || !defined X) && Y
unknown FTTFFFFFTT  (defined X || A && Y) && Z
unknown FTTTTFFFFTT  ( defined(X) || defined A ) && Y
unknown TFFFTTF  !(A || defined X)
unknown TFFTTTT  (A || X) && Y
unknown TFFTTTT  (A || F(X)) && Y
unknown TFFFFFFTTFF  !(B && (A || defined X))
unknown TFFTT (A||X)
# The operands of other operators stay.
unknown TTTTTTTFF  X + (A || Y) || A
unknown TTTTTTFF  ~(A || X) && B
unknown TTTTTTTTFF  -(A || X) < 0 || A
unknown TTTTTTT  (A || X) == 1
# A residual may be decided.
yes FFT  A || B
no TTT  A && X
yes TTTTTFFFF  N < 0 || X && B == 1u
yes TTTTTT  !(X && A)
# An operand without a value stays.
unknown TTT  X || A(1)
unknown TTTTT  N < 0u || X
unknown TTTTT  B / A || X
# A text that isn't understood has no residual.
none\x20
none  X(1 || A
none  08 || A || X
none  X -- A || A
none  X || A ? B : X
none  X || A)
none  (X || A
none  X == 0xE+A || A
none  defined A(X) || A
none  defined || A
none  defined(A || X
"),
    (CHAIN, "\
# A symbol has the value to which it leads.
unknown FFT  C || X
unknown TTT  E || X
unknown TTT  G || X
"),
    (CONSTANTS, "\
# Constants count with `-k`.
unknown TFFFF  X && 1 && B
unknown TFFTTFF  (0 || X) && B
"),
    (STRICT, "\
# With `-K` both operands have to be decided.
unknown TTTFF  A && X && B
unknown TTTTTFF  A && X || Y || A
unknown TTTFF  B || X || A
unknown FFFFFFFT  !(B && A) && X
"),
];

/// Compares the condition and the flags of a residual.
fn check(rt: &impl Abort, plan: &Plan, text: &[u8], cond: Cond, stays: &[u8]) {
    assert!(rt; text.len() <= MAX_LINE_BYTES);
    let mut flags = TokenFlags::new();
    let found = residual(text, plan.symbols(), rules_of(plan), &mut flags);
    assert!(rt;
        found == Some(cond),
        "{found:?} for {}",
        text.escape_ascii()
    );
    check_flags(rt, text, flags.as_slice(), stays);
}

/// Compares the flags of an expression's tokens with letters: `T` for a token that stays.
fn check_flags(rt: &impl Abort, text: &[u8], flags: &[bool], stays: &[u8]) {
    assert!(rt;
        flags.len() == stays.len(),
        "the tokens of {}",
        text.escape_ascii()
    );
    for (flag, letter) in flags.iter().zip(stays) {
        assert!(rt;
            *flag == (*letter == b'T'),
            "{flags:?} for {}",
            text.escape_ascii()
        );
    }
}

/// Passes if a text has no residual.
fn check_none(rt: &impl Abort, plan: &Plan, text: &[u8]) {
    assert!(rt; text.len() <= MAX_LINE_BYTES);
    let found = residual(text, plan.symbols(), rules_of(plan), &mut TokenFlags::new());
    assert!(rt; found.is_none(), "a residual of {}", text.escape_ascii());
}

/// Compares the residual of an expression with what stands before it on its line.
fn check_line(rt: &impl Abort, plan: &Plan, line: &str) {
    let (word, rest) = halves(rt, line);
    if word == "none" {
        check_none(rt, plan, rest.as_bytes());
    } else {
        let (stays, text) = halves(rt, rest);
        check(rt, plan, text.as_bytes(), cond_of(word), stays.as_bytes());
    }
}

/// Compares the residuals of expressions, each on a line.
fn check_lines(rt: &impl Abort, plan: &Plan, lines: &str) {
    for line in lines.lines() {
        if !line.starts_with('#') {
            check_line(rt, plan, line);
        }
    }
}

#[test]
fn operands_that_are_decided_go(rt: HostRuntime) -> Result<(), Fail> {
    for &(args, lines) in RESIDUALS {
        check_lines(&rt, &planned(&rt, rt.alloc(), args)?, lines);
    }
    Ok(())
}

/// Sizes around those at which longer stacks are used.
const SIZES: &[usize] = &[63, 64, 65, 1023, 1024, 1025, 4095];

/// Compares the residual of `X` in this many parentheses. Without the last of them, it has none.
fn check_size(rt: &(impl Abort + AllocGlobal), plan: &Plan, size: usize) -> Result<(), AllocError> {
    let mut stays = Vec::new(rt.alloc());
    append_repeated(&mut stays, b"TT", size)?;
    stays.push(b'T')?;
    let mut text = Vec::new(rt.alloc());
    append_repeated(&mut text, b"(", size)?;
    text.push(b'X')?;
    append_repeated(&mut text, b")", size)?;
    check(rt, plan, text.as_slice(), Cond::Unknown, stays.as_slice());
    text.truncate(stays.len().saturating_sub(1));
    check_none(rt, plan, text.as_slice());
    Ok(())
}

#[test]
fn texts_of_each_size_have_residuals(rt: HostRuntime) -> Result<(), Fail> {
    let plan = planned(&rt, rt.alloc(), SYMBOLS)?;
    for &size in SIZES {
        check_size(&rt, &plan, size)?;
    }
    Ok(())
}
