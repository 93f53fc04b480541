//! Texts without the operands that the symbols decide.

use crate::conditions::rules_of;
use crate::stepping::{append_repeated, planned};
use std::alloc::{AllocError, Global};
use std::process::Abort;
use std::test::Fail;
use ud_passes::prune;

/// Symbols of some rows.
const SOURCES: &str = "-UVMS -UMSWIN -UWIN32 -U_WIN32 -U__alpha__ -DCONFIG_SMP";

/// Symbols of some rows.
const SYMBOLS: &str = "-UA -DB -DN=-1";

/// Symbols of some rows.
const CONSTANTS: &str = "-UA -DB -k";

/// Symbols of some rows.
const STRICT: &str = "-UA -DB -K";

/// Arguments for the rules and the symbols, a text, the rest of it, and how many conditions are
/// edited.
#[rattlefmt::skip]
const TEXTS: &[(&str, &[u8], &[u8], usize)] = &[
    // Conditions of real sources.
    (SOURCES, b"#if !(defined(UNIX) || defined(VMS))\n", b"#if !defined(UNIX)\n", 1),
    (SOURCES, b"#if (defined(MSWIN) && (!defined(FEAT_GUI) || defined(VIMDLL))) || defined(PROTO)\n", b"#if defined(PROTO)\n", 1),
    (SOURCES, b"#if (defined(WIN32) || defined(_WIN32) || defined (WINDOWS) || defined (_WINDOWS)) && X\n", b"#if (defined (WINDOWS) || defined (_WINDOWS)) && X\n", 1),
    (SOURCES, b"#elif defined(__alpha__) || defined(__hppa__)\n", b"#elif defined(__hppa__)\n", 1),
    (SOURCES, b"#if !defined(CONFIG_SMP) || __LINUX_ARM_ARCH__ >= 7\n", b"#if __LINUX_ARM_ARCH__ >= 7\n", 1),
    // White space goes with its token, unless a comment is in it.
    (SYMBOLS, b"#if A || X // c\n", b"#if X // c\n", 1),
    (SYMBOLS, b"#if X || A // c\n", b"#if X // c\n", 1),
    (SYMBOLS, b"#if A /* a */ || X\n", b"#if  /* a */ X\n", 1),
    (SYMBOLS, b" # if\tA\t||\tX\t\n", b" # if\tX\t\n", 1),
    (SYMBOLS, b"#if A || X\r\n", b"#if X\r\n", 1),
    // Parentheses go if a `defined` or parentheses are left.
    (SYMBOLS, b"#if (A || X) && Y\n", b"#if (X) && Y\n", 1),
    (SYMBOLS, b"#if (A || defined X) && Y\n", b"#if defined X && Y\n", 1),
    // Each line is edited by itself.
    (SYMBOLS, b"x\n#if A || X\ny\n#elif B && Y\n#ifdef A\n#endif\n#else\nz\n#endif", b"x\n#if X\ny\n#elif Y\n#ifdef A\n#endif\n#else\nz\n#endif", 2),
    // Constants count with `-k`.
    (SYMBOLS, b"#if X && 1 && B\n", b"#if X && 1\n", 1),
    (SYMBOLS, b"#if X && 1\n", b"#if X && 1\n", 0),
    (CONSTANTS, b"#if X && 1 && B\n", b"#if X\n", 1),
    (CONSTANTS, b"#if X && 1\n", b"#if X\n", 1),
    // With `-K` both operands have to be decided.
    (STRICT, b"#if A && X && B\n", b"#if A && X\n", 1),
    // A condition stays if it is decided, isn't understood or has a quote.
    (SYMBOLS, b"#if A\n", b"#if A\n", 0),
    (SYMBOLS, b"#if X ? A : Y\n", b"#if X ? A : Y\n", 0),
    (SYMBOLS, b"#if F('/* ) || A\n", b"#if F('/* ) || A\n", 0),
    (SYMBOLS, b"#if F(\") || A\n", b"#if F(\") || A\n", 0),
    // It stays if the rest would be decided, or begin with a word byte next to the keyword.
    (SYMBOLS, b"#if N < 0 || X && B == 1u\n", b"#if N < 0 || X && B == 1u\n", 0),
    (SYMBOLS, b"#if!A||X\n", b"#if!A||X\n", 0),
    (SYMBOLS, b"#if!B||(X)\n", b"#if(X)\n", 1),
    // It stays if the edited line would have another ending.
    (SYMBOLS, b"#if X /* */\r|| A\n", b"#if X /* */\r|| A\n", 0),
    (SYMBOLS, b"#if X /* */\r|| A\r\n", b"#if X /* */\r\r\n", 1),
    // A line that joins another one stays, and so does one without an ending.
    (SYMBOLS, b"#if A || \\\nX\n", b"#if A || \\\nX\n", 0),
    (SYMBOLS, b"#if A || X /* c\n*/\n", b"#if A || X /* c\n*/\n", 0),
    (SYMBOLS, b"/* c\n*/ #if A || X\n", b"/* c\n*/ #if A || X\n", 0),
    (SYMBOLS, b"#if A || X", b"#if A || X", 0),
    // The comment of an `#else` or `#endif` is read as a condition, if nothing else follows.
    (SYMBOLS, b"#endif /* A || X */\n", b"#endif /* X */\n", 1),
    (SYMBOLS, b"#else // !A && X\r\n", b"#else // X\r\n", 1),
    (SYMBOLS, b"# endif/*!A&&X*/\t\n", b"# endif/*X*/\t\n", 1),
    (SYMBOLS, b"#endif /* A || X // c */\n", b"#endif /* X // c */\n", 1),
    (SYMBOLS, b"#endif // A || X /* c */\n", b"#endif // X /* c */\n", 1),
    (SYMBOLS, b"#endif /* A || X /* c */\n", b"#endif /* A || X /* c */\n", 0),
    (SYMBOLS, b"#endif /* A || X */ /* c */\n", b"#endif /* A || X */ /* c */\n", 0),
    (SYMBOLS, b"#endif /* A || X */ x\n", b"#endif /* A || X */ x\n", 0),
    (SYMBOLS, b"#endif /* A */\n#else // see A\n", b"#endif /* A */\n#else // see A\n", 0),
    (SYMBOLS, b"#endif /* A || 'X' */\n", b"#endif /* A || 'X' */\n", 0),
    (SYMBOLS, b"#endif // X /* */\r|| A\n", b"#endif // X /* */\r|| A\n", 0),
    (SYMBOLS, b"#endif // A || X \\\nY\n", b"#endif // A || X \\\nY\n", 0),
    (SYMBOLS, b"#endif // A || X", b"#endif // A || X", 0),
    (SYMBOLS, b"#ifdef A // A || X\n#define X // A || X\n", b"#ifdef A // A || X\n#define X // A || X\n", 0),
    // Text and other directives stay.
    (SYMBOLS, b"", b"", 0),
    (SYMBOLS, b"/*\n#if A || X\n*/\n", b"/*\n#if A || X\n*/\n", 0),
    (SYMBOLS, b"#define M \\\n#if A || X\n", b"#define M \\\n#if A || X\n", 0),
    (SYMBOLS, b"#ifdef A\n#elifdef A\n#ifndef A\n", b"#ifdef A\n#elifdef A\n#ifndef A\n", 0),
];

/// Spaces before a text, the text, the rest of it, and how many conditions are edited.
#[rattlefmt::skip]
const LONG_TEXTS: &[(usize, &[u8], &[u8], usize)] = &[
    // Lines with bodies around the sizes at which another scanner reads them are edited.
    (1013, b"#if A || X\n", b"#if X\n", 1),
    (1014, b"#if A || X\n", b"#if X\n", 1),
    (1015, b"#if A || X\n", b"#if X\n", 1),
    (65_525, b"#if A || X\n", b"#if X\n", 1),
    // A line over the limit stays.
    (65_526, b"#if A || X\n", b"#if A || X\n", 0),
    // A comment that begins on a line over the limit goes on.
    (69_996, b"x /*\n#if A || X\n*/\n#if A || X\n", b"x /*\n#if A || X\n*/\n#if X\n", 1),
];

/// Compares the rest of a text, and the number of edited conditions.
fn check(
    rt: &(impl Abort + AllocGlobal),
    args: &str,
    text: &[u8],
    left: &[u8],
    count: usize,
) -> Result<(), AllocError> {
    let plan = planned(rt, rt.alloc(), args)?;
    let pruned = prune(rt.alloc(), text, plan.symbols(), rules_of(&plan))?;
    assert_eq!(rt; pruned.text.as_slice(), left, "under {args}");
    assert_eq!(rt; pruned.edited, count, "under {args}");
    Ok(())
}

/// Compares the rests of texts.
fn check_texts(
    rt: &(impl Abort + AllocGlobal),
    rows: &[(&str, &[u8], &[u8], usize)],
) -> Result<(), AllocError> {
    for &(args, text, left, count) in rows {
        check(rt, args, text, left, count)?;
    }
    Ok(())
}

#[test]
fn operands_that_are_decided_go_from_texts(rt: HostRuntime) -> Result<(), Fail> {
    check_texts(&rt, TEXTS)?;
    Ok(())
}

/// Returns a text after this many spaces.
fn padded(alloc: Global, spaces: usize, text: &[u8]) -> Result<Vec<u8>, AllocError> {
    let mut whole = Vec::new(alloc);
    append_repeated(&mut whole, b" ", spaces)?;
    whole.extend_from_slice(text)?;
    Ok(whole)
}

/// Compares the rest of a text after spaces, and the number of edited conditions.
fn check_padded(
    rt: &(impl Abort + AllocGlobal),
    spaces: usize,
    text: &[u8],
    left: &[u8],
    count: usize,
) -> Result<(), AllocError> {
    let text = padded(rt.alloc(), spaces, text)?;
    let left = padded(rt.alloc(), spaces, left)?;
    check(rt, SYMBOLS, text.as_slice(), left.as_slice(), count)
}

#[test]
fn lines_that_fit_are_edited_and_longer_ones_are_read(rt: HostRuntime) -> Result<(), Fail> {
    for &(spaces, text, left, count) in LONG_TEXTS {
        check_padded(&rt, spaces, text, left, count)?;
    }
    Ok(())
}
