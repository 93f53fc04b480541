//! The table of symbols.

use std::alloc::AllocError;
use std::process::Abort;
use std::test::Fail;
use ud_cond::{Entry, SymbolFault, SymbolRow, Symbols};

/// Compares the table's entry for a name: its value, and whether it is ignoring.
fn check(rt: &impl Abort, symbols: &Symbols, name: &[u8], value: Option<&[u8]>, ignoring: bool) {
    assert_eq!(rt; symbols.find(name), Some(Entry { value, ignoring }));
}

/// Passes if the table has no entry for a name.
fn check_none(rt: &impl Abort, symbols: &Symbols, name: &[u8]) {
    assert!(rt; symbols.find(name).is_none(), "{}", name.escape_ascii());
}

/// Calls the table for a name, which is undefined if it has no value. Returns the call's result.
fn call(
    symbols: &mut Symbols,
    name: &[u8],
    value: Option<&[u8]>,
    ignoring: bool,
) -> Result<(), SymbolFault> {
    match value {
        Some(value) => symbols.define(name, value, ignoring),
        None => symbols.undefine(name, ignoring),
    }
}

/// Calls the table for a name, which it takes.
fn take(rt: &impl Abort, symbols: &mut Symbols, name: &[u8], value: Option<&[u8]>, ignoring: bool) {
    assert!(rt;
        call(symbols, name, value, ignoring).is_ok(),
        "{}",
        name.escape_ascii()
    );
}

/// Calls the table for a name, which it refuses.
fn refuse(rt: &impl Abort, symbols: &mut Symbols, name: &[u8], value: Option<&[u8]>) {
    let answer = call(symbols, name, value, false);
    assert!(rt;
        answer == Err(SymbolFault::BadName),
        "{}",
        name.escape_ascii()
    );
}

#[test]
fn the_last_call_for_a_name_counts(rt: HostRuntime) -> Result<(), Fail> {
    let mut symbols = Symbols::new(rt.alloc());
    take(&rt, &mut symbols, b"A", Some(b"1"), false);
    check(&rt, &symbols, b"A", Some(b"1"), false);
    take(&rt, &mut symbols, b"A", None, true);
    check(&rt, &symbols, b"A", None, true);
    take(&rt, &mut symbols, b"A", Some(b""), false);
    check(&rt, &symbols, b"A", Some(b""), false);
    check_none(&rt, &symbols, b"B");
    Ok(())
}

#[test]
fn a_bad_name_is_refused(rt: HostRuntime) -> Result<(), Fail> {
    let mut symbols = Symbols::new(rt.alloc());
    take(&rt, &mut symbols, b"A", Some(b"1"), false);
    refuse(&rt, &mut symbols, b"1A", Some(b"1"));
    refuse(&rt, &mut symbols, b"defined", None);
    refuse(&rt, &mut symbols, b"", Some(b"1"));
    check_none(&rt, &symbols, b"1A");
    check_none(&rt, &symbols, b"defined");
    check(&rt, &symbols, b"A", Some(b"1"), false);
    Ok(())
}

/// Returns a name for a number below 1,000.
fn numbered(number: u16) -> [u8; 4] {
    let digit = |n: u16| b'0' + (n % 10) as u8;
    [b'N', digit(number / 100), digit(number / 10), digit(number)]
}

/// Compares the entries of 300 names, of which each third one is undefined.
fn check_thirds(rt: &impl Abort, symbols: &Symbols) {
    for number in 0..300 {
        let name = numbered(number);
        if number % 3 == 0 {
            check(rt, symbols, &name, None, true);
        } else {
            check(rt, symbols, &name, Some(&name[1..]), false);
        }
    }
}

#[test]
fn three_hundred_names_are_kept_apart(rt: HostRuntime) -> Result<(), Fail> {
    let mut symbols = Symbols::new(rt.alloc());
    for number in (0..300).rev() {
        let name = numbered(number);
        take(&rt, &mut symbols, &name, Some(&name[1..]), false);
    }
    for number in (0..300).step_by(3) {
        take(&rt, &mut symbols, &numbered(number), None, true);
    }
    check_thirds(&rt, &symbols);
    check_none(&rt, &symbols, &numbered(300));
    Ok(())
}

/// Returns the table of 300 names in falling order, and of a last row for one of them.
fn falling(rt: &impl AllocGlobal) -> Result<Symbols, AllocError> {
    let mut rows = Vec::new(rt.alloc());
    for number in (0..300).rev() {
        let name = numbered(number);
        rows.push(SymbolRow::of(rt.alloc(), &name, Some(&name[1..]), false)?)?;
    }
    rows.push(SymbolRow::of(rt.alloc(), b"N007", None, true)?)?;
    Symbols::from_rows(rt.alloc(), rows)
}

#[test]
fn rows_in_falling_order_make_a_table(rt: HostRuntime) -> Result<(), Fail> {
    let symbols = falling(&rt)?;
    check(&rt, &symbols, b"N299", Some(b"299"), false);
    check(&rt, &symbols, b"N007", None, true);
    check(&rt, &symbols, b"N000", Some(b"000"), false);
    check_none(&rt, &symbols, b"N300");
    Ok(())
}

#[test]
fn names_that_end_alike_are_kept_apart(rt: HostRuntime) -> Result<(), Fail> {
    let mut symbols = Symbols::new(rt.alloc());
    take(&rt, &mut symbols, b"LEFT_OVER_NAME", Some(b"1"), false);
    take(&rt, &mut symbols, b"OVER_NAME", Some(b"2"), true);
    take(&rt, &mut symbols, b"VER_NAME", None, false);
    check_none(&rt, &symbols, b"RIGHT_OVER_NAME");
    take(&rt, &mut symbols, b"RIGHT_OVER_NAME", Some(b"3"), false);
    check(&rt, &symbols, b"LEFT_OVER_NAME", Some(b"1"), false);
    check(&rt, &symbols, b"RIGHT_OVER_NAME", Some(b"3"), false);
    check(&rt, &symbols, b"OVER_NAME", Some(b"2"), true);
    check(&rt, &symbols, b"VER_NAME", None, false);
    Ok(())
}
