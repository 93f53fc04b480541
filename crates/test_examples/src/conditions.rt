//! Conditions and names alone, without lines or sections.

ghost use Rattle.std.specs.Prelude.{◌≤◌, length};
ghost use Rattle.ud_model.specs.declared.limits.TheConstants.{MAX_LINE_BYTES};

use anyhow::{Result, ensure};
use std::alloc::Global;
use ud_cond::{Rules, Symbols, condition, names};
use ud_model::{Cond, Kind};

/// Prints the decision on an `#if`.
pub(crate) fn decide_condition(rt: &impl Print, alloc: Global) -> Result<()> {
    let mut symbols = Symbols::new(alloc);
    let defined = symbols.define(b"VERSION", b"201112L", false);
    ensure!(defined.is_ok(), "out of memory");
    let rules = Rules {
        constants: false,
        strict: false,
    };

    let answer = condition(Kind::If, b" VERSION >= 199901L", &symbols, rules);
    println!(rt; "{answer:?}")?;
    Ok(())
}

/// Prints the names of an `#if`.
pub(crate) fn list_names(rt: &impl Print) -> Result<()> {
    let text = b" defined(A) && B > LIMIT(C)";
    for name in names(Kind::If, text) {
        println!(rt; "name: {}", name.escape_ascii())?;
    }
    Ok(())
}

/// Prints the conditions of several `#if`s, and their names.
pub(crate) fn print_conditions(rt: &impl Print, alloc: Global) -> Result<()> {
    let mut symbols = Symbols::new(alloc);
    let defined = symbols.define(b"VERSION", b"201112L", false);
    let undefined = symbols.undefine(b"DEBUG", false);
    ensure!(defined.is_ok() && undefined.is_ok(), "out of memory");
    print_condition(rt, b" VERSION >= 199901L", &symbols)?;
    print_condition(rt, b" DEBUG && LEVEL > 2", &symbols)?;
    print_condition(rt, b" LEVEL > 2", &symbols)?;
    print_condition(rt, b" LEVEL ? 1 : 2", &symbols)
}

/// Prints the condition of an `#if` with this expression, and its names.
fn print_condition(rt: &impl Print, text: &[u8], symbols: &Symbols) -> Result<()>
    requires fits { length text.now ≤ MAX_LINE_BYTES }
{
    let rules = Rules {
        constants: false,
        strict: false,
    };
    let cond = match condition(Kind::If, text, symbols, rules).cond {
        Cond::Yes => "true",
        Cond::No => "false",
        Cond::Unknown => "unknown",
    };
    print!(rt; "#if{} is {cond}:", text.escape_ascii())?;
    for name in names(Kind::If, text) {
        print!(rt; " {}", name.escape_ascii())?;
    }
    println!(rt; "")?;
    Ok(())
}
