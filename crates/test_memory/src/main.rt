//! Defines a symbol twice and then a bad name; prints each result, and the symbol's entry after it.
//!
//! `tests/faults/run.sh` runs it with each allocation failing in turn. A failed call leaves the
//! table unchanged. A bad name is reported before any memory is taken.
#![tactic(auto)]

use std::io;
use ud_cond::{SymbolFault, Symbols};

fn main(rt: HostRuntime) -> io::Result<()> {
    let mut symbols = Symbols::new(rt.alloc());
    let first = symbols.define(b"A", b"1", false);
    println!(rt; "-DA=1: {}", reported(first))?;
    tell(&rt, &symbols)?;
    let second = symbols.define(b"A", b"22", true);
    println!(rt; "-iDA=22: {}", reported(second))?;
    tell(&rt, &symbols)?;
    let bad = symbols.define(b"1A", b"1", false);
    println!(rt; "-D1A: {}", reported(bad))?;
    tell(&rt, &symbols)
}

/// Returns the text for a call's result.
fn reported(answer: Result<(), SymbolFault>) -> &'static str {
    match answer {
        Ok(()) => "taken",
        Err(SymbolFault::BadName) => "bad name",
        Err(SymbolFault::OutOfMemory) => "out of memory",
    }
}

/// Prints the table's entry for the name.
fn tell(rt: &impl Print, symbols: &Symbols) -> io::Result<()> {
    let Some(entry) = symbols.find(b"A") else {
        return println!(rt; "A isn't listed");
    };
    let ignoring = if entry.ignoring { ", ignoring" } else { "" };
    match entry.value {
        Some(value) => println!(rt; "A is {}{ignoring}", value.escape_ascii()),
        None => println!(rt; "A is undefined{ignoring}"),
    }
}
