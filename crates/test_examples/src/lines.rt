//! Single lines: the scan of a line, and the step that a machine decides.

use anyhow::Result;
use std::alloc::Global;
use ud_model::Mode;
use ud_sections::Machine;
use ud_text::{Line, Scanner};
use unifdef::plan;

/// Prints the scan of a line that ends in an unclosed comment.
pub(crate) fn scan_line(rt: &impl Print) -> Result<()> {
    let mut scanner = Scanner::new();
    let line = Line {
        body: b"#if A /* since",
        ending: b"\n",
        number: 1,
    };
    let scan = scanner.read(Mode::C, &line);
    println!(rt; "masked: [{}]", scan.masked.escape_ascii())?;
    println!(rt; "joins the next line: {}", scan.joins_after)?;
    Ok(())
}

/// Prints the step of a directive.
pub(crate) fn step_line(rt: &impl Print, alloc: Global) -> Result<()> {
    let args = [String::from_str(alloc, "-DA")?];
    let plan = plan(alloc, &args)?;
    let mut scanner = Scanner::new();
    let mut machine = Machine::new(plan.settings());
    let line = Line {
        body: b"#ifdef A",
        ending: b"\n",
        number: 1,
    };
    let scan = scanner.read(machine.mode(), &line);
    println!(rt; "{:?}", machine.step(&scan, &line, plan.symbols()))?;
    Ok(())
}
