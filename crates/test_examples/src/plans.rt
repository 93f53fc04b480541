//! Plans of command lines, and the run of a plan over a text in memory.

use anyhow::Result;
use std::alloc::Global;
use unifdef::{Watched, plan, run};

/// Prints what the plan of two arguments has.
pub(crate) fn parse_arguments(rt: &impl Print, alloc: Global) -> Result<()> {
    let args = [
        String::from_str(alloc, "-bDA")?,
        String::from_str(alloc, "in.c")?,
    ];
    let plan = plan(alloc, &args)?;
    println!(rt; "blank: {}", plan.settings().blank)?;
    println!(rt; "A is listed: {}", plan.symbols().find(b"A").is_some())?;
    println!(rt; "operand: {:?}", plan.operand())?;
    Ok(())
}

/// Prints the fault of an argument.
pub(crate) fn reject_argument(rt: &impl Print, alloc: Global) -> Result<()> {
    let args = [String::from_str(alloc, "-bL")?];
    if let Err(usage) = plan(alloc, &args) {
        println!(rt; "{usage:?}")?;
    }
    Ok(())
}

/// Prints the result and the output of a run over memory.
pub(crate) fn run_plan(rt: &impl Print, alloc: Global) -> Result<()> {
    let args = [String::from_str(alloc, "-DA")?];
    let plan = plan(alloc, &args)?;
    let mut reader = Watched::new(b"#ifdef A\nx\n#else\ny\n#endif\n".as_slice());
    let mut out = Watched::new(Vec::<u8>::new(alloc));

    let differs = run(&plan, &mut reader, &mut out)?;
    println!(rt; "differs: {differs}")?;
    println!(rt; "output: {}", out.inner().as_slice().escape_ascii())?;
    Ok(())
}
