//! An engine that is fed chunk by chunk, with a printer of the caller's own.

use crate::outline::Outline;
use anyhow::Result;
use std::alloc::Global;
use ud_sections::Delete;
use unifdef::{Engine, RunFault, Watched, plan};

/// Prints the outline of a text that comes in chunks: the directives of the output.
pub(crate) fn print_outline(rt: &impl Print, alloc: Global) -> Result<()> {
    let args = [String::from_str(alloc, "-DA")?];
    let plan = plan(alloc, &args)?;

    let mut engine = Engine::new(&plan, Outline::new(Delete::new()));
    let mut out = Watched::new(Vec::<u8>::new(alloc));
    let chunks: [&[u8]; 3] = [
        b"#ifdef A\nx\n#if",
        b"def B\ny\n#else\nz\n#endif\n#en",
        b"dif",
    ];
    for chunk in chunks {
        if out.failed() {
            return Err(RunFault::Write.into());
        }
        engine.feed(chunk, &mut out)?;
        println!(rt; "so far [{}]", out.inner().as_slice().escape_ascii())?;
    }
    if out.failed() {
        return Err(RunFault::Write.into());
    }
    println!(rt; "differs {}", engine.finish(&mut out)?)?;
    Ok(())
}
