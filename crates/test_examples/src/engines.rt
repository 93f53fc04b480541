//! Engines that are fed chunk by chunk.

use anyhow::Result;
use std::alloc::Global;
use ud_sections::{Blank, Delete};
use unifdef::{Engine, Watched, plan};

/// Prints the output of an engine whose printer blanks removed lines.
pub(crate) fn print_blanked(rt: &impl Print, alloc: Global) -> Result<()> {
    let args = [String::from_str(alloc, "-DA")?];
    let plan = plan(alloc, &args)?;
    let mut out = Watched::new(Vec::<u8>::new(alloc));

    let mut engine = Engine::new(&plan, Blank::new());
    engine.feed(b"#ifdef A\nx\n#endif\n", &mut out)?;
    println!(rt; "blanked: {}", out.inner().as_slice().escape_ascii())?;
    Ok(())
}

/// Prints the output after each of two chunks. The first one ends in the middle of a line.
pub(crate) fn feed_chunks(rt: &impl Print, alloc: Global) -> Result<()> {
    let args = [String::from_str(alloc, "-DA")?];
    let plan = plan(alloc, &args)?;
    let mut engine = Engine::new(&plan, Delete::new());
    let mut out = Watched::new(Vec::<u8>::new(alloc));

    engine.feed(b"#ifdef A\nx\ny", &mut out)?;
    println!(rt; "one chunk: {}", out.inner().as_slice().escape_ascii())?;
    engine.feed(b"\n#endif\n", &mut out)?;
    println!(rt; "two chunks: {}", out.inner().as_slice().escape_ascii())?;
    Ok(())
}

/// Prints the result and the output of an engine for a text whose last line has no newline.
pub(crate) fn finish_text(rt: &impl Print, alloc: Global) -> Result<()> {
    let args = [String::from_str(alloc, "-DA")?];
    let plan = plan(alloc, &args)?;
    let mut engine = Engine::new(&plan, Delete::new());
    let mut out = Watched::new(Vec::<u8>::new(alloc));

    engine.feed(b"#ifndef A\nx\n#endif\ny", &mut out)?;
    println!(rt; "differs: {}", engine.finish(&mut out)?)?;
    println!(rt; "output: {}", out.inner().as_slice().escape_ascii())?;
    Ok(())
}
