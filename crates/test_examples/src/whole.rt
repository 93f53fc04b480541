//! The whole tool over a text in memory.

use anyhow::Result;
use std::alloc::Global;
use unifdef::{Watched, tool};

/// Runs unifdef(1) over a text in memory. Prints the exit status, the output and the message.
pub(crate) fn strip_text(rt: &impl Print, alloc: Global) -> Result<()> {
    let text: &[u8] = b"#ifdef DEBUG\nlog();\n#endif\nrun();\n#endif\n";
    let args = [String::from_str(alloc, "-UDEBUG")?];

    let mut reader = Watched::new(text);
    let mut out = Watched::new(Vec::<u8>::new(alloc));
    let mut err = Watched::new(Vec::<u8>::new(alloc));
    let status = tool(alloc, &args, &mut reader, &mut out, &mut err);

    println!(rt; "status {status}")?;
    println!(rt; "output {}", out.inner().as_slice().escape_ascii())?;
    println!(rt; "message {}", err.inner().as_slice().escape_ascii())?;
    Ok(())
}
