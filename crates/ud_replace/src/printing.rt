//! The output of the printer of marks for a text in memory.

ghost use Rattle.std.specs.Prelude.{IfOk};
ghost use Rattle.ud_args.specs.Plans.{ForOptionsOf};
ghost use Rattle.ud_replace.specs.Marks.{PrintsMarks};

use crate::marked::Marked;
use std::alloc::{AllocError, Global};
use ud_args::Plan;
use ud_engine::{EngineOf, Watched};
use ud_text::LineStore;

/// Returns what the printer of marks prints for a text without a fault.
///
/// # Errors
/// Fails if memory runs out.
pub(crate) fn print_marked(
    alloc: Global,
    plan: &Plan,
    text: &[u8],
) -> Result<Watched<Vec<u8>>, AllocError>
    ensures { IfOk result (λ out. ForOptionsOf plan.now (λ o.
        PrintsMarks o text.now out.inner.items)) }
{
    let printer = Marked::new(plan.settings());
    let buffer = LineStore::new(alloc)?;
    let masked = LineStore::new(alloc)?;
    let mut engine = EngineOf::with_buffers(plan, printer, buffer, masked);
    let mut out = Watched::new(Vec::<u8>::new(alloc));
    let Ok(()) = engine.feed(text, &mut out) else {
        return Err(AllocError);
    };
    let Ok(_) = engine.finish(&mut out) else {
        return Err(AllocError);
    };
    Ok(out)
}
