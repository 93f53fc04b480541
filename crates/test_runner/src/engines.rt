//! An engine that is fed after a failed write.

use std::alloc::Global;
use test_streams::Sink;
use ud_sections::Printer;
use unifdef::{Engine, Plan, RunFault, Watched};

/// Returns whether an engine whose write has failed is fused: every further call fails alike and
/// writes nothing, also with an output that works.
pub(crate) fn is_fused(alloc: Global, plan: &Plan, text: &[u8], room: usize) -> bool {
    let mut engine = Engine::new(plan, Printer::of(&plan.settings()));
    let mut out = Watched::new(Sink {
        room,
        ..Sink::wide(alloc)
    });
    if engine.feed(text, &mut out) != Err(RunFault::Write) {
        return true;
    }
    let mut other = Watched::new(Vec::<u8>::new(alloc));
    if engine.feed(b"y\n", &mut out) != Err(RunFault::Write) {
        return false;
    }
    if engine.feed(b"#endif\n", &mut other) != Err(RunFault::Write) {
        return false;
    }
    let ended = engine.finish(&mut other);
    ended == Err(RunFault::Write) && other.inner().is_empty() && out.inner().taken.len() == room
}
