//! An engine that is fed chunk by chunk, compared with its expected results and output.

use std::alloc::Global;
use std::process::Abort;
use std::test::Fail;
use test_streams::{CountedSink, parted};
use ud_sections::{Printer, Show};
use unifdef::{Engine, Plan, RunFault, Watched, plan};

/// A chunk of a text, the result of feeding it, and the bytes and the number of writes up to then.
#[derive(Clone, Copy)]
pub(crate) struct Fed<'a> {
    pub chunk: &'a [u8],
    pub answer: Result<(), RunFault>,
    pub written: &'a [u8],
    pub writes: usize,
}

/// The result of an engine at the end, and the bytes and the number of writes up to then.
#[derive(Clone, Copy)]
pub(crate) struct Ended<'a> {
    pub answer: Result<bool, RunFault>,
    pub written: &'a [u8],
    pub writes: usize,
}

/// Returns the plan of these arguments, which are separated by spaces and have no fault.
pub(crate) fn planned(rt: &impl Abort, alloc: Global, args: &str) -> Result<Plan, Fail> {
    let owned = parted(alloc, args)?;
    Ok(plan(alloc, owned.as_slice()).expect(rt, "the words have no fault"))
}

/// Feeds these chunks in turn to an engine that prints by `show`, and ends it.
pub(crate) fn check_by<S: Show>(
    rt: &impl Abort,
    alloc: Global,
    plan: &Plan,
    show: S,
    chunks: &[Fed<'_>],
    ended: Ended<'_>,
) {
    let mut engine = Engine::new(plan, show);
    let mut out = Watched::new(CountedSink::of(alloc, usize::MAX));
    for fed in chunks {
        assert!(rt; !out.failed());
        assert!(rt; engine.feed(fed.chunk, &mut out) == fed.answer);
        check_written(rt, out.inner(), fed.written, fed.writes);
    }
    assert!(rt; !out.failed());
    assert!(rt; engine.finish(&mut out) == ended.answer);
    check_written(rt, out.inner(), ended.written, ended.writes);
}

/// Feeds these chunks in turn to an engine that prints as the arguments say, and ends it.
pub(crate) fn check(
    rt: &(impl Abort + AllocGlobal),
    args: &str,
    chunks: &[Fed<'_>],
    ended: Ended<'_>,
) -> Result<(), Fail> {
    let plan = planned(rt, rt.alloc(), args)?;
    let printer = Printer::of(&plan.settings());
    check_by(rt, rt.alloc(), &plan, printer, chunks, ended);
    Ok(())
}

/// Compares the bytes written, and the number of writes.
pub(crate) fn check_written(rt: &impl Abort, sink: &CountedSink, written: &[u8], writes: usize) {
    assert_eq!(rt; sink.sink.taken.as_slice(), written);
    assert_eq!(rt; sink.writes, writes);
}
