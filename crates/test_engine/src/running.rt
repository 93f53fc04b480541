//! A run over a reader: its output, whether that differs from the input, and the output after a
//! failed call.

use crate::feeding::planned;
use std::process::Abort;
use std::test::Fail;
use test_streams::{CountedSink, CountedSource};
use unifdef::{RunFault, Watched, run};

/// Compares the bytes written. Nothing is flushed.
fn check_left(rt: &impl Abort, args: &str, sink: &CountedSink, written: &[u8]) {
    assert_eq!(rt; sink.sink.taken.as_slice(), written, "under {args}");
    assert_eq!(rt; sink.flushes, 0);
}

/// Runs over this source, and compares the result and the bytes written. Nothing is flushed.
///
/// `failing_write` is the number of the write that fails; 0 if none does.
fn check_run(
    rt: &(impl Abort + AllocGlobal),
    args: &str,
    source: CountedSource<'_>,
    failing_write: usize,
    answer: Result<bool, RunFault>,
    written: &[u8],
) -> Result<(), Fail> {
    let plan = planned(rt, rt.alloc(), args)?;
    let mut reader = Watched::new(source);
    let mut sink = CountedSink::of(rt.alloc(), usize::MAX);
    sink.interrupted = failing_write;
    let mut out = Watched::new(sink);
    assert!(rt; run(&plan, &mut reader, &mut out) == answer, "under {args}");
    check_left(rt, args, out.inner(), written);
    Ok(())
}

/// Arguments, a text, and the output for it.
#[rattlefmt::skip]
const LEFT: &[(&str, &[u8], &[u8])] = &[
    ("-DA", b"", b""),
    ("-DA", b"x\ny", b"x\ny"),
    ("-DA", b"#ifdef A\nx\n#else\ny\n#endif\n", b"x\n"),
    ("-x1 -DA", b"#ifdef X\nx\n#endif", b"#ifdef X\nx\n#endif"),
    ("-x2 -UA", b"#if A\n1\n#elif X\n2\n#endif\n", b"#if   X\n2\n#endif\n"),
    ("-DA", b"#if X\n#elif A\n#else\n#endif\n", b"#if X\n#else\n#endif\n"),
    ("-b -UA", b"#ifdef A\n#endif\n", b"\n\n"),
    ("-b -UX", b"\n\n", b"\n\n"),
    ("-c -UA", b"", b""),
    ("-c -UA", b"x\n", b""),
    ("-c -UA", b"#ifdef A\nx\n#endif\n", b"#ifdef A\nx\n#endif\n"),
    ("-k", b"#if 1\nx\n#endif\n", b"x\n"),
    ("-iDA", b"#ifdef A\n/*\n#endif\nx\n", b"/*\nx\n"),
    ("-t -DA", b"/*\n#ifdef X\n#endif", b"/*\n#ifdef X\n#endif"),
];

/// Runs over each text, read at once and byte by byte.
fn check_runs(rt: &(impl Abort + AllocGlobal), rows: &[(&str, &[u8], &[u8])]) -> Result<(), Fail> {
    for &(args, text, output) in rows {
        for step in [usize::MAX, 1] {
            let source = CountedSource::of(text, step);
            check_run(rt, args, source, 0, Ok(output != text), output)?;
        }
    }
    Ok(())
}

#[test]
fn a_run_reports_whether_the_output_is_other_bytes(rt: HostRuntime) -> Result<(), Fail> {
    check_runs(&rt, LEFT)
}

#[test]
fn a_run_under_a_listing_differs_from_nothing(rt: HostRuntime) -> Result<(), Fail> {
    let input = b"#ifdef A\nx\n#else\ny\n#endif\n";
    let source = CountedSource::of(input, usize::MAX);
    check_run(&rt, "-s -DA", source, 0, Ok(false), b"A\n")
}

#[test]
fn a_run_flushes_nothing_and_reports_what_failed(rt: HostRuntime) -> Result<(), Fail> {
    let input = b"#ifdef A\nx\n#else\ny\n#endif\n";
    let mut source = CountedSource::of(input, 12);
    source.interrupted = 2;
    check_run(&rt, "-DA", source, 0, Err(RunFault::Read), b"x\n")?;
    let source = CountedSource::of(input, usize::MAX);
    check_run(&rt, "-DA", source, 1, Err(RunFault::Write), b"")
}
