//! The engine fed chunk by chunk: when the output is written, in how many writes, and the results.

use crate::feeding::{Ended, Fed, check, check_by, check_written, planned};
use std::alloc::Global;
use std::process::Abort;
use std::test::Fail;
use test_streams::{CountedSink, Sink, repeated};
use ud_sections::{Blank, Complement, Delete, Printer, SectionFault};
use ud_text::TextFault;
use unifdef::{Engine, Plan, RunFault, Watched};

/// Returns a chunk without a fault, with the bytes and the number of writes up to its end.
fn sound<'a>(chunk: &'a [u8], written: &'a [u8], writes: usize) -> Fed<'a> {
    Fed {
        chunk,
        answer: Ok(()),
        written,
        writes,
    }
}

/// Returns the end of an engine without a fault, with the bytes and the number of writes up to
/// then.
fn ended(differs: bool, written: &[u8], writes: usize) -> Ended<'_> {
    Ended {
        answer: Ok(differs),
        written,
        writes,
    }
}

#[test]
fn a_line_is_written_once_it_has_ended(rt: HostRuntime) -> Result<(), Fail> {
    let input = b"#ifdef A\nx\n#else\ny\n#endif\n";
    let mut chunks = Vec::new(rt.alloc());
    for at in 0..input.len() {
        let byte = &input[at..at + 1];
        chunks.push(if at < 10 {
            sound(byte, b"", 0)
        } else {
            sound(byte, b"x\n", 1)
        })?;
    }
    check(&rt, "-DA", chunks.as_slice(), ended(true, b"x\n", 1))
}

/// Arguments, a chunk, the output for it, and the result at the end.
#[rattlefmt::skip]
const CHUNKS: &[(&str, &[u8], &[u8], Result<bool, RunFault>)] = &[
    // Lines that stay, adjacent and apart.
    ("-DA", b"a\nb\n#ifdef A\nc\n#endif\nd\n", b"a\nb\nc\nd\n", Ok(true)),
    // A line with another keyword.
    ("-UA", b"a\n#if A\n#elif X\nb\n#endif\n", b"a\n#if   X\nb\n#endif\n", Ok(true)),
    ("-DA", b"#if X\n#elif A\n#else\nb\n#endif\nc\n", b"#if X\n#else\n#endif\nc\n", Ok(true)),
    // Parts around a line, and in place of one.
    ("-n -UA", b"#ifdef A\nx\n#endif\ny\nz\n", b"#line 4\ny\nz\n", Ok(true)),
    ("-b -UA", b"#ifdef A\r\nx\n#endif\ny\n", b"\r\n\n\ny\n", Ok(true)),
    ("-c -UA", b"#ifdef A\nx\n#endif\ny\n", b"#ifdef A\nx\n#endif\n", Ok(true)),
    // Names.
    ("-S", b"#if A && defined(B)\n#ifdef C\n#endif\n", b"0 A\n0 B\n1 C\n", Err(IN_SECTION)),
];

/// The fault of a text of three lines that ends in the section of its first line.
const IN_SECTION: RunFault = RunFault::Section(SectionFault::PrematureEof {
    line: 3,
    if_line: 1,
});

#[test]
fn a_chunk_leaves_in_one_write(rt: HostRuntime) -> Result<(), Fail> {
    for &(args, chunk, written, answer) in CHUNKS {
        let ended = Ended {
            answer,
            written,
            writes: 1,
        };
        check(&rt, args, &[sound(chunk, written, 1)], ended)?;
    }
    Ok(())
}

#[test]
fn a_line_over_chunks_leaves_with_its_last_chunk(rt: HostRuntime) -> Result<(), Fail> {
    let chunks = [
        sound(b"a\nb", b"a\n", 1),
        sound(b"", b"a\n", 1),
        sound(b"c\nd\ne", b"a\nbc\nd\n", 2),
    ];
    check(&rt, "-DA", &chunks, ended(false, b"a\nbc\nd\ne", 3))
}

#[test]
fn a_last_line_without_a_newline_is_written_at_the_end(rt: HostRuntime) -> Result<(), Fail> {
    let chunks = [
        sound(b"", b"", 0),
        sound(b"a\nb", b"a\n", 1),
        sound(b"", b"a\n", 1),
        sound(b"c", b"a\n", 1),
    ];
    check(&rt, "-DA", &chunks, ended(false, b"a\nbc", 2))
}

#[test]
fn nothing_left_makes_no_write(rt: HostRuntime) -> Result<(), Fail> {
    check(&rt, "-DA", &[], ended(false, b"", 0))?;
    let removed = sound(b"#ifdef A\nx\n#endif\n", b"", 0);
    check(&rt, "-UA", &[removed], ended(true, b"", 0))
}

/// Returns a chunk that fails, with the bytes written up to then, in one write.
fn refused<'a>(chunk: &'a [u8], fault: RunFault, written: &'a [u8]) -> Fed<'a> {
    Fed {
        chunk,
        answer: Err(fault),
        written,
        writes: 1,
    }
}

/// Feeds this text in one chunk, which fails. Further chunks fail in the same way, and nothing more
/// is written.
fn check_refusal(
    rt: &(impl Abort + AllocGlobal),
    text: &[u8],
    written: &[u8],
    fault: RunFault,
) -> Result<(), Fail> {
    let chunks = [
        refused(text, fault, written),
        refused(b"y\n", fault, written),
        refused(b"", fault, written),
        refused(b"#ifdef A\n", fault, written),
    ];
    let ended = Ended {
        answer: Err(fault),
        written,
        writes: 1,
    };
    check(rt, "-DA", &chunks, ended)
}

#[test]
fn a_faulty_line_fuses(rt: HostRuntime) -> Result<(), Fail> {
    let out_of_place = RunFault::Section(SectionFault::InappropriateEndif { line: 2 });
    check_refusal(&rt, b"x\n#endif\n", b"x\n", out_of_place)?;
    check_refusal(&rt, b"x\n#endif\nz\n", b"x\n", out_of_place)?;
    let mut long = repeated(rt.alloc(), b"#ifdef A\nx\n", 1)?;
    long.extend_from_slice(repeated(rt.alloc(), b"a", 65_537)?.as_slice())?;
    let too_long = RunFault::Text(TextFault::LineTooLong { line: 3 });
    check_refusal(&rt, long.as_slice(), b"x\n", too_long)
}

#[test]
fn the_end_may_be_faulty(rt: HostRuntime) -> Result<(), Fail> {
    let in_section = SectionFault::PrematureEof {
        line: 3,
        if_line: 2,
    };
    let in_comment = SectionFault::EofInComment { line: 3 };
    let out_of_place = SectionFault::InappropriateElse { line: 2 };
    let cases: [(&[u8], &[u8], usize, SectionFault); 3] = [
        (b"a\n#ifdef A\nx", b"a\nx", 2, in_section),
        (b"a\n#ifdef A\n/*", b"a\n/*", 2, in_comment),
        (b"a\n#else", b"a\n", 1, out_of_place),
    ];
    for &(chunk, written, writes, fault) in &cases {
        let ended = Ended {
            answer: Err(RunFault::Section(fault)),
            written,
            writes,
        };
        check(&rt, "-DA", &[sound(chunk, b"a\n", 1)], ended)?;
    }
    Ok(())
}

#[test]
fn an_engine_prints_by_the_printer_that_it_was_given(rt: HostRuntime) -> Result<(), Fail> {
    let alloc = rt.alloc();
    let plan = planned(&rt, alloc, "-UA -n")?;
    let text = b"#ifdef A\nx\n#endif\ny\n";
    let blanked = b"\n\n\ny\n";
    let chunks = [sound(text, blanked, 1)];
    check_by(
        &rt,
        alloc,
        &plan,
        Blank::new(),
        &chunks,
        ended(true, blanked, 1),
    );
    let gone = b"#ifdef A\nx\n#endif\n";
    let chunks = [sound(text, gone, 1)];
    let complement = Complement::new(Delete::new());
    check_by(&rt, alloc, &plan, complement, &chunks, ended(true, gone, 1));
    Ok(())
}

#[test]
fn names_are_listed_whatever_the_printer(rt: HostRuntime) -> Result<(), Fail> {
    let alloc = rt.alloc();
    let plan = planned(&rt, alloc, "-s -b")?;
    let chunks = [sound(b"x\n#ifdef A\n#elif B\n#endif\n", b"A\nB\n", 1)];
    let ended = ended(false, b"A\nB\n", 1);
    check_by(&rt, alloc, &plan, Blank::new(), &chunks, ended);
    Ok(())
}

/// Returns an output that accepts 4 bytes. A further write fails, or accepts nothing.
fn narrow(alloc: Global, refuses: bool) -> CountedSink {
    CountedSink {
        sink: Sink {
            room: 4,
            refuses,
            ..Sink::wide(alloc)
        },
        ..CountedSink::of(alloc, usize::MAX)
    }
}

/// Feeds an engine two lines, of which this output accepts one and a part. Further chunks fail in
/// the same way.
fn check_failing(rt: &impl Abort, plan: &Plan, sink: CountedSink) {
    let mut engine = Engine::new(plan, Printer::of(&plan.settings()));
    let mut out = Watched::new(sink);
    assert!(rt; engine.feed(b"ab\ncd\n", &mut out) == Err(RunFault::Write));
    check_written(rt, out.inner(), b"ab\nc", 2);
    assert!(rt; engine.feed(b"ef\n", &mut out) == Err(RunFault::Write));
    assert!(rt; engine.finish(&mut out) == Err(RunFault::Write));
    check_written(rt, out.inner(), b"ab\nc", 2);
}

#[test]
fn nothing_is_written_after_a_failed_write(rt: HostRuntime) -> Result<(), Fail> {
    let plan = planned(&rt, rt.alloc(), "-DA")?;
    check_failing(&rt, &plan, narrow(rt.alloc(), true));
    check_failing(&rt, &plan, narrow(rt.alloc(), false));
    Ok(())
}
