//! What `replace` returns, which calls it makes, and what it leaves, with the arguments `-DA`.

use crate::fake::{Change, Failures, FakeDirectory};
use std::process::Abort;
use std::test::Fail;
use ud_args::plan;
use ud_engine::RunFault;
use ud_replace::{FileId, ReplaceError, Target, TextPlan, Update, replace};
use ud_sections::SectionFault;

/// A text for which the output is `OUTPUT`.
const TEXT: &[u8] = b"#ifdef A\nx\n#endif\n";

/// The output for `TEXT`.
const OUTPUT: &[u8] = b"x\n";

/// A directory without failures.
const WORKS: Failures = Failures {
    call: 0,
    and_after: false,
    denied: false,
    taken: false,
    change: Change::Nothing,
};

/// The identity of the file.
const FILE: FileId = FileId {
    device: 1,
    inode: 2,
    born: 3,
};

/// The state that `replace` leaves.
#[derive(Clone, Copy)]
struct Left {
    /// The value that was returned.
    result: Result<Update, ReplaceError>,
    /// The calls, as `FakeDirectory` has them.
    calls: &'static [u8],
    /// The file's bytes.
    file: &'static [u8],
    /// True if the fresh file is left.
    fresh: bool,
}

/// Returns what is left if the file stays, and no other one is made.
fn stays(error: ReplaceError, calls: &'static [u8]) -> Left {
    Left {
        result: Err(error),
        calls,
        file: TEXT,
        fresh: false,
    }
}

/// Returns a directory in which this call fails, or all from this one on.
fn fails(call: usize, and_after: bool) -> Failures {
    Failures {
        call,
        and_after,
        ..WORKS
    }
}

/// Returns a directory whose file another program changes.
fn changes(change: Change) -> Failures {
    Failures { change, ..WORKS }
}

/// Returns a directory that can't be written.
fn denies() -> Failures {
    Failures {
        denied: true,
        ..WORKS
    }
}

/// Replaces a file by its output, and compares what is left.
fn check(
    rt: &(impl Abort + AllocGlobal),
    text: &[u8],
    links: u64,
    write_into: bool,
    failures: Failures,
    want: Left,
) -> Result<(), Fail> {
    let alloc = rt.alloc();
    let args = [String::from_str(alloc, "-DA")?];
    let run = plan(alloc, &args).expect(rt, "the arguments have no fault");
    let plan = TextPlan {
        run,
        prunes: false,
        squeezes: false,
        marks: false,
    };
    check_plan(rt, &plan, text, links, write_into, failures, want)
}

/// Replaces a file as a plan asks, and compares what is left.
fn check_plan(
    rt: &(impl Abort + AllocGlobal),
    plan: &TextPlan,
    text: &[u8],
    links: u64,
    write_into: bool,
    failures: Failures,
    want: Left,
) -> Result<(), Fail> {
    let alloc = rt.alloc();
    let mut directory = FakeDirectory::new(alloc, text.to_vec(alloc)?, links, failures);
    let target = Target {
        name: b"file",
        id: FILE,
        fresh: b"fresh",
        write_into,
    };
    let result = replace(alloc, plan, &mut directory, &target);
    assert_eq!(rt; result, want.result);
    assert_eq!(rt; directory.calls.as_slice(), want.calls);
    assert_eq!(rt; directory.file.as_slice(), want.file);
    assert_eq!(rt; directory.fresh.is_some(), want.fresh);
    Ok(())
}

#[test]
fn only_a_text_with_another_output_is_replaced(rt: HostRuntime) -> Result<(), Fail> {
    let unchanged = Left {
        result: Ok(Update::Unchanged),
        calls: b"r",
        file: OUTPUT,
        fresh: false,
    };
    check(&rt, OUTPUT, 1, false, WORKS, unchanged)?;
    let replaced = Left {
        result: Ok(Update::Replaced),
        calls: b"rmcaagsrln",
        file: OUTPUT,
        fresh: false,
    };
    check(&rt, TEXT, 1, false, WORKS, replaced)?;
    let fault = RunFault::Section(SectionFault::InappropriateEndif { line: 1 });
    let faulty = Left {
        result: Err(ReplaceError::Text(fault)),
        calls: b"r",
        file: b"#endif\n",
        fresh: false,
    };
    check(&rt, b"#endif\n", 1, false, WORKS, faulty)
}

#[test]
fn decided_operands_go_if_conditions_are_pruned(rt: HostRuntime) -> Result<(), Fail> {
    let text = b"#if X || !A\n#endif\n";
    let unchanged = Left {
        result: Ok(Update::Unchanged),
        calls: b"r",
        file: text,
        fresh: false,
    };
    check(&rt, text, 1, false, WORKS, unchanged)?;
    let alloc = rt.alloc();
    let args = [String::from_str(alloc, "-DA")?];
    let run = plan(alloc, &args).expect(&rt, "the arguments have no fault");
    let plan = TextPlan {
        run,
        prunes: true,
        squeezes: false,
        marks: false,
    };
    let pruned = Left {
        result: Ok(Update::Replaced),
        calls: b"rmcaaaaaaaaaaaaagsrln",
        file: b"#if X\n#endif\n",
        fresh: false,
    };
    check_plan(&rt, &plan, text, 1, false, WORKS, pruned)?;
    let fault = RunFault::Section(SectionFault::InappropriateEndif { line: 3 });
    let faulty = Left {
        result: Err(ReplaceError::Text(fault)),
        calls: b"r",
        file: b"#if X || !A\n#endif\n#endif\n",
        fresh: false,
    };
    check_plan(&rt, &plan, faulty.file, 1, false, WORKS, faulty)
}

#[test]
fn a_failed_call_leaves_the_file(rt: HostRuntime) -> Result<(), Fail> {
    let cases: [(usize, ReplaceError, &'static [u8]); 10] = [
        (1, ReplaceError::Read, b"r"),
        (2, ReplaceError::ReadOnly, b"rm"),
        (3, ReplaceError::Write, b"rmc"),
        (4, ReplaceError::Write, b"rmcax"),
        (5, ReplaceError::Write, b"rmcaax"),
        (6, ReplaceError::Write, b"rmcaagx"),
        (7, ReplaceError::Write, b"rmcaagsx"),
        (8, ReplaceError::Read, b"rmcaagsrx"),
        (9, ReplaceError::ChangedMeanwhile, b"rmcaagsrlx"),
        (10, ReplaceError::NotRenamed, b"rmcaagsrlnx"),
    ];
    for &(call, error, calls) in &cases {
        check(&rt, TEXT, 1, false, fails(call, false), stays(error, calls))?;
    }
    let fresh_stays = Left {
        fresh: true,
        ..stays(ReplaceError::Write, b"rmcaax")
    };
    check(&rt, TEXT, 1, false, fails(5, true), fresh_stays)
}

#[test]
fn a_file_that_another_program_has_stays(rt: HostRuntime) -> Result<(), Fail> {
    let cases: [(Change, &'static [u8]); 3] = [
        (Change::Text, b"rmcaagsrx"),
        (Change::Mode, b"rmcaagsrx"),
        (Change::Version, b"rmcaagsrlx"),
    ];
    for &(change, calls) in &cases {
        let changed = stays(ReplaceError::ChangedMeanwhile, calls);
        check(&rt, TEXT, 1, true, changes(change), changed)?;
    }
    let taken = Failures {
        taken: true,
        ..WORKS
    };
    let locked = stays(ReplaceError::Locked, b"rmc");
    check(&rt, TEXT, 1, true, taken, locked)
}

#[test]
fn only_an_option_writes_into_a_file(rt: HostRuntime) -> Result<(), Fail> {
    let denied = stays(ReplaceError::DirectoryDenied, b"rmc");
    check(&rt, TEXT, 1, false, denies(), denied)?;
    let linked = stays(ReplaceError::SeveralLinks, b"r");
    check(&rt, TEXT, 2, false, WORKS, linked)?;
    let written = Left {
        result: Ok(Update::WrittenInto),
        calls: b"rmcrlo",
        file: OUTPUT,
        fresh: false,
    };
    check(&rt, TEXT, 1, true, denies(), written)?;
    let linked = Left {
        calls: b"rmrlo",
        ..written
    };
    check(&rt, TEXT, 2, true, WORKS, linked)?;
    let unrenamed = Left {
        calls: b"rmcaagsrlnxrlo",
        ..written
    };
    check(&rt, TEXT, 1, true, fails(10, false), unrenamed)
}

#[test]
fn old_bytes_are_written_back(rt: HostRuntime) -> Result<(), Fail> {
    let changed = stays(ReplaceError::ChangedMeanwhile, b"rmr");
    check(&rt, TEXT, 2, true, changes(Change::Text), changed)?;
    let restored = stays(ReplaceError::Write, b"rmrloo");
    check(&rt, TEXT, 2, true, fails(5, false), restored)?;
    let half_written = Left {
        file: b"#",
        ..stays(ReplaceError::HalfWritten, b"rmrloo")
    };
    check(&rt, TEXT, 2, true, fails(5, true), half_written)
}
