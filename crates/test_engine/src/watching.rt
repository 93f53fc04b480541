//! Watched readers and writers: each call is made once, and a failure is remembered. The library
//! doesn't model calls of a reader or a writer, so no clause can count them.

use std::alloc::Global;
use std::process::Abort;
use std::test::Fail;
use test_streams::{CountedSink, CountedSource};
use unifdef::Watched;

/// Compares the number of calls, and whether one failed.
fn check(rt: &impl Abort, calls: usize, failed: bool, made: usize, fails: bool) {
    assert_eq!(rt; calls, made);
    assert_eq!(rt; failed, fails);
}

/// Returns a writer that accepts 2 bytes a call. The write of number `failing_write` is
/// interrupted, and the first flush too, if `flush_fails`.
fn writer(alloc: Global, failing_write: usize, flush_fails: bool) -> Watched<CountedSink> {
    let mut sink = CountedSink::of(alloc, 2);
    sink.interrupted = failing_write;
    sink.first_flush_fails = flush_fails;
    Watched::new(sink)
}

#[test]
fn a_watched_reader_is_called_once_a_call(rt: HostRuntime) -> Result<(), Fail> {
    let mut source = CountedSource::of(b"abc", 2);
    source.interrupted = 3;
    let mut reader = Watched::new(source);
    let mut buffer = [0u8; 8];
    check(&rt, reader.inner().reads, reader.failed(), 0, false);
    for (reads, count) in [(1, Some(2)), (2, Some(1)), (3, None)] {
        assert!(rt; !reader.failed());
        assert!(rt; reader.read(&mut buffer) == count);
        check(
            &rt,
            reader.inner().reads,
            reader.failed(),
            reads,
            count.is_none(),
        );
    }
    Ok(())
}

#[test]
fn a_watched_writer_is_called_once_a_call(rt: HostRuntime) -> Result<(), Fail> {
    let mut writer = writer(rt.alloc(), 2, false);
    check(&rt, writer.inner().writes, writer.failed(), 0, false);
    for (writes, bytes, count) in [(1, b"abc".as_slice(), Some(2)), (2, b"c", None)] {
        assert!(rt; !writer.failed());
        assert!(rt; writer.write(bytes) == count);
        check(
            &rt,
            writer.inner().writes,
            writer.failed(),
            writes,
            count.is_none(),
        );
    }
    assert!(rt; writer.flush());
    check(&rt, writer.inner().flushes, writer.failed(), 1, true);
    Ok(())
}

#[test]
fn a_watched_flush_is_called_once_a_call(rt: HostRuntime) -> Result<(), Fail> {
    let mut writer = writer(rt.alloc(), 0, true);
    check(&rt, writer.inner().flushes, writer.failed(), 0, false);
    for (flushes, works) in [(1, false), (2, true)] {
        assert!(rt; writer.flush() == works);
        check(&rt, writer.inner().flushes, writer.failed(), flushes, true);
    }
    Ok(())
}
