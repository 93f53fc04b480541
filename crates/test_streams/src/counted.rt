//! A reader and a writer over memory that count their calls, one of which may be interrupted.

use crate::sink::Sink;
use crate::source::Source;
use std::alloc::Global;
use std::io::{self, ErrorKind, Read, Write};

/// A reader of its source's bytes, one of whose calls may be interrupted. The calls after that one
/// work.
#[derive(Drop)]
pub struct CountedSource<'a> {
    pub source: Source<'a>,
    /// The number of calls of `read`.
    pub reads: usize,
    /// The number of the call that is interrupted, counted from 1; 0 if none is.
    pub interrupted: usize,
}

impl<'a> CountedSource<'a> {
    /// Returns a reader of `bytes`, at most `step` a call, none of whose calls is interrupted.
    pub fn of(bytes: &'a [u8], step: usize) -> CountedSource<'a> {
        let source = Source {
            step,
            ..Source::whole(bytes)
        };
        CountedSource {
            source,
            reads: 0,
            interrupted: 0,
        }
    }
}

impl Read for CountedSource<'_> {
    fn read(&mut self, buf: &mut [u8]) -> io::Result<usize> {
        self.reads = self.reads.saturating_add(1);
        if self.reads == self.interrupted {
            return Err(io::Error::from(ErrorKind::Interrupted));
        }
        self.source.read(buf)
    }
}

/// A writer to its sink, some of whose calls may be interrupted. The calls after those work.
#[derive(Drop)]
pub struct CountedSink {
    pub sink: Sink,
    /// The number of calls of `write`.
    pub writes: usize,
    /// The number of calls of `flush`.
    pub flushes: usize,
    /// The number of the write that is interrupted, counted from 1; 0 if none is.
    pub interrupted: usize,
    /// True if the first flush is interrupted.
    pub first_flush_fails: bool,
}

impl CountedSink {
    /// Returns a writer that accepts all bytes, at most `step` a call, and none of whose calls is
    /// interrupted.
    pub fn of(alloc: Global, step: usize) -> CountedSink {
        let sink = Sink {
            step,
            ..Sink::wide(alloc)
        };
        CountedSink {
            sink,
            writes: 0,
            flushes: 0,
            interrupted: 0,
            first_flush_fails: false,
        }
    }
}

impl Write for CountedSink {
    fn write(&mut self, buf: &[u8]) -> io::Result<usize> {
        self.writes = self.writes.saturating_add(1);
        if self.writes == self.interrupted {
            return Err(io::Error::from(ErrorKind::Interrupted));
        }
        self.sink.write(buf)
    }

    fn flush(&mut self) -> io::Result<()> {
        self.flushes = self.flushes.saturating_add(1);
        if self.flushes == 1 && self.first_flush_fails {
            return Err(io::Error::from(ErrorKind::Interrupted));
        }
        self.sink.flush()
    }
}
