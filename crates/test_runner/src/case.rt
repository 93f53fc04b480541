//! A case: arguments, an input, how the streams behave, and the outcome that must follow.

use crate::outcome::Outcome;
use std::alloc::Global;
use test_reference::Answer;
use test_streams::{CountedSink, CountedSource, Sink, Source};

/// How a reader and a writer behave.
#[derive(Clone, Copy)]
pub(crate) struct Behavior {
    /// The most bytes of one read.
    pub read_step: usize,
    /// The number of input bytes after which a read fails.
    pub read_fails_after: Option<usize>,
    /// The number of the read that is interrupted, counted from 1; 0 if none is.
    pub interrupted_read: usize,
    /// The most bytes of one write.
    pub write_step: usize,
    /// The most bytes of all writes.
    pub room: usize,
    /// True if a write fails once `room` is used up; else it accepts 0 bytes.
    pub refuses: bool,
    /// The number of the write that is interrupted, counted from 1; 0 if none is.
    pub interrupted_write: usize,
    /// True if each flush fails.
    pub flush_fails: bool,
    /// True if the first flush is interrupted.
    pub first_flush_fails: bool,
}

impl Behavior {
    /// Streams that read and write any number of bytes in a call, and don't fail.
    pub(crate) const PLAIN: Behavior = Behavior {
        read_step: usize::MAX,
        read_fails_after: None,
        interrupted_read: 0,
        write_step: usize::MAX,
        room: usize::MAX,
        refuses: true,
        interrupted_write: 0,
        flush_fails: false,
        first_flush_fails: false,
    };

    /// Returns streams that read at most `step` bytes in a call.
    pub(crate) fn reading(step: usize) -> Behavior {
        Behavior {
            read_step: step,
            ..Behavior::PLAIN
        }
    }

    /// Returns a reader of this input that behaves so.
    pub(crate) fn source(self, input: &[u8]) -> CountedSource<'_> {
        let given = self
            .read_fails_after
            .unwrap_or(input.len())
            .min(input.len());
        CountedSource {
            source: Source {
                bytes: &input[..given],
                step: self.read_step,
                fails: self.read_fails_after.is_some(),
            },
            reads: 0,
            interrupted: self.interrupted_read,
        }
    }

    /// Returns a writer that behaves so.
    pub(crate) fn sink(self, alloc: Global) -> CountedSink {
        CountedSink {
            sink: Sink {
                taken: Vec::new(alloc),
                room: self.room,
                step: self.write_step,
                refuses: self.refuses,
                flush_fails: self.flush_fails,
            },
            writes: 0,
            flushes: 0,
            interrupted: self.interrupted_write,
            first_flush_fails: self.first_flush_fails,
        }
    }
}

/// The further runs that a case asks for.
#[derive(Clone, Copy)]
pub(crate) struct Tries {
    /// Each prefix of the input, in two reads that are cut at each place.
    pub cuts: bool,
    /// Each read, each write and the flush fail in turn.
    pub failures: bool,
    /// The output is the input of a second run, which copies it.
    pub again: bool,
}

/// A case, as its file states it.
#[derive(Drop)]
pub(crate) struct Case {
    pub args: Vec<String>,
    pub input: Vec<u8>,
    /// How the streams behave, if the file says so.
    pub behavior: Option<Behavior>,
    pub expected: Outcome,
    pub tries: Tries,
}

impl Case {
    /// Returns a case without arguments, input and output, and with status 0.
    pub(crate) fn empty(alloc: Global) -> Case {
        let answer = Answer {
            output: Vec::new(alloc),
            message: Vec::new(alloc),
            status: 0,
        };
        Case {
            args: Vec::new(alloc),
            input: Vec::new(alloc),
            behavior: None,
            expected: Outcome::of(answer),
            tries: Tries {
                cuts: false,
                failures: false,
                again: false,
            },
        }
    }
}
