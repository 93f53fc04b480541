//! A writer over memory that accepts a few bytes a call, and may run out of capacity.

use std::alloc::Global;
use std::io::{self, ErrorKind, Write};

/// A writer that accepts `room` bytes in all, at most `step` a call. Then it accepts none, or
/// fails. Its flush may fail.
#[derive(Drop)]
pub struct Sink {
    pub taken: Vec<u8>,
    pub room: usize,
    pub step: usize,
    /// True if a write fails once `room` is used up; else it accepts 0 bytes.
    pub refuses: bool,
    pub flush_fails: bool,
}

impl Sink {
    /// Returns a writer that accepts all bytes, any number in a call.
    pub fn wide(alloc: Global) -> Sink {
        Sink {
            taken: Vec::new(alloc),
            room: usize::MAX,
            step: usize::MAX,
            refuses: true,
            flush_fails: false,
        }
    }
}

impl Write for Sink {
    fn write(&mut self, buf: &[u8]) -> io::Result<usize> {
        let count = buf.len().min(self.room).min(self.step);
        if count == 0 && self.refuses {
            return Err(io::Error::from(ErrorKind::Other));
        }
        if self.taken.extend_from_slice(&buf[..count]).is_err() {
            return Err(io::Error::from(ErrorKind::OutOfMemory));
        }
        self.room -= count;
        Ok(count)
    }

    fn flush(&mut self) -> io::Result<()> {
        if self.flush_fails {
            return Err(io::Error::from(ErrorKind::Other));
        }
        Ok(())
    }
}
