//! A reader over memory that returns a few bytes a call, and may fail after them.

use std::io::{self, ErrorKind, Read};

/// A reader that returns its bytes, at most `step` a call, and then ends, or fails.
#[derive(Drop)]
pub struct Source<'a> {
    pub bytes: &'a [u8],
    pub step: usize,
    pub fails: bool,
}

impl<'a> Source<'a> {
    /// Returns a reader that returns as many bytes as are asked for, and then ends.
    pub fn whole(bytes: &'a [u8]) -> Source<'a> {
        Source {
            bytes,
            step: usize::MAX,
            fails: false,
        }
    }
}

impl Read for Source<'_> {
    fn read(&mut self, buf: &mut [u8]) -> io::Result<usize> {
        if self.bytes.is_empty() && self.fails {
            return Err(io::Error::from(ErrorKind::Other));
        }
        let count = buf.len().min(self.bytes.len()).min(self.step);
        let (given, left) = self.bytes.split_at(count);
        buf[..count].copy_from_slice(given);
        self.bytes = left;
        Ok(count)
    }
}
