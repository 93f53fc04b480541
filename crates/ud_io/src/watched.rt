//! Readers and writers that record a failure.
//!
//! A recorded failure stays, so that a run can decide at its end whether every byte was read and
//! written. Failed calls aren't repeated automatically, not even interrupted ones.

ghost use Rattle.std.specs.Prelude.{◌≡◌, true, false, is_none, not, if◌then◌else◌};
ghost use Rattle.std.specs.Io.KnownBytes.{Keeps};
ghost use Rattle.ud_io.specs.Watched.{ReadsOnce, WritesOnce};

use std::io::{Read, Write};
use std::marker::Model;

/// A reader or a writer that records whether a call has failed.
#[derive(Drop)]
pub struct Watched<T> {
    /// The wrapped reader or writer.
    inner: T,
    /// A call has failed. Once true, it stays true.
    failed: bool,
    /// A write was tried since the last successful flush.
    unflushed: bool,
}

impl<T> Model for Watched<T> {
    ghost use Rattle.ud_io.specs.Watched.{WatchedState};

    ghost Value = { WatchedState T };

    ghost view = { λ w. record {
      inner = w.inner;
      failed = w.failed;
      unflushed = w.unflushed;
    } };
}

impl<T> Watched<T> {
    /// Wraps a reader or a writer with no failure recorded.
    pub fn new(inner: T) -> Watched<T>
        ensures inner { result.inner ≡ inner }
        ensures failed { result.failed ≡ false }
        ensures unflushed { result.unflushed ≡ false }
    {
        Watched {
            inner,
            failed: false,
            unflushed: false,
        }
    }

    /// Returns the wrapped reader or writer, and ends the record.
    pub fn into_inner(self) -> T
        ensures { result ≡ self.inner }
    {
        self.inner
    }

    /// Returns the wrapped reader or writer.
    pub fn inner(&self) -> &T
        ensures { result.now ≡ self.now.inner }
    {
        &self.inner
    }

    /// Returns whether a call has failed.
    pub fn failed(&self) -> bool
        ensures { result ≡ self.now.failed }
    {
        self.failed
    }

    /// Returns whether a write was tried since the last successful flush.
    pub fn unflushed(&self) -> bool
        ensures { result ≡ self.now.unflushed }
    {
        self.unflushed
    }
}

impl<R: Read> Watched<R> {
    /// Reads once, up to `buf.len()` bytes, which may be 0.
    ///
    /// Returns how many bytes of `buf` were filled: 0 at the end of the input, or if `buf` is
    /// empty.
    ///
    /// # Errors
    /// `None` if the read fails, even by an interruption. Nothing was read, `buf` may have changed,
    /// and the reader is fused.
    pub fn read(&mut self, buf: &mut [u8]) -> Option<usize>
        requires not_failed { self.old.failed ≡ false }
        ensures once { ReadsOnce (R.remaining self.old.inner) (R.remaining self.new.inner) result
            buf.new }
        ensures failed { self.new.failed ≡ is_none result }
        ensures unflushed { self.new.unflushed ≡ self.old.unflushed }
    {
        match self.inner.read(buf) {
            Ok(count) => Some(count),
            Err(_) => {
                self.failed = true;
                None
            }
        }
    }
}

impl<W: Write> Watched<W> {
    /// Writes a prefix of `bytes` with one call of the writer, even if `bytes` is empty.
    ///
    /// Returns the length of that prefix, 0 only if `bytes` is empty.
    ///
    /// # Errors
    /// `None` if the write fails, even by an interruption, or if the writer takes no byte of a
    /// nonempty `bytes`. Nothing was written, and the writer is fused.
    pub fn write(&mut self, bytes: &[u8]) -> Option<usize>
        requires not_failed { self.old.failed ≡ false }
        ensures once { WritesOnce (W.contents self.old.inner) (W.contents self.new.inner) result
            bytes.now }
        ensures failed { self.new.failed ≡ is_none result }
        ensures unflushed { self.new.unflushed ≡ true }
    {
        self.unflushed = true;
        match self.inner.write(bytes) {
            Ok(count) if count > 0 || bytes.is_empty() => Some(count),
            _ => {
                self.failed = true;
                None
            }
        }
    }

    /// Flushes once, even if the writer has failed. What was written stays written.
    ///
    /// # Errors
    /// `false` if the flush fails, even by an interruption. The writer is then fused.
    pub fn flush(&mut self) -> bool
        ensures unchanged { Keeps (W.contents self.old.inner) (W.contents self.new.inner) }
        ensures failed { self.old.failed ≡ false → self.new.failed ≡ not result }
        ensures fused { self.old.failed ≡ true → self.new.failed ≡ true }
        ensures flushed { self.new.unflushed ≡ if result then false else self.old.unflushed }
    {
        match self.inner.flush() {
            Ok(()) => {
                self.unflushed = false;
                true
            }
            Err(_) => {
                self.failed = true;
                false
            }
        }
    }
}
