//! Buffered output, for fewer writes.
//!
//! The writer records a failed write, and what is appended later is dropped. So appending never
//! fails, and a caller asks the writer once, at the end of a chunk.
//!
//! Output leaves at the latest when `feed` ends, so no line waits for later ones. Rejected: a write
//! for each line; waiting until the buffer is full, which makes the output of a slow pipe late.

ghost use Rattle.std.specs.Prelude.{◌≡◌, []};
ghost use Rattle.std.specs.List.{flat_map};
ghost use Rattle.ud_io.specs.Streams.{Accepts};

use crate::output_buffer::OutputBuffer;
use std::io::Write;
use std::marker::Model;
use ud_io::{Watched, send};

/// The pending output: bytes accepted but not yet written.
#[derive(Drop)]
pub(crate) struct Output {
    buffered: OutputBuffer,
}

impl Model for Output {
    ghost use Rattle.std.specs.Prelude.{List, ℕ};

    ghost Value = { List ℕ };

    ghost view = { λ o. o.buffered };
}

impl Output {
    /// Returns an empty output.
    pub(crate) fn new() -> Output
        ensures { result ≡ [] }
    {
        Output {
            buffered: OutputBuffer::new(),
        }
    }

    /// Appends `bytes` to the buffer. Writes what doesn't fit.
    #[inline(always)]
    pub(crate) fn append<W: Write>(&mut self, bytes: &[u8], out: &mut Watched<W>)
        ensures { Accepts W.contents self.old self.new out.old out.new bytes.now }
    {
        if bytes.is_empty() || self.buffered.try_append(bytes) {
            return;
        }
        self.append_after_flush(bytes, out);
    }

    /// Writes all buffered bytes, then appends `bytes`.
    #[tactic(auto, using(ud_io::proofs::StreamLemmas::takes_after_flush))]
    fn append_after_flush<W: Write>(&mut self, bytes: &[u8], out: &mut Watched<W>)
        ensures { Accepts W.contents self.old self.new out.old out.new bytes.now }
    {
        self.flush(out);
        if self.buffered.try_append(bytes) {
            return;
        }
        send(out, bytes);
    }

    /// Appends `parts` in turn.
    pub(crate) fn append_parts<W: Write>(&mut self, parts: &[&[u8]], out: &mut Watched<W>)
        ensures { Accepts W.contents self.old self.new out.old out.new
            (flat_map (λ p. p.now) parts.now) }
    {
        for part in parts {
            self.append(part, out);
        }
    }

    /// Writes all buffered bytes, and empties the buffer.
    pub(crate) fn flush<W: Write>(&mut self, out: &mut Watched<W>)
        ensures takes { Accepts W.contents self.old self.new out.old out.new [] }
        ensures empty { self.new ≡ [] }
    {
        send(out, self.buffered.as_slice());
        self.buffered.clear();
    }

    /// Writes all buffered bytes and `bytes`, and empties the buffer. If nothing is buffered,
    /// `bytes` isn't copied.
    pub(crate) fn flush_with<W: Write>(&mut self, bytes: &[u8], out: &mut Watched<W>)
        ensures takes { Accepts W.contents self.old self.new out.old out.new bytes.now }
        ensures empty { self.new ≡ [] }
    {
        if self.buffered.is_empty() {
            return send(out, bytes);
        }
        self.append(bytes, out);
        self.flush(out);
    }
}
