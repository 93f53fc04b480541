//! A buffer for bytes, of a fixed capacity.

ghost use Rattle.std.specs.Prelude.{◌≡◌, ◌+◌, ◌≤◌, ◌++◌, [], take, true, false};

use std::marker::Model;

/// The capacity of the buffer. The output for a chunk of `run` usually leaves in one write.
pub(crate) const OUTPUT_BUFFER_BYTES: usize = 8_192;

/// A buffer of at most `OUTPUT_BUFFER_BYTES` bytes. Clearing it leaves the array unchanged.
#[derive(Drop)]
pub(crate) struct OutputBuffer {
    /// The first `len` bytes are buffered.
    array: [u8; OUTPUT_BUFFER_BYTES],
    len: usize,
}

impl Model for OutputBuffer {
    ghost use Rattle.std.specs.Prelude.{List, ℕ, ◌≤◌, take};
    ghost use Rattle.ud_engine.specs.declared.output_buffer.TheConstants.{OUTPUT_BUFFER_BYTES};

    ghost Value = { List ℕ };

    ghost view = { λ g. take g.len g.array };

    ghost invariant = { λ g. g.len ≤ OUTPUT_BUFFER_BYTES };
}

impl OutputBuffer {
    /// Returns an empty buffer.
    pub(crate) fn new() -> OutputBuffer
        ensures { result ≡ [] }
    {
        OutputBuffer {
            array: [0; OUTPUT_BUFFER_BYTES],
            len: 0,
        }
    }

    /// Appends `bytes` if all of them fit. Returns whether they do.
    pub(crate) fn try_append(&mut self, bytes: &[u8]) -> bool
        ensures put { result ≡ true → self.new ≡ self.old ++ bytes.now }
        ensures full { result ≡ false → self.new ≡ self.old }
    {
        if bytes.len() > OUTPUT_BUFFER_BYTES - self.len {
            return false;
        }
        let end = self.len + bytes.len();
        self.array[self.len..end].copy_from_slice(bytes);
        self.len = end;
        true
    }

    /// Returns the buffered bytes.
    pub(crate) fn as_slice(&self) -> &[u8]
        ensures { result.now ≡ self.now }
    {
        &self.array[..self.len]
    }

    /// Returns whether no byte is buffered.
    pub(crate) fn is_empty(&self) -> bool
        ensures empty { result ≡ true → self.now ≡ [] }
        ensures not_empty { self.now ≡ [] → result ≡ true }
    {
        self.len == 0
    }

    /// Empties the buffer.
    pub(crate) fn clear(&mut self)
        ensures { self.new ≡ [] }
    {
        self.len = 0;
    }
}
