//! A buffer for the longest line, in memory that is taken once and never cleared.
//!
//! Passes over many texts use one, since an array of this size takes longer to clear than most
//! texts to read.

ghost use Rattle.std.specs.Prelude.{◌≡◌, IfOk, []};

use crate::lines::LineBuffer;
use std::alloc::{AllocError, Global};
use std::marker::Model;
use ud_model::MAX_LINE_BYTES;

/// A buffer for the longest line, from one allocation.
#[derive(Drop)]
pub struct LineStore {
    bytes: Vec<u8>,
}

impl Model for LineStore {
    ghost use Rattle.std.specs.Prelude.{◌≤◌, List, ℕ, length};
    ghost use Rattle.std.specs.Vec.{vec_capacity};
    ghost use Rattle.ud_model.specs.declared.limits.TheConstants.{MAX_LINE_BYTES};

    ghost Value = { List ℕ };

    ghost view = { λ s. s.bytes.items };

    ghost invariant = { λ s. (MAX_LINE_BYTES ≤ vec_capacity s.bytes)
        × (length s.bytes.items ≤ MAX_LINE_BYTES) };
}

impl LineStore {
    /// Returns an empty buffer.
    ///
    /// # Errors
    /// Fails if memory runs out.
    pub fn new(alloc: Global) -> Result<LineStore, AllocError>
        ensures { IfOk result (λ store. store ≡ []) }
    {
        Ok(LineStore {
            bytes: Vec::with_capacity(alloc, MAX_LINE_BYTES)?,
        })
    }
}

impl LineBuffer for LineStore {
    ghost use Rattle.ud_model.specs.declared.limits.TheConstants.{MAX_LINE_BYTES};

    ghost items = { λ store. store };

    const CAPACITY: usize = MAX_LINE_BYTES;

    ghost CAPACITY = { MAX_LINE_BYTES };

    fn push(&mut self, byte: u8) {
        let _ = self.bytes.push(byte);
    }

    fn pop(&mut self) -> Option<u8> {
        self.bytes.pop()
    }

    fn try_append(&mut self, bytes: &[u8]) -> bool {
        if bytes.len() > MAX_LINE_BYTES - self.bytes.len() {
            return false;
        }
        self.bytes.extend_from_slice(bytes).is_ok()
    }

    fn as_slice(&self) -> &[u8] {
        self.bytes.as_slice()
    }

    fn clear(&mut self) {
        self.bytes.clear();
    }
}
