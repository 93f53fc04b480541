//! Buffers for a line whose bytes come in chunks.
//!
//! A line that is whole in a chunk is borrowed from it, and only a line that a chunk cuts is
//! copied. Short lines have buffers of their own: a function clears its buffers on entry, and
//! touches each of their pages, so only a function that long lines reach has the large ones.
//!
//! Rejected: one capacity for all lines; an enum of a short and a long array, which is as large as
//! the long one; an engine that takes memory when a long line comes, which could be refused in the
//! middle of a text.

ghost use Rattle.std.specs.Prelude.{◌≡◌, ◌+◌, ◌<◌, ◌≤◌, List, ℕ, [], ◌∷◌, ◌++◌, length, true};
ghost use Rattle.std.specs.Prelude.{false, ◌↔◌, IsSome};
ghost use Rattle.std.specs.Option.{option_to_list};

use arrayvec::ArrayVec;
use ud_model::MAX_LINE_BYTES;

/// The capacity of a short buffer.
pub const SHORT_LINE_BUFFER_BYTES: usize = 8_192;

/// A buffer for the bytes of one line: an array of some capacity.
///
/// Types that buffer a line take the buffer's type as a parameter, not its capacity. An engine has
/// a printer beside the buffer. With a number as the capacity, a caller generic over its printer
/// would have to show that both together have a countable size.
pub trait LineBuffer: Drop {
    /// The buffered bytes.
    ghost items: { Self → List ℕ };

    /// The number of bytes that fit.
    const CAPACITY: usize;

    /// The capacity in clauses.
    ghost CAPACITY: { ℕ };

    /// Appends a byte.
    fn push(&mut self, byte: u8)
        requires { length (items self.old) < CAPACITY }
        ensures { items self.new ≡ items self.old ++ byte ∷ [] };

    /// Removes and returns the last byte, if any.
    fn pop(&mut self) -> Option<u8>
        ensures items { items self.old ≡ items self.new ++ option_to_list result }
        ensures variant { IsSome result ↔ (0 < length (items self.old)) };

    /// Appends `bytes` if all of them fit. Otherwise changes nothing, and returns `false`.
    fn try_append(&mut self, bytes: &[u8]) -> bool
        ensures fits { result ≡ true → items self.new ≡ items self.old ++ bytes.now }
        ensures bound { result ≡ true → length (items self.new) ≤ CAPACITY }
        ensures full { result ≡ false →
            (CAPACITY < length (items self.old) + length bytes.now) × (self.new ≡ self.old) };

    /// Returns the buffered bytes.
    fn as_slice(&self) -> &[u8]
        ensures value { result.now ≡ items self.now }
        ensures bound { length result.now ≤ CAPACITY };

    /// Discards the buffered bytes.
    fn clear(&mut self)
        ensures { items self.new ≡ [] };
}

/// A buffer for a line of any length that a line may have.
pub type LongLineBuffer = ArrayVec<u8, MAX_LINE_BYTES>;

/// A buffer for a line of ordinary length.
pub type ShortLineBuffer = ArrayVec<u8, SHORT_LINE_BUFFER_BYTES>;

impl<const N: usize> LineBuffer for ArrayVec<u8, N> {
    ghost items = { λ buffer. buffer.items };

    const CAPACITY: usize = N;

    ghost CAPACITY = { N };

    fn push(&mut self, byte: u8) {
        ArrayVec::push(self, byte);
    }

    fn pop(&mut self) -> Option<u8> {
        ArrayVec::pop(self)
    }

    fn try_append(&mut self, bytes: &[u8]) -> bool {
        ArrayVec::try_extend_from_slice(self, bytes).is_ok()
    }

    fn as_slice(&self) -> &[u8] {
        ArrayVec::as_slice(self)
    }

    fn clear(&mut self) {
        ArrayVec::clear(self);
    }
}
