//! A filter that rejects most unlisted names without a search.
//!
//! If no row has set the bit of a name's key, the name isn't listed.

ghost use Rattle.std.specs.Prelude.{◌≡◌, ◌<◌, ℕ, true};
ghost use Rattle.ud_cond.specs.symbols.NameFilters as spec;

/// The number of slots.
const FILTER_SLOTS: usize = 2048;

/// The number of slots, one bit each, in a word.
pub(crate) const WORD_SLOTS: usize = 64;

/// The number of words.
const FILTER_WORDS: usize = FILTER_SLOTS / WORD_SLOTS;

/// The number that a key is multiplied by. It is odd and its bits are spread, so every byte of a
/// key affects the middle bits of the product.
const HASH_MULTIPLIER: u64 = 0x9e37_79b9_7f4a_7c15;

/// The number of bits of the product below the ones that select the slot.
const LOW_BITS: u32 = 52;

/// A filter of names (a Bloom filter with one hash). A name's key selects its slot, so several
/// names share one.
#[derive(Drop)]
pub(crate) struct NameFilter {
    /// A bit for each slot, which is 1 if a key of the slot was inserted.
    words: [u64; FILTER_WORDS],
}

impl NameFilter {
    /// Returns an empty filter.
    pub(crate) fn new() -> NameFilter {
        NameFilter {
            words: [0; FILTER_WORDS],
        }
    }

    /// Returns whether the slot of `key` is set.
    #[inline(always)]
    pub(crate) fn may_contain(&self, key: u64) -> bool
        ensures { result ≡ spec.slot_is_set self.now.words key }
    {
        let slot = slot_of(key);
        self.words[slot / WORD_SLOTS] >> (slot % WORD_SLOTS) & 1 == 1
    }

    /// Sets the slot of `key`.
    pub(crate) fn insert(&mut self, key: u64)
        ensures inserted { spec.slot_is_set self.new.words key ≡ true }
        ensures others_kept { (other : ℕ) → spec.slot_is_set self.old.words other ≡ true →
            spec.slot_is_set self.new.words other ≡ true }
    {
        let slot = slot_of(key);
        self.words[slot / WORD_SLOTS] |= 1 << (slot % WORD_SLOTS);
    }
}

/// Returns the slot of a key.
#[inline(always)]
fn slot_of(key: u64) -> usize
    ensures value { result ≡ spec.slot_of key }
    ensures bound { result < FILTER_SLOTS }
{
    (key.wrapping_mul(HASH_MULTIPLIER) >> LOW_BITS) as usize % FILTER_SLOTS
}
