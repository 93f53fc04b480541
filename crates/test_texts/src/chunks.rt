//! A reader over memory that returns chunks of random sizes.

use crate::random::Random;
use std::io::{self, Read};

/// The greatest chunk sizes, of which one is drawn for a text.
const SIZES: [usize; 6] = [1, 2, 5, 64, 1000, 10_000];

/// A reader that returns its bytes in chunks, and then ends.
#[derive(Drop)]
pub struct Chunks<'a> {
    bytes: &'a [u8],
    maximum: usize,
    random: Random,
}

impl<'a> Chunks<'a> {
    /// Returns a reader of `bytes`, whose chunks come from the seed.
    pub fn new(bytes: &'a [u8], seed: u64) -> Chunks<'a> {
        let mut random = Random::new(seed);
        let maximum = SIZES[random.below(SIZES.len())];
        Chunks {
            bytes,
            maximum,
            random,
        }
    }
}

impl Read for Chunks<'_> {
    fn read(&mut self, buf: &mut [u8]) -> io::Result<usize> {
        let size = self.random.below(self.maximum.max(1)).saturating_add(1);
        let count = buf.len().min(self.bytes.len()).min(size);
        let (given, left) = self.bytes.split_at(count);
        buf[..count].copy_from_slice(given);
        self.bytes = left;
        Ok(count)
    }
}
