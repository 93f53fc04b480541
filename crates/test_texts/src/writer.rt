//! A writer of texts from random numbers.

ghost use Rattle.std.specs.Prelude.{◌<◌, length};

use crate::random::Random;
use std::alloc::{AllocError, Global};

/// The rarity of something odd: one of these is drawn for a text.
const CHANCES: [usize; 5] = [3, 10, 30, 100, 10_000];

/// A text that is being written.
#[derive(Drop)]
pub(crate) struct Writer {
    pub random: Random,
    pub text: Vec<u8>,
    /// The sections that are open, and whether each has its `#else`.
    pub sections: Vec<bool>,
    /// The text is odd at one of this many chances.
    chances: usize,
}

impl Writer {
    /// Returns a writer of an empty text.
    pub(crate) fn new(alloc: Global, mut random: Random) -> Writer {
        let chances = CHANCES[random.below(CHANCES.len())];
        Writer {
            random,
            text: Vec::new(alloc),
            sections: Vec::new(alloc),
            chances,
        }
    }

    /// Appends bytes.
    pub(crate) fn put(&mut self, bytes: &[u8]) -> Result<(), AllocError> {
        self.text.extend_from_slice(bytes)
    }

    /// Appends one of these texts.
    pub(crate) fn put_one(&mut self, texts: &[&[u8]]) -> Result<(), AllocError>
        requires { 0 < length texts.now }
    {
        let text = self.random.pick(texts);
        self.put(text)
    }

    /// Appends one of these texts if it is time to be odd.
    pub(crate) fn put_odd(&mut self, texts: &[&[u8]]) -> Result<(), AllocError>
        requires { 0 < length texts.now }
    {
        if self.is_odd() {
            self.put_one(texts)?;
        }
        Ok(())
    }

    /// Returns whether it is time to be odd.
    pub(crate) fn is_odd(&mut self) -> bool {
        self.random.one_in(self.chances.max(1))
    }

    /// Returns whether a chance of one in `chances` has come.
    pub(crate) fn one_in(&mut self, chances: usize) -> bool
        requires { 0 < chances }
    {
        self.random.one_in(chances)
    }
}
