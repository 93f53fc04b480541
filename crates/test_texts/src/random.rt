//! Pseudorandom numbers from a seed.

ghost use Rattle.std.specs.Prelude.{◌<◌, length};

/// A source of numbers (SplitMix64). Equal seeds give equal numbers.
#[derive(Clone, Copy)]
pub struct Random {
    state: u64,
}

impl Random {
    /// Returns the source for this seed.
    pub fn new(seed: u64) -> Random {
        Random { state: seed }
    }

    /// Returns the next number.
    pub fn next(&mut self) -> u64 {
        self.state = self.state.wrapping_add(0x9E37_79B9_7F4A_7C15);
        let mixed = (self.state ^ (self.state >> 30)).wrapping_mul(0xBF58_476D_1CE4_E5B9);
        let mixed = (mixed ^ (mixed >> 27)).wrapping_mul(0x94D0_49BB_1331_11EB);
        mixed ^ (mixed >> 31)
    }

    /// Returns a number below `bound`, which is above 0.
    pub fn below(&mut self, bound: usize) -> usize
        requires { 0 < bound }
        ensures { result < bound }
    {
        (self.next() % bound as u64) as usize
    }

    /// Returns whether a chance of one in `chances`, which is above 0, has come.
    pub fn one_in(&mut self, chances: usize) -> bool
        requires { 0 < chances }
    {
        self.below(chances) == 0
    }

    /// Returns one of these texts.
    pub fn pick<'a>(&mut self, texts: &[&'a [u8]]) -> &'a [u8]
        requires { 0 < length texts.now }
    {
        texts[self.below(texts.len())]
    }
}
