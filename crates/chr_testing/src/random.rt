//! Numbers that look random and are the same in each run.
ghost use Rattle.std.specs.Prelude.{◌<◌, length};

/// A linear congruential generator, with Knuth's multiplier.
#[derive(Drop)]
pub struct Random {
    state: u64,
}

impl Random {
    pub fn new(seed: u64) -> Random {
        Random { state: seed }
    }

    /// The upper bits of the next state: the lower ones have short periods.
    fn next_bits(&mut self) -> u64 {
        self.state = self
            .state
            .wrapping_mul(6_364_136_223_846_793_005)
            .wrapping_add(1_442_695_040_888_963_407);
        self.state >> 33
    }

    /// A number from 0 up to the bound, which is not among them.
    pub fn below(&mut self, bound: usize) -> usize
        requires { 0 < bound }
        ensures { result < bound }
    {
        (self.next_bits() % bound as u64) as usize
    }

    pub fn one_of<'a>(&mut self, words: &[&'a str]) -> &'a str
        requires { 0 < length words.now }
    {
        words[self.below(words.len())]
    }
}
