//! Random numbers.

ghost use Rattle.std.specs.Prelude.{◌<◌};

use rand_core::Rng;
use rand_pcg::Pcg32;

/// Random numbers, the same for the same seed.
#[derive(Drop)]
pub struct Draw {
    random: Pcg32,
}

impl Draw {
    pub fn new(seed: u64) -> Draw {
        Draw {
            random: Pcg32::new(seed, 13),
        }
    }

    /// A number below `n`.
    pub fn below(&mut self, n: u32) -> u32
        requires { 0 < n }
        ensures { result < n }
    {
        self.random.next_u32() % n
    }

    /// True once in `n` times.
    pub fn one_in(&mut self, n: u32) -> bool
        requires { 0 < n }
    {
        self.below(n) == 0
    }

    pub fn byte(&mut self) -> u8 {
        (self.random.next_u32() % 256) as u8
    }

    pub fn word(&mut self) -> u16 {
        (self.random.next_u32() % 65_536) as u16
    }

    /// A number below the length of a list, or 0.
    pub fn index(&mut self, length: usize) -> usize {
        self.random.next_u32() as usize % length.max(1)
    }
}
