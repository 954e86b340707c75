//! A ruler that counts by itself how often it is asked.

ghost use Rattle.std.specs.Prelude.{◌≡◌};
ghost use Rattle.relax.specs.Choice.{chosen};

use relax::{Ruler, Sums};

/// A [`Sums`] whose calls are counted a second time, outside of it.
#[derive(Drop)]
pub(crate) struct Counted {
    pub(crate) sums: Sums,
    pub(crate) tests: u64,
    pub(crate) growths: u64,
}

impl Counted {
    /// Makes a counting ruler that was not asked yet.
    pub(crate) fn new(sums: Sums) -> Counted
        ensures { result.sums ≡ sums }
    {
        Counted {
            sums,
            tests: 0,
            growths: 0,
        }
    }
}

impl Ruler for Counted {
    ghost shape = { λ c. c.sums.shape };

    ghost choice = { λ c. chosen c.sums.long };

    ghost count = { λ c. c.sums.asked };

    fn len(&self) -> u32 {
        self.sums.len()
    }

    fn target(&self, k: u32) -> Option<u32> {
        self.sums.target(k)
    }

    fn fits(&mut self, k: u32) -> bool {
        self.tests = self.tests.saturating_add(1);
        self.sums.fits(k)
    }

    fn lengthen(&mut self, k: u32) {
        self.growths = self.growths.saturating_add(1);
        self.sums.lengthen(k)
    }

    fn asked(&self) -> u64 {
        self.sums.asked()
    }
}
