//! The state of a search of the directory.

use cpm_disk::Pattern;

/// What a search looks for: the entries of a user that match a pattern, or every entry, even free ones.
#[derive(Clone, Copy, Debug, PartialEq, Eq)]
pub enum Sought {
    Matching(Pattern),
    Every,
}

/// A search that has found an entry: what it looks for, for which user, and the number of the entry. A directory has at most 256 entries.
#[derive(Clone, Copy, Debug, PartialEq, Eq)]
pub struct Search {
    pub sought: Sought,
    pub user: u8,
    pub found: u8,
}

impl Search {
    ghost use Rattle.std.specs.Prelude.{◌≡◌, ◌+◌};

    /// The number of the entry after the one that was found.
    pub(crate) fn next(self) -> u16
        ensures { result ≡ self.found + 1 }
    {
        u16::from(self.found) + 1
    }
}
