//! Counts of entries and blocks.

/// How much of a disk a file takes.
#[derive(Clone, Copy, Debug, PartialEq, Eq)]
pub struct Usage {
    /// The number of the file's directory entries.
    pub entries: u16,
    /// The number of blocks that these entries have.
    pub blocks: u16,
}

/// How much of a disk is free.
#[derive(Clone, Copy, Debug, PartialEq, Eq)]
pub struct Space {
    /// The number of free directory entries.
    pub entries: u16,
    /// The number of blocks for files that are in no entry.
    pub blocks: u16,
}
