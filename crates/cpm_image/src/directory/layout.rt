//! The bytes of a directory entry, and what its counts count.

/// The number of bytes in a directory entry.
pub const ENTRY_BYTES: usize = 32;

/// The offset in an entry of the eleven bytes of its name.
pub const NAME_OFFSET: usize = 1;

/// The offset in an entry of EX.
pub const EX_OFFSET: usize = 12;

/// The offset in an entry of S1.
pub const S1_OFFSET: usize = 13;

/// The offset in an entry of S2.
pub const S2_OFFSET: usize = 14;

/// The offset in an entry of RC.
pub const RC_OFFSET: usize = 15;

/// The offset in an entry of its block numbers.
pub const BLOCKS_OFFSET: usize = 16;

/// The number of entries in a record of the directory.
pub const RECORD_ENTRIES: u16 = 4;

/// The most records of an extent.
pub const EXTENT_RECORDS: u8 = 128;

/// The number of extents for each value of S2.
pub const S2_EXTENTS: u8 = 32;

/// The number of records for each value of S2.
pub const S2_RECORDS: u16 = 4_096;

/// The number of values of S2: only its low six bits count.
pub const S2_VALUES: u8 = 64;

/// The greatest EX.
pub const LAST_EXTENT: u8 = S2_EXTENTS - 1;
