//! The size of a record, the byte of a blank disk, and the sizes of the eight inch format, single density.

/// The number of bytes in a record, and in a sector.
pub const RECORD_BYTES: usize = 128;

/// The byte that formatting writes everywhere.
pub const BLANK: u8 = 0xE5;

/// The number of sectors on an eight inch disk: 77 tracks of 26. An image has 256,256 bytes.
pub const SECTOR_COUNT: u32 = 2_002;

/// The number of logical records on an eight inch disk: 243 blocks of eight. The last six sectors are unused.
pub const RECORD_COUNT: u32 = 1_944;
