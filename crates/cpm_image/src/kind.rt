//! The formats of a disk.

use crate::format::{RECORD_COUNT, SECTOR_COUNT};

/// The format of a disk. It gives all sizes.
#[derive(Clone, Copy, Debug, PartialEq, Eq)]
pub enum DiskKind {
    /// Eight inch, single density: 77 tracks of 26 sectors, and the first two tracks are the system's.
    EightInch,
    /// 1,048,576 bytes: there are no system tracks, and the records are in their order in the image.
    Megabyte,
}

impl DiskKind {
    ghost use Rattle.std.specs.Prelude.{◌≡◌, MatchOption};
    ghost use Rattle.cpm_image.specs.Kind.{IsDiskSize, block_count, block_records, directory_records, entry_blocks, entry_count, file_records, first_block, last_high, record_count, sector_count};

    /// The format of a disk with this number of sectors.
    pub fn of_size(sectors: u32) -> Option<DiskKind>
        ensures { MatchOption result (¬ IsDiskSize sectors) (λ kind. sectors ≡ sector_count kind) }
    {
        if sectors == DiskKind::EightInch.sector_count() {
            Some(DiskKind::EightInch)
        } else if sectors == DiskKind::Megabyte.sector_count() {
            Some(DiskKind::Megabyte)
        } else {
            None
        }
    }

    /// The number of sectors in an image.
    pub fn sector_count(self) -> u32
        ensures { result ≡ sector_count self }
    {
        match self {
            DiskKind::EightInch => SECTOR_COUNT,
            DiskKind::Megabyte => 8_192,
        }
    }

    /// The number of records in a block.
    pub fn block_records(self) -> u8
        ensures { result ≡ block_records self }
    {
        match self {
            DiskKind::EightInch => 8,
            DiskKind::Megabyte => 16,
        }
    }

    /// The number of blocks; they are numbered from 0.
    pub fn block_count(self) -> u16
        ensures { result ≡ block_count self }
    {
        match self {
            DiskKind::EightInch => 243,
            DiskKind::Megabyte => 512,
        }
    }

    /// The number of logical records, which are those of the blocks. On an eight inch disk the last six sectors are unused.
    pub fn record_count(self) -> u32
        ensures { result ≡ record_count self }
    {
        match self {
            DiskKind::EightInch => RECORD_COUNT,
            DiskKind::Megabyte => 8_192,
        }
    }

    /// The first block that a file can have. Those before it are the directory.
    pub fn first_block(self) -> u16
        ensures { result ≡ first_block self }
    {
        match self {
            DiskKind::EightInch => 2,
            DiskKind::Megabyte => 4,
        }
    }

    /// The number of logical records in the directory, four entries each.
    pub fn directory_records(self) -> u32
        ensures { result ≡ directory_records self }
    {
        match self {
            DiskKind::EightInch => 16,
            DiskKind::Megabyte => 64,
        }
    }

    /// The number of entries in the directory.
    pub fn entry_count(self) -> u16
        ensures { result ≡ entry_count self }
    {
        match self {
            DiskKind::EightInch => 64,
            DiskKind::Megabyte => 256,
        }
    }

    /// The number of block numbers in an entry, one for each block of an extent's 128 records.
    pub fn entry_blocks(self) -> u8
        ensures { result ≡ entry_blocks self }
    {
        match self {
            DiskKind::EightInch => 16,
            DiskKind::Megabyte => 8,
        }
    }

    /// The greatest value of the low six bits of an entry's S2.
    pub fn last_high(self) -> u8
        ensures { result ≡ last_high self }
    {
        match self {
            DiskKind::EightInch => 0,
            DiskKind::Megabyte => 15,
        }
    }

    /// The most records that a file can have: 4,096 for each value of S2.
    pub fn file_records(self) -> u32
        ensures { result ≡ file_records self }
    {
        match self {
            DiskKind::EightInch => 4_096,
            DiskKind::Megabyte => 65_536,
        }
    }
}
