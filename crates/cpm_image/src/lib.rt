//! Images of CP/M 2.2 disks in two formats: devices of 128-byte sectors, an image in memory, the sector of each logical record, and the
//! directory: its entries, its rules, and searches in it.
#![tactic(auto)]

mod device;
mod directory;
mod failing;
mod fault;
mod format;
mod kind;
pub mod laws;
mod memory;
mod skew;
mod units;

pub use device::{DeviceFault, Sectors};
pub use directory::{
    Attribute, BLOCKS_OFFSET, Broken, DiskFault, ENTRY_BYTES, EX_OFFSET, EXTENT_RECORDS, Entry,
    FREE, LAST_EXTENT, Listed, NAME_OFFSET, Name, Pattern, RC_OFFSET, RECORD_ENTRIES, S1_OFFSET,
    S2_EXTENTS, S2_OFFSET, S2_RECORDS, S2_VALUES, Space, USERS, Usage, faults, file_is_read_only,
    file_is_system, find, free_block, free_entry, is_file, judge, list, position_of, size,
    space_of, usage_of,
};
pub use failing::{FailedWrite, Failing};
pub use fault::ImageFault;
pub use format::{BLANK, RECORD_BYTES, RECORD_COUNT, SECTOR_COUNT};
pub use kind::DiskKind;
pub use memory::MemoryImage;
pub use skew::{logical, logical_of};
pub use units::LogicalRecord;
