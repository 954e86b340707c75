//! The directory of a disk of either format: its entries, its rules, and searches in it.

mod attribute;
mod blocks;
mod broken;
mod count;
mod entry;
mod fault;
mod file;
mod layout;
mod listing;
mod name;
mod pattern;
mod rules;
mod searches;

pub use attribute::Attribute;
pub use blocks::{free_block, space_of};
pub use broken::Broken;
pub use count::{Space, Usage};
pub use entry::{Entry, FREE, USERS};
pub use fault::DiskFault;
pub use layout::{
    BLOCKS_OFFSET, ENTRY_BYTES, EX_OFFSET, EXTENT_RECORDS, LAST_EXTENT, NAME_OFFSET, RC_OFFSET,
    RECORD_ENTRIES, S1_OFFSET, S2_EXTENTS, S2_OFFSET, S2_RECORDS, S2_VALUES,
};
pub use listing::{Listed, list};
pub use name::Name;
pub use pattern::Pattern;
pub use rules::{faults, judge};
pub use searches::{
    file_is_read_only, file_is_system, find, free_entry, is_file, position_of, size, usage_of,
};
