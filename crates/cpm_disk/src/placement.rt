//! Where to write a record.

use cpm_image::Entry;

/// Where to write a record.
#[derive(Clone, Copy, Debug, PartialEq, Eq)]
pub struct Placement {
    /// The number of the directory entry of the record's extent.
    pub entry_number: u16,
    /// That entry after the record is written.
    pub entry: Entry,
    /// The block of the record.
    pub block: u16,
    /// Whether that block was free.
    pub is_new: bool,
}
