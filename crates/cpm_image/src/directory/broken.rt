//! Entries that break a rule.

use crate::{DiskFault, Entry};

/// An entry that breaks a rule of the directory.
#[derive(Clone, Copy, Debug, PartialEq, Eq)]
pub struct Broken {
    /// The number of the entry, from 0.
    pub number: u16,
    pub entry: Entry,
    /// The first rule that it breaks: [`DiskFault::BadEntry`], [`DiskFault::BlockRange`], [`DiskFault::BlockTwice`] or
    /// [`DiskFault::NameTwice`].
    pub fault: DiskFault,
}
