//! A model of the files of a disk: a list of its directory entries.

use cpm_disk::DiskKind;
use std::alloc::Global;
use std::test::Fail;

/// In a pattern this matches any character or any number.
pub(crate) const ANY: u8 = b'?';

/// An extent of a file: its user, name and number, the byte that fills each record in its blocks, and the count of its records.
#[derive(Clone, Copy)]
pub(crate) struct Extent {
    pub(crate) user: u8,
    pub(crate) name: [u8; 11],
    pub(crate) number: u16,
    pub(crate) count: u8,
    pub(crate) records: [Option<u8>; 128],
}

/// Why a record cannot be read or written.
#[derive(Clone, Copy)]
pub(crate) enum Refusal {
    NoFile,
    NoExtent,
    Unwritten,
    DirectoryFull,
    DiskFull,
}

/// What a search looks for: every entry, or those of a user with a pattern and with one extent number or any.
#[derive(Clone, Copy)]
pub(crate) struct Sought {
    pub(crate) is_every: bool,
    pub(crate) user: u8,
    pub(crate) pattern: [u8; 11],
    pub(crate) number: Option<u16>,
}

/// A disk with its directory entries, in order.
#[derive(Drop)]
pub(crate) struct Model {
    pub(crate) kind: DiskKind,
    pub(crate) entries: Vec<Option<Extent>>,
}

/// Whether a name matches a pattern.
fn matches_pattern(pattern: &[u8; 11], name: &[u8; 11]) -> bool {
    pattern
        .iter()
        .zip(name)
        .all(|(wanted, letter)| *wanted == ANY || *wanted == *letter)
}

impl Sought {
    fn is_met(&self, entry: &Option<Extent>) -> bool {
        match entry {
            Some(extent) => {
                self.is_every
                    || extent.user == self.user
                        && matches_pattern(&self.pattern, &extent.name)
                        && (self.number.is_none() || self.number == Some(extent.number))
            }
            None => self.is_every,
        }
    }
}

impl Model {
    pub(crate) fn new(alloc: Global, kind: DiskKind) -> Result<Model, Fail> {
        let count = match kind {
            DiskKind::EightInch => 64,
            DiskKind::Megabyte => 256,
        };
        let entries: Vec<Option<Extent>> = vec![in alloc; None; count]?;
        Ok(Model { kind, entries })
    }

    pub(crate) fn is_megabyte(&self) -> bool {
        matches!(self.kind, DiskKind::Megabyte)
    }

    /// The number of records in a block.
    pub(crate) fn block_records(&self) -> usize {
        if self.is_megabyte() { 16 } else { 8 }
    }

    /// The number of records in all blocks for files: 508 blocks of 16, or 241 of 8.
    fn room(&self) -> usize {
        if self.is_megabyte() { 8128 } else { 1928 }
    }

    pub(crate) fn extent_at(&self, entry: usize) -> Option<Extent> {
        match self.entries.get(entry) {
            Some(found) => *found,
            None => None,
        }
    }

    /// The number of the first entry from `from` on that the search looks for.
    pub(crate) fn search(&self, sought: &Sought, from: usize) -> Option<usize> {
        for (number, entry) in self.entries.iter().enumerate() {
            if number >= from && sought.is_met(entry) {
                return Some(number);
            }
        }
        None
    }

    /// The number of the entry of an extent.
    pub(crate) fn find(&self, user: u8, name: &[u8; 11], number: u16) -> Option<usize> {
        let sought = Sought {
            is_every: false,
            user,
            pattern: *name,
            number: Some(number),
        };
        self.search(&sought, 0)
    }

    pub(crate) fn has_file(&self, user: u8, name: &[u8; 11]) -> bool {
        let sought = Sought {
            is_every: false,
            user,
            pattern: *name,
            number: None,
        };
        self.search(&sought, 0).is_some()
    }

    pub(crate) fn free_entry(&self) -> Option<usize> {
        self.entries.iter().position(|entry| entry.is_none())
    }

    /// Whether there is a free block: the extents have fewer records in blocks than all blocks together.
    pub(crate) fn has_free_block(&self) -> bool {
        let mut used: usize = 0;
        for entry in &self.entries {
            if let Some(extent) = entry {
                let own = extent
                    .records
                    .iter()
                    .filter(|record| record.is_some())
                    .count();
                used = used.saturating_add(own);
            }
        }
        used < self.room()
    }

    /// Adds a new extent at the lowest free entry, and answers its number.
    pub(crate) fn add(&mut self, user: u8, name: &[u8; 11], number: u16) -> Option<usize> {
        let entry = self.free_entry()?;
        if let Some(slot) = self.entries.get_mut(entry) {
            *slot = Some(Extent {
                user,
                name: *name,
                number,
                count: 0,
                records: [None; 128],
            });
        }
        Some(entry)
    }

    /// Erases the files that match a pattern, and answers whether there were any.
    pub(crate) fn erase(&mut self, user: u8, pattern: &[u8; 11]) -> bool {
        let mut has_erased = false;
        for entry in &mut self.entries {
            if let Some(extent) = entry {
                if extent.user == user && matches_pattern(pattern, &extent.name) {
                    has_erased = true;
                    *entry = None;
                }
            }
        }
        has_erased
    }

    pub(crate) fn rename(&mut self, user: u8, from: &[u8; 11], to: &[u8; 11]) {
        for entry in &mut self.entries {
            if let Some(extent) = entry {
                if extent.user == user && extent.name == *from {
                    extent.name = *to;
                }
            }
        }
    }

    /// The number of a file's records, if there is such a file.
    pub(crate) fn size(&self, user: u8, name: &[u8; 11]) -> Option<u32> {
        let mut size: Option<u32> = None;
        for entry in &self.entries {
            if let Some(extent) = entry {
                if extent.user == user && extent.name == *name {
                    let before = u32::from(extent.number).saturating_mul(128);
                    let own = before.saturating_add(u32::from(extent.count));
                    size = Some(match size {
                        Some(most) => most.max(own),
                        None => own,
                    });
                }
            }
        }
        size
    }
}
