//! Reads and writes records of the model's files.

use crate::model::{Model, Refusal};

/// The number of an extent, and the number of a record in it.
fn split(record: u32) -> (u16, usize) {
    ((record / 128 % 65_536) as u16, (record % 128) as usize)
}

/// Whether two records of an extent are in the same block.
fn is_one_block(is_megabyte: bool, one: usize, other: usize) -> bool {
    if is_megabyte {
        one / 16 == other / 16
    } else {
        one / 8 == other / 8
    }
}

impl Model {
    /// The byte that fills a record.
    pub(crate) fn read(&self, user: u8, name: &[u8; 11], record: u32) -> Result<u8, Refusal> {
        let (number, index) = split(record);
        if !self.has_file(user, name) {
            return Err(Refusal::NoFile);
        }
        let Some(entry) = self.find(user, name, number) else {
            return Err(Refusal::NoExtent);
        };
        match self.extent_at(entry) {
            Some(extent) if index < usize::from(extent.count) => match extent.records.get(index) {
                Some(Some(fill)) => Ok(*fill),
                _ => Err(Refusal::Unwritten),
            },
            _ => Err(Refusal::Unwritten),
        }
    }

    /// Whether an extent has the block of a record.
    fn has_block(&self, entry: usize, index: usize) -> bool {
        match self.extent_at(entry) {
            Some(extent) => matches!(extent.records.get(index), Some(Some(_))),
            None => false,
        }
    }

    /// The number of the entry of the extent to which a record is written; a new one if there is none.
    fn entry_for(&mut self, user: u8, name: &[u8; 11], number: u16) -> Result<usize, Refusal> {
        match self.find(user, name, number) {
            Some(entry) => Ok(entry),
            None => match self.add(user, name, number) {
                Some(entry) => Ok(entry),
                None => Err(Refusal::DirectoryFull),
            },
        }
    }

    /// Whether the block of a record is there, or there is a free block for it.
    fn has_room(&self, user: u8, name: &[u8; 11], record: u32) -> bool {
        let (number, index) = split(record);
        match self.find(user, name, number) {
            Some(entry) if self.has_block(entry, index) => true,
            _ => self.has_free_block(),
        }
    }

    /// Writes a record. If its block is new, the other records in it become zeros.
    pub(crate) fn write(
        &mut self,
        user: u8,
        name: &[u8; 11],
        record: u32,
        fill: u8,
    ) -> Result<(), Refusal> {
        let (number, index) = split(record);
        if !self.has_file(user, name) {
            return Err(Refusal::NoFile);
        }
        if self.find(user, name, number).is_none() && self.free_entry().is_none() {
            return Err(Refusal::DirectoryFull);
        }
        if !self.has_room(user, name, record) {
            return Err(Refusal::DiskFull);
        }
        let entry = self.entry_for(user, name, number)?;
        let is_megabyte = self.is_megabyte();
        if let Some(Some(extent)) = self.entries.get_mut(entry) {
            for (other, slot) in extent.records.iter_mut().enumerate() {
                if other == index {
                    *slot = Some(fill);
                } else if slot.is_none() && is_one_block(is_megabyte, other, index) {
                    *slot = Some(0);
                }
            }
            extent.count = extent.count.max((index % 128) as u8 + 1);
        }
        Ok(())
    }
}
