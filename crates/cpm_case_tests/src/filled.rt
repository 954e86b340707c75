//! Makes disks that have files from the beginning. It writes their directories and blocks byte by byte.

use crate::asked::some_name;
use crate::model::{Extent, Model};
use cpm_disk::DiskKind;
use cpm_image::{MemoryImage, Sectors};
use std::alloc::Global;
use std::test::Fail;
use z80dev_cases::Draw;

/// The sectors of a track of an eight inch disk, in the order of the logical records.
const ORDER: [u32; 26] = [
    1, 7, 13, 19, 25, 5, 11, 17, 23, 3, 9, 15, 21, 2, 8, 14, 20, 26, 6, 12, 18, 24, 4, 10, 16, 22,
];

/// The sector of a logical record. On an eight inch disk two tracks of 26 sectors come first.
fn sector_of(kind: DiskKind, number: u32) -> u32 {
    let record = number % 8192;
    match kind {
        DiskKind::Megabyte => record,
        DiskKind::EightInch => match ORDER.get((record % 26) as usize) {
            Some(sector) => 26 * (record / 26) + 51 + sector % 32,
            None => 0,
        },
    }
}

fn put_record(
    image: &mut MemoryImage,
    kind: DiskKind,
    record: u32,
    bytes: &[u8; 128],
) -> Result<(), Fail> {
    let sector = sector_of(kind, record);
    if sector >= image.len() {
        return Err(Fail::from("no such sector"));
    }
    image.write(sector, bytes)?;
    Ok(())
}

/// A disk while it is filled.
#[derive(Drop)]
pub(crate) struct Filling {
    alloc: Global,
    pub(crate) image: MemoryImage,
    pub(crate) model: Model,
    /// The numbers of the free blocks, in random order.
    free: Vec<u16>,
    /// The entries, 32 bytes each.
    directory: Vec<u8>,
}

/// The numbers of the blocks for files, in random order.
fn shuffled(alloc: Global, draw: &mut Draw, kind: DiskKind) -> Result<Vec<u16>, Fail> {
    let (first, end) = match kind {
        DiskKind::EightInch => (2, 243),
        DiskKind::Megabyte => (4, 512),
    };
    let mut free: Vec<u16> = Vec::new(alloc);
    for block in first..end {
        free.push(block)?;
    }
    for at in 0..free.len() {
        let other = draw.index(free.len());
        if other < free.len() {
            free.swap(at, other);
        }
    }
    Ok(free)
}

impl Filling {
    /// Writes records to a free block, and answers its number.
    fn put_block(
        &mut self,
        draw: &mut Draw,
        extent: &mut Extent,
        first: usize,
    ) -> Result<u16, Fail> {
        let Some(block) = self.free.pop() else {
            return Ok(0);
        };
        let size = self.model.block_records();
        let kind = self.model.kind;
        for ahead in 0..size {
            let fill = draw.byte();
            if let Some(slot) = extent.records.get_mut(first.saturating_add(ahead)) {
                *slot = Some(fill);
            }
            let record = u32::from(block).saturating_mul((size % 32) as u32);
            put_record(
                &mut self.image,
                kind,
                record.saturating_add((ahead % 32) as u32),
                &[fill; 128],
            )?;
        }
        Ok(block)
    }

    /// The sixteen bytes of an extent's blocks. Some of its blocks are left out.
    fn put_blocks(&mut self, draw: &mut Draw, extent: &mut Extent) -> Result<Vec<u8>, Fail> {
        let mut numbers: Vec<u8> = Vec::new(self.alloc);
        let size = self.model.block_records();
        let count = if self.model.is_megabyte() { 8 } else { 16 };
        for index in 0..count {
            let first = size.saturating_mul(index);
            let has_block = first < usize::from(extent.count) && !draw.one_in(8);
            let block = if has_block {
                self.put_block(draw, extent, first)?
            } else {
                0
            };
            let [low, high] = block.to_le_bytes();
            numbers.push(low)?;
            if self.model.is_megabyte() {
                numbers.push(high)?;
            }
        }
        Ok(numbers)
    }

    /// Writes an extent to a directory entry, unless the directory already has it.
    fn put_extent(&mut self, draw: &mut Draw, entry: usize, high: u16) -> Result<(), Fail> {
        let name = some_name(draw);
        let user = draw.byte() % 3;
        let number = match draw.below(6) {
            0 => 31,
            1 => high,
            2 | 3 => draw.word() % 24,
            _ => draw.word() % 3,
        };
        let is_taken = self.model.extent_at(entry).is_some();
        if is_taken || self.model.find(user, &name, number).is_some() {
            return Ok(());
        }
        let mut extent = Extent {
            user,
            name,
            number,
            count: draw.byte() % 129,
            records: [None; 128],
        };
        let blocks = self.put_blocks(draw, &mut extent)?;
        let mut bytes = vec![in self.alloc; user]?;
        bytes.extend_from_slice(&name)?;
        let place = [
            (number % 32) as u8,
            0,
            (number / 32 % 16) as u8,
            extent.count,
        ];
        bytes.extend_from_slice(&place)?;
        bytes.extend_from_slice(&blocks)?;
        for (byte, slot) in bytes
            .iter()
            .zip(self.directory.iter_mut().skip(entry.saturating_mul(32)))
        {
            *slot = *byte;
        }
        if let Some(slot) = self.model.entries.get_mut(entry) {
            *slot = Some(extent);
        }
        Ok(())
    }

    /// Writes the directory to the image.
    fn put_directory(&mut self) -> Result<(), Fail> {
        let kind = self.model.kind;
        for (number, bytes) in self.directory.chunks(128).enumerate() {
            let mut record = [0; 128];
            if bytes.len() == 128 {
                record.copy_from_slice(bytes);
                let number = (number % 64) as u32;
                put_record(&mut self.image, kind, number, &record)?;
            }
        }
        Ok(())
    }
}

/// A disk of a format with at most this many extents, and its model.
pub(crate) fn filled(
    alloc: Global,
    draw: &mut Draw,
    kind: DiskKind,
    extents: u32,
) -> Result<Filling, Fail> {
    let model = Model::new(alloc, kind)?;
    let count = model.entries.len();
    let mut filling = Filling {
        alloc,
        image: MemoryImage::blank(alloc, kind)?,
        directory: vec![in alloc; 0xE5; count.saturating_mul(32)]?,
        free: shuffled(alloc, draw, kind)?,
        model,
    };
    let high = match kind {
        DiskKind::EightInch => 0,
        DiskKind::Megabyte => 32,
    };
    for _ in 0..extents {
        let entry = draw.index(count);
        filling.put_extent(draw, entry, high)?;
    }
    filling.put_directory()?;
    Ok(filling)
}
