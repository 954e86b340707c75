//! Rows of images: their sizes, sectors and records, and the entries that rows write into them.

use crate::shown::{kind_of, padded};
use cpm_image::{
    DeviceFault, DiskFault, DiskKind, ImageFault, LogicalRecord, MemoryImage, Sectors, logical_of,
};
use row_text::Row;
use std::alloc::{AllocError, Global};

/// Bytes that differ from their neighbours and from sector to sector.
fn numbered(alloc: Global, count: u32) -> Result<Vec<u8>, AllocError> {
    let mut bytes = Vec::new(alloc);
    for n in 0..count {
        bytes.push((n % 251) as u8)?;
    }
    Ok(bytes)
}

/// Whether an image has these bytes, and then E5H.
fn begins_with(image: &MemoryImage, bytes: &[u8]) -> bool {
    let all = image.sectors().as_flattened();
    match all.split_at_checked(bytes.len()) {
        Some((front, back)) => front == bytes && back.iter().all(|byte| *byte == 0xE5),
        None => false,
    }
}

fn show_image(row: &mut Row, image: &MemoryImage, bytes: &[u8]) {
    let sectors = if begins_with(image, bytes) {
        "sectors of these"
    } else {
        "sectors of others"
    };
    write!(row, " {} {sectors}", image.len())
}

/// A row that makes an image of this many bytes.
pub(crate) fn answer_image(row: &mut Row) {
    let Ok(bytes) = numbered(row.alloc(), row.decimal()) else {
        return row.refuse("no memory");
    };
    match MemoryImage::from_bytes(row.alloc(), &bytes) {
        Ok(image) => show_image(row, &image, &bytes),
        Err(fault) => write!(row, " {fault:?}"),
    }
}

/// A row that prints the format of a disk with this many sectors.
pub(crate) fn answer_kind(row: &mut Row) {
    match DiskKind::of_size(row.decimal()) {
        Some(kind) => write!(row, " {kind:?}, {} records", kind.record_count()),
        None => write!(row, " none"),
    }
}

/// The sector of a record, on a disk of a format.
fn sector_of(row: &mut Row, kind: DiskKind, record: u32) -> u32 {
    if record >= kind.record_count() {
        row.refuse("no such record");
        return 0;
    }
    logical_of(kind, LogicalRecord::new(record))
}

/// A row that prints the sector of a record: the format, and the record.
pub(crate) fn answer_sector(row: &mut Row) {
    let kind = kind_of(row);
    let record = row.decimal();
    let sector = sector_of(row, kind, record);
    write!(row, " {sector}")
}

/// A row that prints the sectors of a track of an eight inch disk, from 1 on, in the order of its records, and the track when it changes.
pub(crate) fn answer_track(row: &mut Row) {
    let first = row.decimal();
    let mut track = 0;
    for number in 0..row.decimal() {
        let sector = sector_of(row, DiskKind::EightInch, first.saturating_add(number));
        if sector / 26 != track {
            track = sector / 26;
            write!(row, " track {track}:");
        }
        write!(row, " {}", sector % 26 + 1);
    }
}

/// Writes a directory entry to an image: its number and its first bytes; zeros follow.
pub(crate) fn put_entry(row: &mut Row, image: &mut MemoryImage) {
    let number = row.short();
    let entry: [u8; 32] = padded(row);
    match DiskKind::of_size(image.len()) {
        Some(kind) if number < kind.entry_count() => {
            let sector = sector_of(row, kind, u32::from(number / 4));
            let mut record = sector_at(row, image, sector);
            let from = 32 * usize::from(number % 4);
            record[from..from + 32].copy_from_slice(&entry);
            put_sector(row, image, sector, &record)
        }
        _ => row.refuse("no such entry"),
    }
}

/// The bytes of a sector.
fn sector_at(row: &mut Row, image: &mut MemoryImage, sector: u32) -> [u8; 128] {
    let mut bytes = [0; 128];
    if sector >= image.len() || image.read(sector, &mut bytes).is_err() {
        row.refuse("no such sector");
    }
    bytes
}

fn put_sector(row: &mut Row, image: &mut MemoryImage, sector: u32, bytes: &[u8; 128]) {
    if sector >= image.len() || image.write(sector, bytes).is_err() {
        row.refuse("no such sector");
    }
}

/// Writes a sector, and reads it back: its number and its first bytes; zeros follow.
pub(crate) fn answer_written(row: &mut Row, image: &mut MemoryImage) {
    let sector = row.decimal();
    let bytes = padded(row);
    put_sector(row, image, sector, &bytes);
    let back = sector_at(row, image, sector);
    row.write_runs(&back)
}

/// The bytes of a sector, or of a logical record of the disk.
fn bytes_at(row: &mut Row, image: &MemoryImage, number: u32, is_record: bool) -> [u8; 128] {
    let sector = match DiskKind::of_size(image.len()) {
        Some(kind) if is_record => sector_of(row, kind, number),
        _ => number,
    };
    match image.sectors().get(sector as usize) {
        Some(bytes) => *bytes,
        None => {
            row.refuse("no such sector");
            [0; 128]
        }
    }
}

/// Prints what all sectors of a range have, or that they differ. With `as_records`, the numbers are those of logical records.
pub(crate) fn answer_range(row: &mut Row, image: &MemoryImage, as_records: bool) {
    let from = row.decimal();
    let first = bytes_at(row, image, from, as_records);
    for number in from..row.decimal() {
        if bytes_at(row, image, number, as_records) != first {
            return write!(row, " different bytes");
        }
    }
    row.write_runs(&first)
}

/// Prints how many sectors of a range differ in two images.
pub(crate) fn answer_changed(row: &mut Row, before: &MemoryImage, image: &MemoryImage) {
    let from = row.decimal();
    let mut count = 0u32;
    for number in from..row.decimal() {
        if before.sectors().get(number as usize) != image.sectors().get(number as usize) {
            count = count.saturating_add(1);
        }
    }
    write!(row, " {count}")
}

/// Prints the texts of some faults.
pub(crate) fn answer_texts(row: &mut Row) {
    let (sectors, long, memory) = (
        ImageFault::NotSectors,
        ImageFault::TooLong,
        ImageFault::NoMemory,
    );
    write!(
        row,
        " {sectors:?}: {sectors}; {long:?}: {long}; {memory:?}: {memory}"
    );
    let (device, twice) = (DeviceFault, DiskFault::BlockTwice);
    write!(row, "; {device:?}: {device}; {twice:?}: {twice}")
}
