//! Reads object files, and writes them again.

use crate::modules::show_module;
use crate::parts::Parts;
use crate::texts::{hexadecimal, show_difference};
use row_text::Row;
use std::alloc::{AllocError, Global};
use zmo_object::{ObjectFault, read, write};

/// Prints the module of an object file and whether it is written as another file, or the first error of the bytes.
pub(crate) fn answer_object(row: &mut Row, bytes: &[u8]) {
    match read(row.alloc(), bytes) {
        Ok(module) => {
            let written = write(row.alloc(), &module);
            show_difference(row, written, bytes, "written otherwise:");
            show_module(row, &module)
        }
        Err(fault) => write!(row, " {fault:?}"),
    }
}

/// The object file with other bytes from an offset on.
fn changed(
    alloc: Global,
    object: &[u8],
    offset: usize,
    bytes: &[u8],
) -> Result<Vec<u8>, AllocError> {
    let mut changed = object.to_vec(alloc)?;
    for (place, byte) in changed.iter_mut().skip(offset).zip(bytes) {
        *place = *byte;
    }
    Ok(changed)
}

/// Does the same for the object file of the rows, with other bytes from an offset on.
pub(crate) fn answer_with(row: &mut Row, object: &[u8]) {
    let offset = row.decimal() as usize;
    let bytes = hexadecimal(row);
    match changed(row.alloc(), object, offset, &bytes) {
        Ok(changed) => answer_object(row, &changed),
        Err(_) => row.refuse("no memory"),
    }
}

/// The object file without a name that has one statement and the external F.
fn object_around(alloc: Global, magic: &[u8], statement: &[u8]) -> Result<Vec<u8>, AllocError> {
    let mut object = magic.to_vec(alloc)?;
    object.extend_from_slice(b"\0\0\x01\0\0\0\0\0\x01\0")?;
    object.extend_from_slice(statement)?;
    object.extend_from_slice(b"\x01F")?;
    Ok(object)
}

/// Does the same for an object file without a name that has one statement, which begins after 14 bytes, and the
/// external F.
pub(crate) fn answer_statement(row: &mut Row) {
    let magic = row.word();
    let statement = hexadecimal(row);
    match object_around(row.alloc(), magic.as_bytes(), &statement) {
        Ok(object) => answer_object(row, &object),
        Err(_) => row.refuse("no memory"),
    }
}

/// Adds the error of bytes, or that they are an object file.
fn add_fault(row: &mut Row, parts: &mut Parts, bytes: &[u8]) {
    let mut part = Row::new(row.alloc(), "");
    match read(row.alloc(), bytes) {
        Ok(_) => write!(part, "an object"),
        Err(fault) => write!(part, "{fault:?}"),
    }
    parts.add(row, &part)
}

/// An object file with one byte more.
fn longer(alloc: Global, object: &[u8]) -> Result<Vec<u8>, AllocError> {
    let mut longer = object.to_vec(alloc)?;
    longer.push(0)?;
    Ok(longer)
}

/// Prints the error of the first 0, 1, 2 and so on bytes of an object file, and of the file with one byte more.
pub(crate) fn answer_cuts(row: &mut Row, object: &[u8]) {
    let mut parts = Parts::new(row.alloc());
    for len in 0..object.len() {
        add_fault(row, &mut parts, &object[..len]);
    }
    match longer(row.alloc(), object) {
        Ok(longer) => add_fault(row, &mut parts, &longer),
        Err(_) => row.refuse("no memory"),
    }
    parts.show(row)
}

/// Whether bytes have an error, or are an object file that is written as these bytes.
fn is_faulty_or_same(alloc: Global, bytes: &[u8]) -> Result<bool, AllocError> {
    match read(alloc, bytes) {
        Ok(module) => Ok(write(alloc, &module)?.as_slice() == bytes),
        Err(ObjectFault::NoMemory) => Err(AllocError),
        Err(_) => Ok(true),
    }
}

/// Whether that holds of an object file with each value of one byte.
fn holds_at(alloc: Global, object: &[u8], at: usize) -> Result<bool, AllocError> {
    let mut changed = object.to_vec(alloc)?;
    for value in 0..=255u8 {
        if let Some(byte) = changed.get_mut(at) {
            *byte = value;
        }
        if !is_faulty_or_same(alloc, &changed)? {
            return Ok(false);
        }
    }
    Ok(true)
}

/// Prints the numbers of those bytes of an object file that have a value with which it is written as another file.
pub(crate) fn answer_changes(row: &mut Row, object: &[u8]) {
    for at in 0..object.len() {
        match holds_at(row.alloc(), object, at) {
            Ok(true) => {}
            Ok(false) => write!(row, " byte {at}"),
            Err(_) => row.refuse("no memory"),
        }
    }
    write!(row, " end")
}
