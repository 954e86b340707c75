//! Rows of bytes in memory, and of file control blocks.

use crate::machine::Machine;
use row_text::Row;
use std::alloc::{AllocError, Global};
use z80_cpu::Memory;

/// Writes bytes from an address on, even across the top of memory.
pub(crate) fn put(memory: &mut Memory, address: u16, bytes: &[u8]) {
    let mut next = address;
    for byte in bytes {
        memory.set(next, *byte);
        next = next.wrapping_add(1);
    }
}

/// A row that writes bytes: the address and the bytes.
pub(crate) fn put_row(row: &mut Row, machine: &mut Machine) {
    let address = row.hexadecimal();
    put(&mut machine.memory, address, &row.bytes())
}

/// Writes a file control block with a name, EX, S2 and CR; its other bytes are 0.
fn put_block(memory: &mut Memory, address: u16, name: &[u8], place: [u8; 3]) {
    let [extent, high, current] = place;
    put(memory, address, &[0; 36]);
    put(memory, address.wrapping_add(1), name);
    memory.set(address.wrapping_add(12), extent);
    memory.set(address.wrapping_add(14), high);
    memory.set(address.wrapping_add(32), current);
}

/// A row that writes a file control block: the address, EX, S2, CR and the name.
pub(crate) fn put_fcb(row: &mut Row, machine: &mut Machine) {
    let address = row.hexadecimal();
    let (extent, high) = (row.hexadecimal_byte(), row.hexadecimal_byte());
    let place = [extent, high, row.hexadecimal_byte()];
    let name = row.bytes();
    if name.len() != 11 {
        return row.refuse("a name has eleven bytes");
    }
    put_block(&mut machine.memory, address, &name, place)
}

/// The bytes of memory from an address on.
fn bytes_at(
    alloc: Global,
    memory: &Memory,
    address: u16,
    count: u32,
) -> Result<Vec<u8>, AllocError> {
    let mut next = address;
    let mut bytes = Vec::new(alloc);
    for _ in 0..count {
        bytes.push(memory.get(next))?;
        next = next.wrapping_add(1);
    }
    Ok(bytes)
}

/// A row that prints bytes of memory: the address and how many.
pub(crate) fn answer_bytes(row: &mut Row, memory: &Memory) {
    let address = row.hexadecimal();
    match bytes_at(row.alloc(), memory, address, row.decimal()) {
        Ok(bytes) => row.write_runs(&bytes),
        Err(_) => row.refuse("no memory"),
    }
}

/// A row that prints EX, S2 and CR of a file control block.
pub(crate) fn answer_place(row: &mut Row, memory: &Memory) {
    let address = row.hexadecimal();
    let extent = memory.get(address.wrapping_add(12));
    let high = memory.get(address.wrapping_add(14));
    let current = memory.get(address.wrapping_add(32));
    write!(row, " EX {extent:02X} S2 {high:02X} CR {current:02X}")
}
