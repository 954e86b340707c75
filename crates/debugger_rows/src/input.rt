//! Reads what is debugged.

use cpm_console::MemoryConsole;
use cpm_disk::{Disk, DiskKind};
use cpm_image::MemoryImage;
use debugger::{Arrival, History, Symbol};
use std::alloc::Global;

/// A program with its bytes, what is typed before it starts, and the bytes of a record.
#[derive(Clone, Copy)]
pub(crate) struct Debugged<'a> {
    pub(crate) file: &'a [u8],
    pub(crate) typed: &'a str,
    pub(crate) recorded: &'a [Arrival],
}

/// The beginning of a program on an empty disk.
pub(crate) fn begin<'a>(alloc: Global, program: Debugged<'a>) -> Option<History<'a>> {
    let image = MemoryImage::blank(alloc, DiskKind::EightInch).ok()?;
    let disk = Disk::mount(alloc, image).ok()?;
    let typed = Vec::from_slice(alloc, program.typed.as_bytes()).ok()?;
    let console = MemoryConsole::new(alloc, typed);
    History::new(alloc, program.file, &[], disk, console, program.recorded).ok()
}

/// A byte of a record: a decimal number of turns, a colon, and two hexadecimal digits.
fn arrival_of(word: &str) -> Option<Arrival> {
    let (turn, byte) = word.split_once(':')?;
    let turn = u64::from_str_radix(turn, 10).ok()?;
    let byte = u8::from_str_radix(byte, 16).ok()?;
    Some(Arrival { turn, byte })
}

/// The bytes of a record.
pub(crate) fn record_of(alloc: Global, words: &str) -> Option<Vec<Arrival>> {
    let mut recorded = Vec::new(alloc);
    for word in words.split_ascii_whitespace() {
        recorded.push(arrival_of(word)?).ok()?;
    }
    Some(recorded)
}

/// The labels of a line: pairs of an address in hexadecimal digits and a name.
pub(crate) fn symbols_of<'a>(alloc: Global, line: &'a str) -> Option<Vec<Symbol<'a>>> {
    let mut symbols = Vec::new(alloc);
    let mut words = line.split_ascii_whitespace();
    while let Some(digits) = words.next() {
        let address = u16::from_str_radix(digits, 16).ok()?;
        let name = words.next()?.as_bytes();
        symbols.push(Symbol { address, name }).ok()?;
    }
    Some(symbols)
}
