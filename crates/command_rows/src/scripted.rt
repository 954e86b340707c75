//! Readers and writers that fail, stop or never end, as a row says.

use std::io::{Error, ErrorKind, Read, Result, Write};

/// How a reader ends.
#[derive(Clone, Copy)]
pub(crate) enum Ending {
    /// All bytes are read.
    Whole,
    /// The read of this number fails.
    Fails(u64),
    /// The read of this number is interrupted.
    Interrupted(u64),
    /// Line feeds without end.
    Endless,
    /// Each read is interrupted.
    AlwaysInterrupted,
}

/// Gives a text byte by byte, except for the reads that fail.
#[derive(Drop)]
pub(crate) struct Reader {
    pub(crate) text: Vec<u8>,
    pub(crate) given: usize,
    pub(crate) reads: u64,
    pub(crate) ending: Ending,
}

impl Reader {
    /// The next byte of the text, if there is one.
    fn next_byte(&mut self) -> Option<u8> {
        let byte = *self.text.get(self.given)?;
        self.given = self.given.saturating_add(1);
        Some(byte)
    }

    /// The byte of a read.
    fn read_byte(&mut self) -> Result<Option<u8>> {
        self.reads = self.reads.saturating_add(1);
        match self.ending {
            Ending::Fails(number) if number == self.reads => {
                Err(Error::from(ErrorKind::UnexpectedEof))
            }
            Ending::Interrupted(number) if number == self.reads => {
                Err(Error::from(ErrorKind::Interrupted))
            }
            Ending::AlwaysInterrupted => Err(Error::from(ErrorKind::Interrupted)),
            Ending::Endless => Ok(Some(b'\n')),
            _ => Ok(self.next_byte()),
        }
    }
}

impl Read for Reader {
    fn read(&mut self, buffer: &mut [u8]) -> Result<usize> {
        match buffer.first_mut() {
            Some(place) => match self.read_byte()? {
                Some(byte) => {
                    *place = byte;
                    Ok(1)
                }
                None => Ok(0),
            },
            None => Ok(0),
        }
    }
}

/// A writer that takes one byte at a time while it has room, and then none; one that is full fails instead. Before each byte,
/// `interruptions` writes are interrupted.
#[derive(Drop)]
pub(crate) struct Writer {
    pub(crate) taken: Vec<u8>,
    pub(crate) room: usize,
    pub(crate) is_full: bool,
    pub(crate) interruptions: u64,
    pub(crate) waits: u64,
}

impl Writer {
    /// Whether the write is interrupted again.
    fn is_interrupted(&mut self) -> bool {
        if self.waits < self.interruptions {
            self.waits += 1;
            return true;
        }
        self.waits = 0;
        false
    }
}

impl Write for Writer {
    fn write(&mut self, bytes: &[u8]) -> Result<usize> {
        if self.is_interrupted() {
            return Err(Error::from(ErrorKind::Interrupted));
        }
        if self.is_full {
            return Err(Error::from(ErrorKind::StorageFull));
        }
        match bytes.first() {
            Some(byte) if self.taken.len() < self.room => {
                self.taken.push(*byte)?;
                Ok(1)
            }
            _ => Ok(0),
        }
    }

    fn flush(&mut self) -> Result<()> {
        Ok(())
    }
}
