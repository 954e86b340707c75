//! A writer with little room.

use std::io::{Result, Write};

/// Takes bytes until its room is full, and then none.
#[derive(Drop)]
pub(crate) struct Room {
    pub(crate) taken: Vec<u8>,
    pub(crate) room: usize,
}

impl Write for Room {
    fn write(&mut self, bytes: &[u8]) -> Result<usize> {
        match bytes.first() {
            Some(byte) if self.taken.len() < self.room => {
                self.taken.push(*byte)?;
                Ok(1)
            }
            _ => Ok(0),
        }
    }

    fn flush(&mut self) -> Result<()> {
        Ok(())
    }
}
