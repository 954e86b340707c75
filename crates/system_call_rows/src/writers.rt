//! Writers whose writes end as a row says.

use std::alloc::Global;
use std::io::{Error, ErrorKind, Result, Write};

/// A writer with a letter for each of its first writes: `i` is interrupted by a signal, `0` takes nothing, `f` fails. Any other write takes
/// its bytes.
#[derive(Drop)]
pub(crate) struct Scripted {
    letters: Vec<u8>,
    writes: usize,
    pub(crate) taken: Vec<u8>,
}

impl Scripted {
    pub(crate) fn new(alloc: Global, letters: &str) -> Result<Scripted> {
        Ok(Scripted {
            letters: letters.as_bytes().to_vec(alloc)?,
            writes: 0,
            taken: Vec::new(alloc),
        })
    }
}

impl Write for Scripted {
    fn write(&mut self, bytes: &[u8]) -> Result<usize> {
        let at = self.writes;
        self.writes = at.saturating_add(1);
        match self.letters.get(at) {
            Some(b'i') => Err(Error::from(ErrorKind::Interrupted)),
            Some(b'0') => Ok(0),
            Some(b'f') => Err(Error::from(ErrorKind::StorageFull)),
            _ => {
                self.taken.extend_from_slice(bytes)?;
                Ok(bytes.len())
            }
        }
    }

    fn flush(&mut self) -> Result<()> {
        Ok(())
    }
}
