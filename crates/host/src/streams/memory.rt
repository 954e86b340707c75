//! Writes to memory.

ghost use Rattle.std.specs.Prelude.{◌≡◌, [], Some, false};
ghost use Rattle.host.specs.Streams.Stream.{stream_of};

use crate::streams::sink::{Sink, WriteFault};
use std::alloc::Global;

/// A writer that keeps its bytes in memory. It fails only if memory runs out.
#[derive(Debug, Drop)]
pub struct MemorySink {
    bytes: Vec<u8>,
    failures: u64,
}

impl MemorySink {
    /// A writer without bytes, which has not failed.
    pub fn new(alloc: Global) -> MemorySink
        ensures bytes { result.bytes.items ≡ [] }
        ensures failures { result.failures ≡ 0 }
    {
        MemorySink {
            bytes: Vec::new(alloc),
            failures: 0,
        }
    }

    /// The bytes that were written.
    pub fn into_bytes(self) -> Vec<u8>
        ensures { result ≡ self.bytes }
    {
        self.bytes
    }

    /// How often memory ran out.
    pub fn failures(&self) -> u64
        ensures { result ≡ self.now.failures }
    {
        self.failures
    }
}

impl Sink for MemorySink {
    ghost stream = { λ m. stream_of (Some m.bytes.items) m.failures 0 false };

    fn write(&mut self, bytes: &[u8]) -> Result<usize, WriteFault> {
        if self.bytes.extend_from_slice(bytes).is_ok() {
            return Ok(bytes.len());
        }
        self.failures = self.failures.saturating_add(1);
        Err(WriteFault::Failed)
    }

    fn flush(&mut self) -> Result<(), WriteFault> {
        Ok(())
    }
}
