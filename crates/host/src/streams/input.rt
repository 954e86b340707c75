//! Reads bytes from a stream.

ghost use Rattle.std.specs.Prelude.{◌≡◌, ◌+◌, ◌-◌, ◌^◌, ◌<◌, ◌≤◌, ℕ, Bool, false, List, Option};
ghost use Rattle.std.specs.Io.KnownBytes.{ReadConsumes};
ghost use Rattle.std.specs.Io.{ReadsAtMost};
ghost use Rattle.host.specs.Streams.Reading.{interruption_count, is_failure};

use std::io::{ErrorKind, Read};

/// Why a read answers no bytes.
#[derive(Clone, Copy, Debug, PartialEq, Eq)]
pub enum ReadFault {
    /// A signal interrupted the read, which may be tried again.
    Interrupted,
    /// The stream failed. It must not be read again.
    Failed,
}

/// A reader that counts its reads and says in contracts whether it has failed. Bytes in memory, [`Bytes`], never fail. [`Watched`] makes
/// one of any other reader.
pub trait Input {
    /// The bytes that later reads will answer, if they are known.
    ghost remaining: { Self → Option (List ℕ) };

    /// Whether a read has failed.
    ghost failed: { Self → Bool };

    /// The number of reads.
    ghost reads: { Self → ℕ };

    /// The number of reads that were interrupted.
    ghost interruptions: { Self → ℕ };

    /// Reads some bytes into the front of a buffer, and answers how many. It answers 0 only at the end, or if the buffer has no room.
    ///
    /// # Errors
    ///
    /// [`ReadFault::Interrupted`]: the same bytes are still to be read. [`ReadFault::Failed`]: the reader must not be used again.
    fn read(&mut self, buffer: &mut [u8]) -> Result<usize, ReadFault>
        requires sound { failed self.old ≡ false }
        requires room { reads self.old < 2 ^ 64 - 1 }
        ensures bound { ReadsAtMost result buffer.new }
        ensures bytes { ReadConsumes (remaining self.old) (remaining self.new) result buffer.new }
        ensures failed { failed self.new ≡ is_failure result }
        ensures reads { reads self.new ≡ reads self.old + 1 }
        ensures interruptions { interruptions self.new ≡ interruptions self.old + interruption_count result };
}

/// Bytes in memory.
#[derive(Debug, Drop)]
pub struct Bytes<'a> {
    rest: &'a [u8],
    reads: u64,
}

impl<'a> Bytes<'a> {
    /// A reader of these bytes; it has read none yet.
    pub fn new(bytes: &'a [u8]) -> Bytes<'a>
        ensures bytes { result.rest ≡ bytes.entry }
        ensures reads { result.reads ≡ 0 }
    {
        Bytes {
            rest: bytes,
            reads: 0,
        }
    }
}

impl Input for Bytes<'_> {
    ghost use Rattle.std.specs.Prelude.{Some};

    ghost remaining = { λ b. Some b.rest.now };

    ghost failed = { λ _. false };

    ghost reads = { λ b. b.reads };

    ghost interruptions = { λ _. 0 };

    fn read(&mut self, buffer: &mut [u8]) -> Result<usize, ReadFault> {
        self.reads += 1;
        match Read::read(&mut self.rest, buffer) {
            Ok(count) => Ok(count),
            Err(_) => unreachable!(),
        }
    }
}

/// A reader, whether it has failed, the number of reads, and how many of these were interrupted.
#[derive(Drop)]
pub struct Watched<R> {
    stream: R,
    failed: bool,
    reads: u64,
    interruptions: u64,
    ghost some: { interruptions ≤ reads },
}

impl<R> Watched<R> {
    /// Wraps a reader that has not failed and was not read yet.
    pub fn new(stream: R) -> Watched<R>
        ensures stream { result.stream ≡ stream }
        ensures failed { result.failed ≡ false }
        ensures reads { result.reads ≡ 0 }
        ensures interruptions { result.interruptions ≡ 0 }
    {
        Watched {
            stream,
            failed: false,
            reads: 0,
            interruptions: 0,
        }
    }

    /// Whether a read has failed.
    pub fn has_failed(&self) -> bool
        ensures { result ≡ self.now.failed }
    {
        self.failed
    }

    /// The number of reads.
    pub fn reads(&self) -> u64
        ensures { result ≡ self.now.reads }
    {
        self.reads
    }
}

impl<R: Read> Input for Watched<R> {
    ghost remaining = { λ w. R.remaining w.stream };

    ghost failed = { λ w. w.failed };

    ghost reads = { λ w. w.reads };

    ghost interruptions = { λ w. w.interruptions };

    fn read(&mut self, buffer: &mut [u8]) -> Result<usize, ReadFault> {
        self.reads += 1;
        match self.stream.read(buffer) {
            Ok(count) => Ok(count),
            Err(error) if error.kind() == ErrorKind::Interrupted => {
                self.interruptions += 1;
                Err(ReadFault::Interrupted)
            }
            Err(_) => {
                self.failed = true;
                Err(ReadFault::Failed)
            }
        }
    }
}
