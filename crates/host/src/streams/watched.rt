//! Writes to any writer of `std`.

ghost use Rattle.std.specs.Prelude.{◌≡◌, true};
ghost use Rattle.std.specs.Io.{WritesAtMost};
ghost use Rattle.std.specs.Io.KnownBytes.{WriteAppends};
ghost use Rattle.host.specs.Private.StreamSteps.{Counts};
ghost use Rattle.host.specs.Streams.Stream.{counted, stream_of};

use crate::streams::sink::{Sink, WriteFault};
use std::io::{Error, ErrorKind, Write};

/// A writer, the number of its failures, the number of interruptions, and whether it may hold bytes back. It may from the beginning, and
/// after each write.
#[derive(Drop)]
pub struct WatchedSink<W> {
    stream: W,
    failures: u64,
    interruptions: u64,
    held: bool,
}

impl<W> WatchedSink<W> {
    /// Wraps a writer that has not failed.
    pub fn new(stream: W) -> WatchedSink<W>
        ensures stream { result.stream ≡ stream }
        ensures failures { result.failures ≡ 0 }
        ensures interruptions { result.interruptions ≡ 0 }
        ensures held { result.held ≡ true }
    {
        WatchedSink {
            stream,
            failures: 0,
            interruptions: 0,
            held: true,
        }
    }

    /// The number of failures.
    pub fn failures(&self) -> u64
        ensures { result ≡ self.now.failures }
    {
        self.failures
    }

    /// The writer.
    pub fn into_stream(self) -> W
        ensures { result ≡ self.stream }
    {
        self.stream
    }

    /// Counts a failure, or an interruption if the error says that it was one.
    fn fault(&mut self, error: &Error) -> WriteFault
        ensures stream { self.new.stream ≡ self.old.stream }
        ensures counts { Counts self.old.failures self.old.interruptions self.new.failures self.new.interruptions result }
    {
        if error.kind() == ErrorKind::Interrupted && self.interruptions < u64::MAX {
            self.interruptions += 1;
            return WriteFault::Interrupted;
        }
        self.failed()
    }

    /// Counts a failure.
    fn failed(&mut self) -> WriteFault
        ensures counted { self.new ≡ record self.old { failures = counted self.old.failures } }
        ensures fault { result ≡ WriteFault.Failed }
    {
        self.failures = self.failures.saturating_add(1);
        WriteFault::Failed
    }
}

impl<W: Write> WatchedSink<W> {
    /// Lets the writer take some of the bytes, which a buffer may hold back from then on.
    fn take(&mut self, bytes: &[u8]) -> Result<usize, Error>
        ensures bound { WritesAtMost result bytes.now }
        ensures bytes { WriteAppends (W.contents self.old.stream) (W.contents self.new.stream) result bytes.now }
        ensures failures { self.new.failures ≡ self.old.failures }
        ensures interruptions { self.new.interruptions ≡ self.old.interruptions }
        ensures held { self.new.held ≡ true }
    {
        self.held = true;
        self.stream.write(bytes)
    }
}

impl<W: Write> Sink for WatchedSink<W> {
    ghost stream = { λ w. stream_of (W.contents w.stream) w.failures w.interruptions w.held };

    fn write(&mut self, bytes: &[u8]) -> Result<usize, WriteFault> {
        match self.take(bytes) {
            // A writer that never takes a byte would be called for ever.
            Ok(0) => Err(self.failed()),
            Ok(count) => Ok(count),
            Err(error) => Err(self.fault(&error)),
        }
    }

    fn flush(&mut self) -> Result<(), WriteFault> {
        match self.stream.flush() {
            Ok(()) => {
                self.held = false;
                Ok(())
            }
            Err(error) => Err(self.fault(&error)),
        }
    }
}
