//! Writes bytes to a stream.

ghost use Rattle.std.specs.Prelude.{◌<◌, length};
ghost use Rattle.host.specs.Streams.Stream.{Stream};
ghost use Rattle.host.specs.Streams.Writing.{Flushes, Writes};

/// Why a write takes no bytes.
#[derive(Clone, Copy, Debug, PartialEq, Eq)]
pub enum WriteFault {
    /// A signal interrupted the write, which may be tried again.
    Interrupted,
    /// The writer failed.
    Failed,
}

/// A writer that counts its failures, and how often a signal interrupted it.
pub trait Sink {
    /// The bytes that were written, if they are known, the number of failures and the number of interruptions, and whether a buffer may
    /// hold bytes back.
    ghost stream: { Self → Stream };

    /// Writes some of the bytes, at least one, and answers how many.
    ///
    /// # Errors
    ///
    /// [`WriteFault::Interrupted`] and [`WriteFault::Failed`]. Then nothing is written.
    fn write(&mut self, bytes: &[u8]) -> Result<usize, WriteFault>
        requires some { 0 < length bytes.now }
        ensures { Writes (stream self.old) (stream self.new) bytes.now result };

    /// Writes out the bytes that a buffer may hold back.
    ///
    /// # Errors
    ///
    /// [`WriteFault::Interrupted`] and [`WriteFault::Failed`].
    fn flush(&mut self) -> Result<(), WriteFault>
        ensures { Flushes (stream self.old) (stream self.new) result };
}
