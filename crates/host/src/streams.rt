//! Byte streams whose failures have a cause.
//!
//! The readers and writers of `std` do not tell a contract whether they failed or were interrupted. An [`Input`] and a [`Sink`] count it,
//! so a caller can promise that it fails only if its stream failed.

mod input;
mod memory;
mod sink;
mod watched;
mod writing;

pub use input::{Bytes, Input, ReadFault, Watched};
pub use memory::MemorySink;
pub use sink::{Sink, WriteFault};
pub use watched::WatchedSink;
pub use writing::{WriteFailed, flush, print, put, put_all, tell};
