//! The files and streams that a command works on, and the steps that all commands share: files are read, an image is claimed, an answer is
//! carried out, and the end is reported.
//!
//! A [`Host`] is what a command works on: files by their paths ([`Files`]), and the three standard streams. [`read_image`] only reads an image;
//! [`claim`] locks it and reads it, and [`keep`] replaces a claimed one. A call answers an [`Answer`] and touches nothing. [`finish`] does it,
//! on [`Files`] and an output, and says how that ended; [`report`] writes the line of that end. [`MemoryFiles`] are files in memory, and
//! [`FailingFiles`] files some of whose calls fail.
//!
//! An [`Input`] and a [`Sink`] are streams that count their failures. [`Watched`] makes an [`Input`] of any reader, and [`WatchedSink`] a [`Sink`]
//! of any writer; [`Bytes`] and [`MemorySink`] are in memory.
#![tactic(auto)]

mod answer;
mod end;
mod ending;
mod failing;
mod files;
mod host;
mod image;
mod memory;
mod paths;
mod reading;
mod reporting;
mod same_path;
mod streams;
mod warning;

pub use answer::{Answer, Kind, NewFile};
pub use end::{DONE, End, FILE_FAULT, REFUSED, USAGE, report};
pub use ending::finish;
pub use failing::{FailingFiles, Failure};
pub use files::{Claimed, Files, Placed, Unread, replace};
pub use host::{Ended, Host};
pub use image::{Image, claim, keep, read_image};
pub use memory::{MemoryFiles, Written};
pub use paths::{names_no_image, names_work, over};
pub use reading::{read, read_all, read_if_given};
pub use reporting::{put_lines, refuse_value, report_any, report_line, report_lines};
pub use same_path::is_same_path;
pub use streams::{
    Bytes, Input, MemorySink, ReadFault, Sink, Watched, WatchedSink, WriteFailed, WriteFault,
    flush, print, put, put_all, tell,
};
pub use warning::warnings;
