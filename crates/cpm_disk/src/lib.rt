//! Disks of CP/M 2.2 in two formats, as maps of files, and the file control blocks by which programs name files.
//!
//! What an operation makes of the directory, or why it is refused, is decided before anything is written: `operations` answers it, and
//! `disk` carries it out on the device. If the device fails meanwhile, each directory entry is as it was or as it was to be; whichever it
//! is, the directory keeps its rules.
//!
//! `control` reads and writes file control blocks in a memory whose addresses wrap around. [`words`] makes the command tail and the first bytes
//! of the two default file control blocks of the words after a command.
#![tactic(auto)]

mod block;
mod change;
mod control;
mod copying;
mod disk;
mod faults;
mod nearby;
mod operations;
mod placement;
mod reader;
mod records;
pub mod words;
mod writable;

pub use control::{
    CR_OFFSET, FCB_BYTES, Fcb, NEW_NAME_OFFSET, QUESTION, R0_OFFSET, R1_OFFSET, R2_OFFSET, Stop,
    bytes_at, put_bytes, put_entry, put_field, stop_of,
};
pub use cpm_image::{Attribute, Broken, DiskFault, DiskKind, Listed, Name, Pattern, Space, Usage};
pub use disk::Disk;
pub use faults::faults_of;
