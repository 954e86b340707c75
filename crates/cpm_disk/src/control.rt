//! File control blocks of CP/M 2.2 in a memory whose addresses wrap around, and the reasons why a system call stops a run.

mod bytes;
mod entry;
mod fcb;
mod stop;

pub use bytes::{bytes_at, put_bytes, put_field};
pub use entry::put_entry;
pub use fcb::{
    CR_OFFSET, FCB_BYTES, Fcb, NEW_NAME_OFFSET, QUESTION, R0_OFFSET, R1_OFFSET, R2_OFFSET,
};
pub use stop::{Stop, stop_of};
