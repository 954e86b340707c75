//! The functions of the console, and the BIOS entries that use it.

mod line;
mod raw;
mod reply;
mod texts;

pub use line::read_line;
pub use raw::{direct, is_ready, put_raw, take_raw};
pub use reply::Reply;
pub use texts::{print, put, take};
