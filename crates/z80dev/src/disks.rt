//! The commands on images of disks.

mod change;
mod changing;
mod getting;
mod jobs;
mod listing;
mod names;

pub use jobs::do_on_disk;
