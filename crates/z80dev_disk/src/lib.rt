//! What the commands on disks do with the bytes of an image of a disk.
//!
//! Each function takes the bytes of the files that its command reads. It changes no file: it answers the bytes to write, the text to
//! print, or why the command is refused.
#![tactic(auto)]

mod changing;
mod checking;
mod entries;
mod getting;
mod image;
pub mod laws;
mod listing;
mod name;
mod pattern;
mod putting;
mod refusal;
mod shown;
mod text;

pub use changing::{erase, mark, rename};
pub use checking::check_disk;
pub use cpm_image::{Attribute, DiskFault, DiskKind, ImageFault, Name};
pub use getting::{Gotten, get, get_all};
pub use host::{Answer, Kind, NewFile};
pub use image::{blank, disk_of, one_file};
pub use listing::{Asked, dir};
pub use name::{file_name, own_name};
pub use pattern::{is_wild, pattern_of};
pub use putting::{PutFile, put};
pub use refusal::Refusal;
pub use text::cpm_text;
