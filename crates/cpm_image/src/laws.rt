//! Laws of images and directories, as functions that do nothing.

mod directory;
mod skew;

pub use directory::{are_entries, is_name, one_judgement, one_list_of_broken, same_bytes};
pub use skew::distinct_sectors;
