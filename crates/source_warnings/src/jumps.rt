//! What in a program depends on whether a jump is short or long.

mod entries;
mod near;
mod offsets;
mod overs;
mod part;
mod warnings;

pub use offsets::Offset;
pub use part::{Part, Site};
pub use warnings::{Warning, find_jump_warnings};
