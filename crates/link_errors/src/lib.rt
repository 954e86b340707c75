//! Reports what is said of the modules of sources together, and of the program that they make.
//!
//! [`put_link_errors`] reports names that are public twice or nowhere, jumps that do not reach their targets, and programs that are too large.
//! Of a program, [`warnings_of`] and [`put_mistakes`] report the warnings, and [`long_jump_notes`] why its long jumps are long.
#![tactic(auto)]

mod joined;
mod linking;
mod longs;
mod mistakes;
mod reaching;
mod warned;

pub use linking::{name_of, put_link_errors, put_plain};
pub use longs::long_jump_notes;
pub use mistakes::put_mistakes;
pub use warned::warnings_of;
