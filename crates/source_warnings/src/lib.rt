//! Finds what in sources and modules without an error looks like a mistake.
//!
//! [`find_warnings`] finds labels that nothing uses, and names of PUBLIC or EXTRN that are there twice or not used; [`find_call_warnings`]
//! finds calls of macros with too many or too few arguments. [`find_jump_warnings`] finds what in a program depends on whether a jump is
//! short or long: offsets over such a jump, and jumps that only a computed jump reaches.
#![tactic(auto)]

mod calls;
mod first_lines;
mod found;
mod jumps;
pub mod laws;
mod macros;
mod mentions;
mod own;
mod reading;
mod warning;

pub use calls::find_call_warnings;
pub use found::find_warnings;
pub use jumps::{Offset, Part, Site, Warning, find_jump_warnings};
pub use warning::{Kind, SourceWarning};
