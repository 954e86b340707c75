//! Says of an error of a source where in its line it is, what it means, and what to write instead.
//!
//! [`message`] answers the message of one error.
#![tactic(auto)]

mod blocks;
mod conditions;
mod telling;
mod undefined;

pub use error_lines::{Before, SourceLines, empty_parameter, opener_of};
pub use message_texts::{Message, Note, Place, place_of_name, shown};
pub use telling::message;
