//! Finds all errors of a source, not only the first.
//!
//! [`find_errors`] answers them, each with its line as it is assembled and the name that it is about. An error makes no further ones: a
//! line that cannot be parsed still defines its name, and a name that is defined again stands for what it was first defined as.
#![tactic(auto)]

mod clashing;
mod counting;
mod finding;
mod judging;
mod mending;
mod reading;
mod scanning;
mod using;
mod whole;

pub use finding::{Finding, Findings, Known};
pub use scanning::mended_text;
pub use whole::find_errors;
