//! Replaces the names in the lines of a macro's body, and finds the arguments of a call.

mod called;
mod local;
mod names;
mod whole_names;

pub use called::arguments;
pub use names::Names;
pub use whole_names::{Replacements, after, replace};
