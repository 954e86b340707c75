//! Laws, as functions that do nothing. A caller calls one to use its clauses.

mod meanings;
mod names;

pub use meanings::{level_by_level, refs, told, valued};
pub use names::{distinct, few, given, one_more};
