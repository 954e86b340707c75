//! Laws about the grammar, about expressions of an object file and about distances, as functions that do nothing. A caller calls one to
//! use its clauses.

mod grammar;
mod values;

pub use grammar::{one_phrase, parsed};
pub use values::{one_distance, one_expression, same_items};
