//! Finds the parts of a message about a line: its place, its text, the forms of its operands, and what to write for foreign words.
#![tactic(auto)]

mod advice;
mod cutting;
mod draft;
mod extent;
mod foreign_signs;
mod forms;
mod intel;
mod operands;
mod parts;
mod place;
mod reserved;
mod shape;
mod showing;

pub use advice::{
    Opening, closes, directive_instead, is_undocumented_register, needs_operands, opens,
    undocumented,
};
pub use cutting::tokens_of;
pub use draft::{Draft, Spot};
pub use extent::{Extent, first_uncut};
pub use foreign_signs::{
    ONE_STATEMENT, are_statements, begins_statement, of_preprocessor, unicode_instead,
};
pub use forms::{Counts, all_firsts, firsts, is_jump, list_text, name_text, seconds, takes};
pub use intel::{in_z80, is_intel};
pub use operands::{
    DEEPEST, Operand, expression_in, form_written, is_whole_group, left_open, name_in,
};
pub use parts::{Message, Note, Place};
pub use place::{place_of, place_of_name, token_named};
pub use reserved::reserved_text;
pub use shape::{Shape, fits, halves, has_name, is_pushed};
pub use showing::{joined, shown};
