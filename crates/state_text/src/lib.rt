//! Writes registers, memory, instructions and addresses as text, and finds labels and registers by their names.
#![tactic(auto)]

mod breakpoint;
mod labels;
pub mod laws;
mod printing;
mod registers;

pub use breakpoint::{Breakpoint, Condition};
pub use labels::{Labels, Symbol, put_label};
pub use printing::{
    put_blanks, put_byte, put_byte_number, put_characters, put_column, put_instr, put_memory,
    put_number, put_registers, put_word, put_word_number, shown_character,
};
pub use registers::{RegisterName, is_same_name, register_limit, register_named};
