//! How a debugger and a trace show numbers, registers, memory and instructions.

mod columns;
mod instructions;
mod memory;
mod registers;
mod row;
mod words;

pub use columns::{put_blanks, put_column, put_number, put_word};
pub use instructions::{put_byte, put_byte_number, put_instr, put_word_number};
pub use memory::{put_characters, put_memory, shown_character};
pub use registers::put_registers;
