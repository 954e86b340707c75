//! Modules and their object files: writes the one object file of a module, and reads the module of an object file, field by field.
//!
//! A [`Module`] is what the assembler makes from one source, an object file holds, and the linker joins. It consists of numbers, bytes and
//! names; the definition `IsModule` says which of them an object file may hold. [`write`] answers the file of a module, and [`read`] the
//! module of a file, or its first error. Fields are read from the front of bytes and appended to the end of a file: bytes, words, names,
//! and expressions in postfix order.
#![tactic(auto)]

mod code;
mod fault;
mod field;
mod field_fault;
mod header;
mod hole;
mod label;
pub mod laws;
mod module;
mod names;
mod operator;
mod postfix;
mod put;
mod reading;
mod room;
mod statement;
mod writing;

pub use asm_parse::Expr;
pub use code::{BRANCHES, CONDITIONS};
pub use fault::ObjectFault;
pub use field::{byte, counted, number, run, word};
pub use field_fault::FieldFault;
pub use module::{Hole, LONGEST_NAME, Label, Module, Statement, Width, ends_in_byte};
pub use operator::{BINARIES, UNARIES};
pub use postfix::expr_of;
pub use put::{put_byte, put_counted, put_expr, put_word};
pub use reading::read;
pub use writing::write;
pub use z80_instr::{Branch, ShortCond};
