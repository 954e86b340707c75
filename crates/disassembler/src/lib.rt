//! Writes a source text that builds to the bytes of a .COM program.
//!
//! [`disassemble`] answers the text. It builds each text that it makes, and answers one only if the bytes are those of the program.
#![tactic(auto)]

mod code;
mod data;
mod disassembly;
mod entries;
mod fault;
mod items;
mod labels;
mod lines;
mod names;
mod place;
mod reference;
mod statements;

pub use disassembly::disassemble;
pub use fault::{DisassemblyFault, fault_text};
pub use labels::{Label, read_labels};
