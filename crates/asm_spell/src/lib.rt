//! Parses the tokens of a line: its label, its word and its operands, with names as written.
//!
//! [`statement`] answers the one line that the tokens are, or the first error. What names stand for, and whether values fit, is
//! checked elsewhere.
#![tactic(auto)]

mod cut;
mod directive;
mod fault;
mod instruction;
mod jump;
pub mod laws;
mod line;
mod operand;
mod spelling;

pub use asm_parse::{KeptName, is_name};
pub use directive::DIRECTIVES;
pub use fault::StmtFault;
pub use line::{Body, Line, Value};
pub use spelling::statement;
pub use z80_instr::Branch;
