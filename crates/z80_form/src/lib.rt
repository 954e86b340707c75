//! Finds the instruction of the Zilog Z80 that a mnemonic and the forms of its operands name.
//!
//! [`mnemonic_of`] and [`name_of`] look up words in upper or lower case. [`instruction`] answers the instruction that a mnemonic
//! and operands name, with zeros in place of its numbers, and [`with_numbers`] puts numbers in. The words and the rows are those of
//! the Z80 CPU User Manual (UM0080), documented forms only. Nothing here takes memory.
#![tactic(auto)]

mod buffer;
mod field;
mod form;
pub mod laws;
mod loads;
mod mnemonic;
mod name;
mod part;
mod spelling;

pub use field::{Field, field_of, with_number, with_numbers};
pub use form::{Form, Pointed};
pub use mnemonic::{MNEMONICS, Mnemonic, mnemonic_of};
pub use name::{Name, name_of};
pub use spelling::instruction;
