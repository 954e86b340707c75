//! Says what a statement makes once its names are known: bytes, with a fix-up for each value that depends on addresses; a jump; or space.
//!
//! [`settle`] answers the piece of a program that a statement and its operands make, or the first error of their values. The caller gives
//! the names, and each name in the operands is one of them.
#![tactic(auto)]

mod cell;
mod code;
mod data;
mod defined;
mod field;
pub mod laws;
mod piece;
mod settling;
mod size;
mod space;

pub use asm_spell::{Body, Branch, Line as Stmt, StmtFault, Value, is_name, statement};
pub use cell::{Cell, Filling};
pub use code::long_jump;
pub use defined::are_defined;
pub use piece::{Made, Piece};
pub use settling::settle;
pub use size::size_of;
pub use zmo_object::{Hole, Width};
