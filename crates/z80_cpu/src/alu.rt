//! The arithmetic and logic unit of the Zilog Z80: the results of operations on bytes and words, and the flags that they leave.
//!
//! The terms and the order are those of the Z80 CPU User Manual (UM0080). Each operation is a method of [`Flags`] that returns its
//! result. No function allocates memory.

mod bits;
mod bytes;
mod decimal;
mod display;
mod flags;
mod rotations;
mod words;

pub use flags::Flags;
pub use rotations::{reset_bit, set_bit};
