//! The registers of the Zilog Z80 and 64 KB of memory, and what each documented instruction does to them, by the Z80 CPU User
//! Manual (UM0080).
//!
//! [`Cpu`] has the registers, [`Memory`] the bytes, and [`Cpu::execute`] carries out an instruction, with PC at the next one.
//! [`Flags`] is the arithmetic and logic unit: each operation is a method that answers its result and leaves its flags.
//! `z80_machine` finds the instruction at PC. Time, interrupts and ports are left out: `IN` gives FFH, `OUT` does nothing, and R is a
//! plain byte.
#![tactic(auto)]

mod alu;
mod arithmetic;
mod blocks;
mod conditions;
mod display;
mod exchange;
mod execute;
mod jumps;
mod memory;
mod operands;
mod registers;
mod rotations;
mod stack;
mod words;

pub use alu::{Flags, reset_bit, set_bit};
pub use blocks::PORT_VALUE;
pub use memory::{MEMORY_SIZE, Memory};
pub use operands::displaced;
pub use registers::{Cpu, Registers};
