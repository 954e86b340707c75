//! The Zilog Z80 with 64 KB of memory: one step of each documented instruction, or many.
//!
//! [`Cpu`] has the registers, [`Memory`] the bytes. [`step`] carries out the instruction at PC, by the Z80 CPU User Manual (UM0080), and
//! [`run`] makes many such steps. The modules `opcodes`, `pages` and `rows` exist only for speed: they are the opcode table once more,
//! with a function for each opcode. The definition of a step, in `specs/Turn.antt`, does not use them; it uses the encodings of
//! `z80_instr` and the effects of `z80_cpu`.
#![tactic(auto)]

pub mod laws;
mod opcodes;
mod pages;
mod rows;
mod runs;
mod turn;

pub use runs::{Stop, Watch, run};
pub use turn::step;
pub use z80_cpu::{Cpu, Flags, MEMORY_SIZE, Memory, Registers};
pub use z80_turns::outcome;
