//! The limits of a program. The linker has its own: the checker shares nothing with it.

/// The address at which every program begins under CP/M: 0100H.
pub const FIRST_PLACE: u32 = 0x100;

/// The most statements of a program.
pub const MOST_STATEMENTS: usize = 20_000;

/// The most bytes of a statement.
pub const MOST_BYTES: u32 = 65_535;

/// The most bytes of a program, from 0100H to FCFFH.
pub const LONGEST_PROGRAM: u32 = 64_512;
