//! The limits of Z80 programs under CP/M 2.2, and of the modules and source files that they are made of.

/// Where a program begins: 0100H, as every program under CP/M.
pub const FIRST_PLACE: u32 = 0x100;

/// The most bytes of a program, from 0100H to FCFFH.
pub const LONGEST_PROGRAM: u32 = 64_512;

/// The most statements of a module, and of a program.
pub const MOST_STATEMENTS: usize = 20_000;

/// The most bytes of a statement.
pub const MOST_BYTES: usize = 65_535;

/// The most labels, names of EQU and externals of a module, together.
pub const MOST_NAMES: usize = 40_000;

/// The most bytes of a source file, and so the most lines of one; and the most bytes of any other file that is read.
pub const LONGEST_TEXT: usize = 16_777_216;
