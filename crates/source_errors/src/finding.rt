//! Finds all errors of a source.

use asm_expr::Names;
use asm_module::Why;
use asm_names::{NameTable, SourceLine};

/// An error of a source.
#[derive(Debug, Drop)]
pub struct Finding {
    /// The number that the line bears: its own, or that of the outermost call or REPT.
    pub number: u32,
    /// The line as it is assembled, with the arguments of a call in place of its parameters.
    pub text: Vec<u8>,
    pub why: Why,
    /// The name that the error is about, in upper case.
    pub name: Option<Vec<u8>>,
}

/// What is known of a source. A line that cannot be parsed counts as the name that it defines, alone.
#[derive(Debug, Drop)]
pub struct Known {
    pub lines: Vec<SourceLine>,
    /// What each name is, and in which of the lines it is defined.
    pub table: NameTable,
    /// What each name stands for.
    pub values: Names,
}

/// All errors of a source.
#[derive(Debug, Drop)]
pub struct Findings {
    pub findings: Vec<Finding>,
    /// What is known of the source, if its expansion does not stop and it has not too many statements or names.
    pub known: Option<Known>,
}
