//! Modules and their labels.

mod hole;
mod statement;

pub use hole::{Hole, Width, ends_in_byte};
pub use statement::Statement;

/// The most bytes of a name. In an object file its length is one byte.
pub const LONGEST_NAME: usize = 255;

/// A name for the address of a statement.
#[derive(Debug, Drop)]
pub struct Label {
    /// The number of the statement; the count of statements means their end.
    pub statement: u16,
    pub name: Vec<u8>,
}

/// What the assembler makes from one source, an object file holds, and the linker joins.
#[derive(Debug, Drop)]
pub struct Module {
    /// 255 bytes at most.
    pub name: Vec<u8>,
    /// The source says ORG 0100H, so this module has to be the first of the program.
    pub begins: bool,
    /// The number of the label at which the program is entered, if the source says so.
    pub entry: Option<u16>,
    /// Whether a `JR` of its source may become a `JP`.
    pub grow: bool,
    pub statements: Vec<Statement>,
    /// In the order in which the source defines them.
    pub labels: Vec<Label>,
    /// The numbers of the labels that other modules may use, ascending.
    pub publics: Vec<u16>,
    /// The names that this module uses and other modules define.
    pub externals: Vec<Vec<u8>>,
}
