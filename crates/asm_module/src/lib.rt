//! Assembles one source.
//!
//! [`assemble`] answers the module of a source, or its first error; [`assemble_listed`] also says which lines its statements come from;
//! [`assemble_with`] lets a written `JR` grow. [`read_source`] answers the lines of a source's expansion up to the first that cannot be
//! parsed, and [`labels_of`], [`externals_of`], [`publics_of`], [`begins`] and [`entry_of`] what a module has besides its statements.
//!
//! [`outline_of`] answers what the names of a source stand for, and where its statements are. [`emit`] takes this outline and answers the
//! statements, or the first line other than an EQU that has an error. [`state_lines`] makes statements by any layout, and promises less of
//! them. [`judge`] answers the error of any one line.
#![tactic(auto)]

mod assembling;
mod fault;
mod first_pass;
pub mod laws;
mod line_fault;
mod lines;
mod listing_end;
mod module_names;
mod name_set;
mod reading;
mod source;
mod statements;

pub use asm_macro::MacroFault;
pub use asm_names::{Layout, SourceLine};
pub use asm_spell::StmtFault;
pub use assembling::{Lines, assemble, assemble_listed, assemble_with};
pub use fault::{AsmFault, Why};
pub use line_fault::LineFault;
pub use module_names::{begins, entry_of, externals_of, labels_of, publics_of};
pub use source::{SourceText, read_source};
pub use statements::{Outline, StateFault, Stated, emit, judge, outline_of, state_lines};
pub use zmo_object::{Module, Statement};
