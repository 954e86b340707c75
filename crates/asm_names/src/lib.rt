//! The names of a source: what each is (a label, an external, or a name that EQU defines), and what it stands for, whatever the
//! order of the lines.
//!
//! [`names_of`] answers what each name is, or the first line that defines a name again or is one too many. [`turns_of`] orders the
//! lines so that each EQU line comes after those whose names it uses. [`settle_names`] takes that order and answers what each name
//! stands for. [`order`] orders any definitions, given for each the numbers of those that it names.
#![tactic(auto)]

mod circles;
mod equ_fault;
mod fault;
mod judging;
mod kind;
pub mod laws;
mod layout;
mod naming;
mod ordering;
mod places;
mod settling;
mod table;
mod walk;

pub use circles::turns_of;
pub use equ_fault::EquFault;
pub use fault::NameFault;
pub use kind::{Kind, SourceLine};
pub use layout::Layout;
pub use naming::names_of;
pub use ordering::{are_defined, order};
pub use settling::{SettledNames, settle_names};
pub use table::NameTable;
pub use walk::Turn;
