//! Expressions of Z80 assembler source: replaces the names in a tree by what they stand for, and each fixed part by its number.
#![tactic(auto)]

mod alone;
mod answer;
mod equating;
mod here;
pub mod laws;
mod left;
mod meaning;
mod names;
mod part;
mod parts;
mod reduction;
mod sharing;
mod single;
mod unknown;
mod weigh;

pub use alone::number_alone;
pub use answer::{Settled, settle};
pub use asm_parse::{
    Atom, Binary, Expr, ExprFault, Item, MOST_ITEMS, Room, Statement, Term, TermView, Tree, Unary,
    Worth, constant, has_places, is_reserved, items, parse, value,
};
pub use equating::equate;
pub use here::{Offset, offset_from_here};
pub use meaning::{Equated, Meaning};
pub use names::Names;
pub use unknown::Unknown;
pub use weigh::{is_constant, is_defined, size};
