//! Parses expressions of Z80 assembler source: tokens become a tree. Expressions whose names are replaced are lists of postfix items,
//! with values at given addresses; and statements in order have distances between them.
#![tactic(auto)]

mod fault;
mod few;
mod item;
pub mod laws;
mod name;
mod operator;
mod reader;
mod short_name;
mod sign;
mod tree;
mod values;

pub use common::is_reserved;
pub use fault::ExprFault;
pub use few::Few;
pub use item::{Item, KeptName, Term, TermView};
pub use name::is_name;
pub use operator::{Binary, Unary};
pub use reader::{MOST_OPEN, parse};
pub use short_name::ShortName;
pub use tree::Tree;
pub use values::{
    Atom, Expr, Kept, Layout, MOST_ITEMS, Piece, Room, Statement, Worth, apply_binary, apply_unary,
    constant, has_places, items, value, values_left,
};
